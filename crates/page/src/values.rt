// The values that lines of a page have: a name, a reason, a figure that may be absent, a holder, numbers joined by commas.
ghost use Rattle.std.specs.Prelude.{◌≡◌, ◌+◌, ◌≤◌, [], ◌∷◌, ◌++◌, map, length};
ghost use Rattle.records.specs.Names.{bare};
ghost use Rattle.text.specs.Text.{decimal, between};
ghost use Rattle.page.specs.Page.{party, reason};
ghost use Rattle.page.specs.Inner.{or_none};

use super::keys;
use arrayvec::ArrayVec;
use records::{Numbers, Why};
use text::writing::{put_bytes, put_number};

// A name without its blanks.
pub(crate) fn put_name<const N: usize>(out: &mut ArrayVec<u8, N>, name: [u8; 5])
    requires { length out.old.items + length (bare name) ≤ N }
    ensures { out.new.items ≡ out.old.items ++ bare name }
{
    for c in &name {
        if *c != b' ' {
            out.push(*c);
        }
    }
}

// A word and a number.
#[inline(always)]
pub(crate) fn put_coded<const N: usize>(out: &mut ArrayVec<u8, N>, word: &[u8], n: u64)
    requires { length out.old.items + length (word.now ++ decimal n) ≤ N }
    ensures { out.new.items ≡ out.old.items ++ (word.now ++ decimal n) }
{
    put_bytes(out, word);
    put_number(out, n);
}

// A number and a byte.
#[inline(always)]
pub(crate) fn put_marked<const N: usize>(out: &mut ArrayVec<u8, N>, n: u64, mark: u8)
    requires { length out.old.items + length (decimal n ++ (mark ∷ [])) ≤ N }
    ensures { out.new.items ≡ out.old.items ++ (decimal n ++ (mark ∷ [])) }
{
    put_number(out, n);
    out.push(mark);
}

// Why a program waits: a word, and for most a number.
#[inline(always)]
pub(crate) fn put_reason<const N: usize>(out: &mut ArrayVec<u8, N>, why: Why)
    requires { length out.old.items + length (reason why) ≤ N }
    ensures { out.new.items ≡ out.old.items ++ reason why }
{
    match why {
        Why::Nothing => put_bytes(out, &keys::NONE),
        Why::Tracks(n) => put_coded(out, &keys::FOR_TRACKS, n as u64),
        Why::Son(k) => put_coded(out, &keys::FOR_SON, k as u64),
        Why::Lock(r) => put_coded(out, &keys::FOR_LOCK, r as u64),
        Why::Number => put_bytes(out, &keys::FOR_NUMBER),
    }
}

// A number, or a dash where there is none.
#[inline(always)]
pub(crate) fn put_or_dash<const N: usize>(out: &mut ArrayVec<u8, N>, n: Option<u64>)
    requires { length out.old.items + length (or_none n) ≤ N }
    ensures { out.new.items ≡ out.old.items ++ or_none n }
{
    match n {
        Some(n) => put_number(out, n),
        None => put_bytes(out, &keys::NONE),
    }
}

// A holder or an owner.
#[inline(always)]
pub(crate) fn put_party<const N: usize>(out: &mut ArrayVec<u8, N>, h: u8)
    requires { length out.old.items + length (party h) ≤ N }
    ensures { out.new.items ≡ out.old.items ++ party h }
{
    if h == Numbers::GLOBAL {
        put_bytes(out, &keys::GLOBAL);
    } else {
        put_number(out, h as u64);
    }
}

// Numbers, joined by commas.
pub(crate) fn put_joined<const N: usize>(out: &mut ArrayVec<u8, N>, ids: &[u8])
    requires { length out.old.items + length (between 44 (map decimal ids.now)) ≤ N }
    ensures { out.new.items ≡ out.old.items ++ between 44 (map decimal ids.now) }
{
    if let Some((first, others)) = ids.split_first() {
        put_number(out, *first as u64);
        for id in others {
            put_coded(out, &keys::COMMA, *id as u64);
        }
    }
}
