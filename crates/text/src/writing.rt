// Text put behind what a vector of fixed room holds already. Nothing here allocates.
ghost use Rattle.std.specs.Prelude.{◌≡◌, [], ◌∷◌, ◌++◌, ◌+◌, ◌≤◌, ◌<◌, length};
ghost use Rattle.text.specs.Text.{decimal, entry};
ghost use Rattle.text.specs.Inner.{three_digits};

use arrayvec::ArrayVec;

#[inline(always)]
pub fn put_bytes<const N: usize>(out: &mut ArrayVec<u8, N>, s: &[u8])
    requires { length out.old.items + length s.now ≤ N }
    ensures { out.new.items ≡ out.old.items ++ s.now }
{
    out.try_extend_from_slice(s).unwrap();
}

// The three digits of a number below 1,000, zeros in front of it too.
#[inline(always)]
fn put_three<const N: usize>(out: &mut ArrayVec<u8, N>, n: u64)
    requires n_bound { n < 1000 }
    requires room { length out.old.items + 3 ≤ N }
    ensures { out.new.items ≡ out.old.items ++ three_digits n }
{
    out.push(b'0' + (n / 100) as u8);
    out.push(b'0' + (n / 10 % 10) as u8);
    out.push(b'0' + (n % 10) as u8);
}

// A number below 1,000 in decimal.
#[tactic(auto, using(crate::proofs::Laws::few_digits))]
#[inline(always)]
fn put_small<const N: usize>(out: &mut ArrayVec<u8, N>, n: u64)
    requires n_bound { n < 1000 }
    requires room { length out.old.items + length (decimal n) ≤ N }
    ensures { out.new.items ≡ out.old.items ++ decimal n }
{
    if n < 10 {
        out.push(b'0' + n as u8);
    } else if n < 100 {
        out.push(b'0' + (n / 10) as u8);
        out.push(b'0' + (n % 10) as u8);
    } else {
        put_three(out, n);
    }
}

// n in decimal, six digits at a time. No number has more than 20.
#[tactic(auto, using(crate::proofs::Laws::many_digits))]
fn put_large(out: &mut ArrayVec<u8, 20>, n: u64)
    requires { length out.old.items + length (decimal n) ≤ 20 }
    ensures { out.new.items ≡ out.old.items ++ decimal n }
{
    if n < 1000 {
        return put_small(out, n);
    }
    if n < 1000000 {
        put_small(out, n / 1000);
        return put_three(out, n % 1000);
    }
    put_large(out, n / 1000000);
    put_three(out, n / 1000 % 1000);
    put_three(out, n % 1000);
}

// n in decimal. Most numbers of a page are small, and go to their place at once.
#[tactic(auto, using(crate::proofs::Laws::all_digits))]
#[inline(always)]
pub fn put_number<const N: usize>(out: &mut ArrayVec<u8, N>, n: u64)
    requires { length out.old.items + length (decimal n) ≤ N }
    ensures { out.new.items ≡ out.old.items ++ decimal n }
{
    if n < 1000 {
        put_small(out, n);
    } else {
        let mut digits = ArrayVec::new();
        put_large(&mut digits, n);
        put_bytes(out, digits.as_slice());
    }
}

// The beginning of a line: a key, and `=`.
#[inline(always)]
pub fn put_key<const N: usize>(out: &mut ArrayVec<u8, N>, key: &[u8])
    requires { length out.old.items + length key.now + 1 ≤ N }
    ensures { out.new.items ≡ out.old.items ++ (key.now ++ (61 ∷ [])) }
{
    put_bytes(out, key);
    out.push(b'=');
}

// The line key=value.
#[tactic(auto, unfolding(crate::specs::Text::entry))]
#[inline(always)]
pub fn put_entry<const N: usize>(out: &mut ArrayVec<u8, N>, key: &[u8], value: &[u8])
    requires { length out.old.items + length (entry key.now value.now) ≤ N }
    ensures { out.new.items ≡ out.old.items ++ entry key.now value.now }
{
    put_key(out, key);
    put_bytes(out, value);
    out.push(b'\n');
}

// The line key=n.
#[tactic(auto, unfolding(crate::specs::Text::entry))]
#[inline(always)]
pub fn put_figure<const N: usize>(out: &mut ArrayVec<u8, N>, key: &[u8], n: u64)
    requires { length out.old.items + length (entry key.now (decimal n)) ≤ N }
    ensures { out.new.items ≡ out.old.items ++ entry key.now (decimal n) }
{
    put_key(out, key);
    put_number(out, n);
    out.push(b'\n');
}
