// Tables as bytes at fixed places.
#![tactic(auto)]

ghost use Rattle.std.specs.Prelude.{◌≡◌, ◌+◌, ◌*◌, ◌≤◌, ◌<◌, ◌++◌, map, length, take, drop};
ghost use Rattle.limits.specs.Limits.{most_programs, most_tracks, most_numbers};
ghost use Rattle.lists.specs.Lists.{hit, from, join};
ghost use Rattle.text.specs.Inner.{Wrote};
ghost use Rattle.tracks.specs.Tracks.{table_at};
ghost use Rattle.packing.specs.Packed.{in_bytes, figure_at, kind_of, count_of, why_of, pack_program, program_at, pack_resource, resource_at};
ghost use Rattle.packing.specs.Packed.{packed, unpacked, is_packed, holders_place, resources_place, links_place, programs_place, packed_length};

use arrayvec::ArrayVec;
use chains::SLOTS;
use clock::Clock;
use ledger::Ledger;
use limits::{MOST_NUMBERS, MOST_PROGRAMS, MOST_TRACKS};
use records::{Numbers, Program, Resource, Why};
use tables::Tables;
use text::writing::put_bytes;
use tracks::Tracks;

// Where each part of the tables stands, and how many bytes there are.
const HOLDERS_PLACE: usize = 15;

const RESOURCES_PLACE: usize = 271;

const LINKS_PLACE: usize = 303;

const PROGRAMS_PLACE: usize = 343;

pub const PACKED_LENGTH: usize = 1271;

// The N bytes at a place.
fn part_at<const N: usize>(s: &[u8], at: usize) -> [u8; N]
    requires { at + N ≤ length s.now }
    ensures { result ≡ take N (drop at s.now) }
{
    *s[at..].first_chunk().unwrap()
}

// The number in two bytes at a place, the lowest first.
#[tactic(auto, using(crate::proofs::Figures::figures))]
fn pair_at(s: &[u8], at: usize) -> u16
    requires { at + 2 ≤ length s.now }
    ensures { result ≡ figure_at 2 s.now at }
{
    u16::from_le_bytes(part_at(s, at))
}

// The number in eight bytes at a place.
#[tactic(auto, using(crate::proofs::Figures::figures))]
fn long_at(s: &[u8], at: usize) -> u64
    requires { at + 8 ≤ length s.now }
    ensures { result ≡ figure_at 8 s.now at }
{
    u64::from_le_bytes(part_at(s, at))
}

#[tactic(auto, unfolding(crate::specs::Packed::why_of))]
fn why_of(kind: u8, n: u16) -> Why
    ensures { result ≡ why_of kind n }
{
    match kind {
        0 => Why::Nothing,
        1 => Why::Tracks(n),
        2 => Why::Son((n % 256) as u8),
        3 => Why::Lock((n % 256) as u8),
        _ => Why::Number,
    }
}

// The record in 29 bytes at a place.
fn program_at(s: &[u8], at: usize) -> Program
    requires { at + 29 ≤ length s.now }
    ensures { result ≡ program_at s.now at }
{
    Program {
        used: 0 < s[at],
        name: part_at(s, at + 1),
        priority: pair_at(s, at + 6),
        state: s[at + 8],
        why: why_of(s[at + 9], pair_at(s, at + 10)),
        due: long_at(s, at + 12),
        interval: long_at(s, at + 20),
        suspend: 0 < s[at + 28],
    }
}

fn programs_at(s: &[u8]) -> [Program; MOST_PROGRAMS]
    requires { packed_length ≤ length s.now }
    ensures { result ≡ map (λ i. program_at s.now (programs_place + 29 * i)) (from 0 most_programs) }
{
    std::array::from_fn(|i| program_at(s, PROGRAMS_PLACE + 29 * i))
}

fn resources_at(s: &[u8]) -> [Resource; MOST_NUMBERS]
    requires { packed_length ≤ length s.now }
    ensures { result ≡ map (λ i. resource_at s.now (resources_place + 2 * i)) (from 0 most_numbers) }
{
    std::array::from_fn(|i| Resource {
        owner: s[RESOURCES_PLACE + 2 * i],
        lock: s[RESOURCES_PLACE + 2 * i + 1],
    })
}

// The tables in 1,271 bytes.
pub fn tables_at(s: &[u8]) -> Tables
    requires { packed_length ≤ length s.now }
    ensures { result ≡ unpacked s.now }
{
    let holders: [u8; MOST_TRACKS] = part_at(s, HOLDERS_PLACE);
    let links: [u8; SLOTS] = part_at(s, LINKS_PLACE);
    let ledger = Ledger {
        programs: programs_at(s),
        clock: Clock::from_ticks(long_at(s, 0), pair_at(s, 8)),
        tracks: Tracks::from_places(pair_at(s, 10), pair_at(s, 12), holders),
        numbers: Numbers {
            count: s[14],
            resources: resources_at(s),
        },
    };
    Tables { ledger, links }
}

// Puts a number in two bytes, the lowest first.
#[tactic(auto, using(crate::proofs::Figures::in_two))]
#[inline(always)]
fn put_pair<const N: usize>(out: &mut ArrayVec<u8, N>, n: u16)
    requires { length out.old.items + 2 ≤ N }
    ensures { out.new.items ≡ out.old.items ++ in_bytes 2 n }
{
    put_bytes(out, &n.to_le_bytes());
}

// Puts a number in eight bytes, the lowest first, at a place of a lent buffer, and hands back the place behind them.
pub fn put_long(buf: &mut [u8], at: usize, n: u64) -> usize
    requires { at + 8 ≤ length buf.old }
    ensures { Wrote buf.old at (in_bytes 8 n) buf.new result }
{
    text::put_bytes(buf, at, &n.to_le_bytes())
}

// The same behind what a vector holds.
#[tactic(auto, using(crate::proofs::Figures::in_eight))]
#[inline(always)]
pub fn push_long<const N: usize>(out: &mut ArrayVec<u8, N>, n: u64)
    requires { length out.old.items + 8 ≤ N }
    ensures { out.new.items ≡ out.old.items ++ in_bytes 8 n }
{
    put_bytes(out, &n.to_le_bytes());
}

fn kind_of(why: Why) -> u8
    ensures { result ≡ kind_of why }
{
    match why {
        Why::Nothing => 0,
        Why::Tracks(_) => 1,
        Why::Son(_) => 2,
        Why::Lock(_) => 3,
        Why::Number => 4,
    }
}

fn count_of(why: Why) -> u16
    ensures { result ≡ count_of why }
{
    match why {
        Why::Tracks(n) => n,
        Why::Son(k) => k as u16,
        Why::Lock(r) => r as u16,
        Why::Nothing | Why::Number => 0,
    }
}

#[tactic(auto, unfolding(crate::specs::Packed::pack_program))]
fn put_program<const N: usize>(out: &mut ArrayVec<u8, N>, r: &Program)
    requires { length out.old.items + 29 ≤ N }
    ensures items { out.new.items ≡ out.old.items ++ pack_program r.now }
    ensures len { length out.new.items ≡ length out.old.items + 29 }
{
    out.push(u8::from(r.used));
    put_bytes(out, &r.name);
    put_pair(out, r.priority);
    out.push(r.state);
    out.push(kind_of(r.why));
    put_pair(out, count_of(r.why));
    push_long(out, r.due);
    push_long(out, r.interval);
    out.push(u8::from(r.suspend));
}

fn put_programs<const N: usize>(out: &mut ArrayVec<u8, N>, programs: &[Program])
    requires { length out.old.items + 29 * length programs.now ≤ N }
    ensures items { out.new.items ≡ out.old.items ++ join (map pack_program programs.now) }
    ensures len { length out.new.items ≡ length out.old.items + 29 * length programs.now }
{
    for r in programs {
        put_program(out, r);
    }
}

fn put_resources<const N: usize>(out: &mut ArrayVec<u8, N>, resources: &[Resource])
    requires { length out.old.items + 2 * length resources.now ≤ N }
    ensures items { out.new.items ≡ out.old.items ++ join (map pack_resource resources.now) }
    ensures len { length out.new.items ≡ length out.old.items + 2 * length resources.now }
{
    for x in resources {
        put_bytes(out, &[x.owner, x.lock]);
    }
}

// The tables in 1,271 bytes.
#[tactic(auto, unfolding(crate::specs::Packed::packed))]
pub fn pack(tables: &Tables) -> ArrayVec<u8, PACKED_LENGTH>
    ensures items { result.items ≡ packed tables.now }
    ensures len { length result.items ≡ packed_length }
{
    let Tables { ledger, links } = tables;
    let mut out = ArrayVec::new();
    push_long(&mut out, ledger.clock.ticks);
    put_pair(&mut out, ledger.clock.year);
    put_pair(&mut out, ledger.tracks.count);
    put_pair(&mut out, ledger.tracks.system);
    out.push(ledger.numbers.count);
    put_bytes(&mut out, &ledger.tracks.places());
    put_resources(&mut out, &ledger.numbers.resources);
    put_bytes(&mut out, links);
    put_programs(&mut out, &ledger.programs);
    out
}

// Puts the tables in 1,271 bytes at the front of a lent buffer, the rest of which stays, and hands back the place behind them.
pub fn put_tables(buf: &mut [u8], tables: Tables) -> usize
    requires { packed_length ≤ length buf.old }
    ensures { Wrote buf.old 0 (packed tables) buf.new result }
{
    text::put_bytes(buf, 0, pack(&tables).as_slice())
}

// Whether bytes are tables in packed form: read and packed anew they are the same bytes.
pub fn is_packed(s: &[u8]) -> bool
    ensures { result ≡ is_packed s.now }
{
    s.len() == PACKED_LENGTH && pack(&tables_at(s)).as_slice() == s
}
