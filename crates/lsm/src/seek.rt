// Seeking: where a run's versions from a key at a stamp on start, and so where they start that a lower bound lets through. Each place is an index into all
// of the bytes, since answers are.
ghost use Rattle.std.specs.Prelude.{◌≡◌, true, IfSome};
ghost use Rattle.key.specs.Places.{Placed};
ghost use Rattle.key.specs.Stamps.{stamped};
ghost use Rattle.merge.specs.Cursors.{lawful};
ghost use Rattle.lsm.specs.Edges.{bound_of};
ghost use Rattle.lsm.specs.Newest.{best_in, InBest, first_of};
ghost use Rattle.lsm.specs.Seeking.{run_in, RunAt, SoughtAt, PastKey, LowAt, Sought};

use key::{KeyStamp, Place};
use merge::heap::Cursor;
use std::ops::Bound;

// Where the versions from a key at a stamp on start, of those from `from` to `end`.
pub fn seek(s: &[u8], from: usize, end: usize, key: &[u8], stamp: KeyStamp) -> usize
    requires { RunAt s.now from end }
    ensures { SoughtAt s.now (stamped key.now stamp) from end result }
{
    run::seek::seek(s, from, end, key, stamp)
}

// The version at `at`, if there is one and it has the key.
pub fn first_of(s: &[u8], at: usize, end: usize, key: &[u8]) -> Option<Place>
    requires { RunAt s.now at end }
    ensures is { best_in s.now result ≡ first_of key.now (run_in s.now at end) }
    ensures inside { InBest s.now result }
    ensures there { IfSome result (λ p. Placed s.now at p) }
{
    if at == end {
        return None;
    }
    let p = key::version_at(s, at);
    (key == &s[p.ks..p.ke]).then_some(p)
}

// Past the version at `at`, if it has the key.
fn past_key(s: &[u8], at: usize, end: usize, key: &[u8]) -> usize
    requires { RunAt s.now at end }
    ensures { PastKey s.now key.now at end result }
{
    first_of(s, at, end, key).map_or(at, |p| p.ve)
}

// Where the versions start that a lower bound lets through: an included bound's from the first version of its key on, an excluded bound's past the last.
fn low_at(s: &[u8], from: usize, end: usize, low: Bound<&[u8]>) -> usize
    requires { RunAt s.now from end }
    ensures { LowAt s.now (bound_of low.entry) from end result }
{
    match low {
        Bound::Included(lo) => seek(s, from, end, lo, KeyStamp::for_range_begin()),
        Bound::Excluded(lo) => {
            let last = seek(s, from, end, lo, KeyStamp::for_range_end());
            past_key(s, last, end, lo)
        }
        Bound::Unbounded => from,
    }
}

// The cursor there.
pub fn seek_low(s: &[u8], c: Cursor, low: Bound<&[u8]>) -> Cursor
    requires { lawful s.now c ≡ true }
    ensures { Sought s.now (bound_of low.entry) c result }
{
    Cursor {
        at: low_at(s, c.at, c.end, low),
        ..c
    }
}
