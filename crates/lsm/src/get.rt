// A get: the own write of the key, or else the newest of its versions at or below the read number, over all runs. No heap is built for it: in each run,
// the first record at or after the key at the read number is the only one that can be it.
ghost use Rattle.std.specs.Prelude.{◌≡◌, true, map};
ghost use Rattle.paper.specs.Lists.{all, join};
ghost use Rattle.paper.specs.Seen.{newest, own_write, seen};
ghost use Rattle.merge.specs.Cursors.{lawful, left};
ghost use Rattle.lsm.specs.Pairs.{own_in, OwnAt};
ghost use Rattle.lsm.specs.Answers.{value_in, InAnswer};
ghost use Rattle.lsm.specs.Views.{versions_in, writes_in, Readable};
ghost use Rattle.lsm.specs.Newest.{newer_of, best_in, InBest, own_of, shown_of};

use super::answer::Span;
use super::view::View;
use key::{KeyStamp, Place};
use merge::heap::Cursor;
use std::ops::Bound;

// Of two versions the one with the larger timestamp; the earlier run's where they are equal.
fn newer(a: Option<Place>, b: Option<Place>) -> Option<Place>
    ensures { result ≡ newer_of a b }
{
    match (a, b) {
        (Some(p), Some(q)) if p.time < q.time => b,
        _ => a.or(b),
    }
}

// The newest version of a key at or below a read number in one run.
fn newest_in(s: &[u8], c: Cursor, key: &[u8], read: u64) -> Option<Place>
    requires { lawful s.now c ≡ true }
    ensures { (best_in s.now result ≡ newest key.now read (left s.now c)) × InBest s.now result }
{
    let at = super::seek::seek(s, c.at, c.end, key, KeyStamp::new(read));
    super::seek::first_of(s, at, c.end, key)
}

// The same over all runs.
fn newest_of(s: &[u8], cursors: &[Cursor], key: &[u8], read: u64) -> Option<Place>
    requires { all (lawful s.now) cursors.now ≡ true }
    ensures { (best_in s.now result ≡ newest key.now read (join (map (left s.now) cursors.now)))
        × InBest s.now result }
{
    let mut best = None;
    for c in cursors {
        best = newer(best, newest_in(s, *c, key, read));
    }
    best
}

// The own pair at `at`, if there is one and it has the key.
fn own_of(s: &[u8], at: usize, end: usize, key: &[u8]) -> Option<Span>
    requires { OwnAt s.now at end }
    ensures { (value_in s.now result ≡ own_of key.now (own_in s.now at end)) × InAnswer s.now result }
{
    if at == end {
        return None;
    }
    let p = super::overlay::pair_at(s, at, end);
    p.has_key(s, key).then_some(p)
}

// The own write of a key.
fn own_write(s: &[u8], start: usize, end: usize, key: &[u8]) -> Option<Span>
    requires { OwnAt s.now start end }
    ensures { (value_in s.now result ≡ own_write key.now (own_in s.now start end)) × InAnswer s.now result }
{
    let at = super::overlay::own_from(s, start, end, Bound::Included(key));
    own_of(s, at, end, key)
}

fn shown(best: Option<Place>) -> Option<Span>
    ensures { result ≡ shown_of best }
{
    best.and_then(|p| Span::from(p).present())
}

impl View {
    // What is seen of a key: its value's place, or nothing.
    pub fn get(&self, s: &[u8], key: &[u8]) -> Option<Span>
        requires { Readable s.now self.now }
        ensures { (value_in s.now result ≡ seen (writes_in s.now self.now) (versions_in s.now self.now) self.now.read key.now)
            × InAnswer s.now result }
    {
        match own_write(s, self.own, self.stop, key) {
            Some(p) => p.present(),
            None => shown(newest_of(s, &self.cursors[..self.runs], key, self.read)),
        }
    }
}
