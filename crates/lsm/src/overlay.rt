// Own writes on top of a walk, after `TwoMergeIterator`: of equal keys the own write stands, and the snapshot's pair is skipped.
ghost use Rattle.std.specs.Prelude.{◌≡◌, ◌&&◌, ◌<◌};
ghost use Rattle.paper.specs.Lists.{first, keep};
ghost use Rattle.lsm.specs.Edges.{bound_of, pair_up_to};
ghost use Rattle.lsm.specs.Pairs.{own_in, OwnAt, pair_at, PairAt, InBytes, OwnFrom, own_low};
ghost use Rattle.lsm.specs.Answers.{Says, InAnswer};
ghost use Rattle.lsm.specs.Shown.{coming_from};
ghost use Rattle.lsm.specs.Overlay.{put_all, own_first_at, Standing};

use super::answer::Span;
use super::walk::Reader;
use merge::heap::Heap;
use std::ops::Bound;

// The first of the own pairs from `at` to `end`.
pub fn pair_at(s: &[u8], at: usize, end: usize) -> Span
    requires { OwnAt s.now at end × (at < end) }
    ensures { PairAt s.now at end result }
{
    let ks = at + 2;
    let ke = ks + raw::length_at(s, at);
    let vs = ke + 2;
    let ve = vs + raw::length_at(s, ke);
    Span { ks, ke, vs, ve }
}

// Whether the first own pair from `at` is below the lower bound.
fn own_low(s: &[u8], at: usize, end: usize, low: Bound<&[u8]>) -> bool
    requires { OwnAt s.now at end }
    ensures { result ≡ own_low (bound_of low.entry) (own_in s.now at end) }
{
    at < end && !super::bounds::is_above(low, pair_at(s, at, end).key(s))
}

// Where the own pairs from the lower bound on start. Pairs differ in length, so each is read to find the next; an iterator over them would carry the same two
// places.
pub fn own_from(s: &[u8], start: usize, end: usize, low: Bound<&[u8]>) -> usize
    requires { OwnAt s.now start end }
    ensures { OwnFrom s.now (bound_of low.entry) start end result }
{
    let mut at = start;
    while own_low(s, at, end, low) {
        at = pair_at(s, at, end).ve;
    }
    at
}

impl Reader<'_> {
    // Whether an own pair is up to the upper bound, and not after the pair that the walk shows.
    fn chooses_own(self, shown: Option<Span>, p: Span) -> bool
        requires { InAnswer self.s.now shown × InBytes self.s.now p }
        ensures { result ≡ pair_up_to (bound_of self.entry.high) (pair_at self.entry.s.now p)
            && own_first_at self.entry.s.now shown (pair_at self.entry.s.now p).key }
    {
        let key = p.key(self.s);
        super::bounds::is_below(self.high, key) && shown.is_none_or(|q| !q.is_before(self.s, key))
    }

    // The first pair of the own pairs from `start` to `end` on top of those of a walk that found a pair, or none.
    pub fn first_over(
        self,
        mut heap: Heap,
        found: Option<Span>,
        start: usize,
        end: usize,
    ) -> Option<Span>
        requires { Standing self.s.now self.read (bound_of self.high) heap found × OwnAt self.s.now start end }
        ensures { Says self.entry.s.now
            (first (put_all (keep (pair_up_to (bound_of self.entry.high)) (own_in self.entry.s.now start end))
            (coming_from self.entry.s.now self.entry.read (bound_of self.entry.high) found heap))) result }
    {
        // Pairs differ in length, so where the next one starts is known behind this one alone.
        let mut shown = found;
        let mut at = start;
        while at < end {
            let p = pair_at(self.s, at, end);
            if !self.chooses_own(shown, p) {
                return shown;
            }
            if p.vs < p.ve {
                return Some(p);
            }
            if self.same_key(shown, p) {
                shown = self.next_pair(&mut heap, shown);
            }
            at = p.ve;
        }
        shown
    }
}
