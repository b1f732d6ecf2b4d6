// The visibility walk over a merge: leaving a key and looking for its visible version call each other while unread versions fall, 64 deep at most,
// under a loop: the scope document names this form. It takes the place of `move_to_key` and its nested loops.
ghost use Rattle.std.specs.Prelude.{◌≡◌, ◌<◌};
ghost use Rattle.std.proofs.Math.Option.{none, some};
ghost use Rattle.paper.specs.Keys.{same_key};
ghost use Rattle.merge.specs.Unread.{unread, Sound, least};
ghost use Rattle.lsm.specs.Edges.{bound_of};
ghost use Rattle.lsm.specs.Pairs.{InBytes, pair_at};
ghost use Rattle.lsm.specs.Answers.{InAnswer};
ghost use Rattle.lsm.specs.Shown.{shown, to_do, left_in, same_key_at, Walked, Answered};

use super::answer::Span;
use merge::heap::Heap;
use std::ops::Bound;

// A reader: the bytes in which the runs and the own writes lie, the read number, and the upper bound.
#[derive(Clone, Copy)]
pub struct Reader<'a> {
    pub s: &'a [u8],
    pub read: u64,
    pub high: Bound<&'a [u8]>,
}

// Why a walk stopped: at a visible version, whose place it has; at the end; for want of depth, looking for a visible version, or leaving a version's key.
#[derive(Clone, Copy)]
pub enum Mark {
    Found(Span),
    Ended,
    Looking,
    Leaving(Span),
}

impl Reader<'_> {
    // Whether a pair has the key of another one, which may be none.
    pub fn same_key(self, other: Option<Span>, p: Span) -> bool
        requires { InAnswer self.s.now other × InBytes self.s.now p }
        ensures { result ≡ same_key_at self.entry.s.now other (pair_at self.entry.s.now p).key }
    {
        let key = p.key(self.s);
        other.is_some_and(|q| q.has_key(self.s, key))
    }

    // Whether the least version has the key of a pair.
    fn key_is(self, heap: &Heap, p: Span) -> bool
        requires { Sound self.s.now heap.now × (0 < heap.now.len) × InBytes self.s.now p }
        ensures { result ≡ same_key (pair_at self.entry.s.now p).key (least self.entry.s.now heap.now).key }
    {
        let least = Span::from(key::version_at(self.s, heap.cursors[0].at));
        least.has_key(self.s, p.key(self.s))
    }

    // Looks for the next visible version: the first of its key at or below the read number.
    #[cycle(leave_key_seek_visible)]
    fn seek_visible(self, heap: &mut Heap, fuel: usize) -> Mark
        requires { Sound self.s.now heap.old }
        ensures { Walked self.entry.s.now self.entry.read (bound_of self.entry.high)
            (shown self.entry.read (bound_of self.entry.high) none (unread self.entry.s.now heap.old))
            (to_do Mark.Looking self.entry.s.now heap.old) fuel heap.new result }
    {
        if heap.len == 0 {
            return Mark::Ended;
        }
        if fuel == 0 {
            return Mark::Looking;
        }
        let version = key::version_at(self.s, heap.cursors[0].at);
        let p = Span::from(version);
        if !super::bounds::is_below(self.high, p.key(self.s)) {
            return Mark::Ended;
        }
        if self.read < version.time {
            heap.pass(self.s);
            return self.seek_visible(heap, fuel - 1);
        }
        if p.vs < p.ve {
            return Mark::Found(p);
        }
        heap.pass(self.s);
        self.leave_key(heap, p, fuel - 1)
    }

    // Leaves the key of a pair: passes the versions of it that are still in front.
    #[cycle(leave_key_seek_visible)]
    fn leave_key(self, heap: &mut Heap, p: Span, fuel: usize) -> Mark
        requires { Sound self.s.now heap.old × InBytes self.s.now p }
        ensures { Walked self.entry.s.now self.entry.read (bound_of self.entry.high)
            (shown self.entry.read (bound_of self.entry.high) (some (pair_at self.entry.s.now p).key) (unread self.entry.s.now heap.old))
            (to_do (Mark.Leaving p) self.entry.s.now heap.old) fuel heap.new result }
    {
        if heap.len == 0 {
            return Mark::Ended;
        }
        if fuel == 0 {
            return Mark::Leaving(p);
        }
        if self.key_is(heap, p) {
            heap.pass(self.s);
            return self.leave_key(heap, p, fuel - 1);
        }
        self.seek_visible(heap, fuel - 1)
    }

    // The next pair that is visible at the read number, up to the upper bound: the first of a merge, or the one after a pair that was found. Where a walk
    // stops for want of depth, it goes on.
    pub fn next_pair(self, heap: &mut Heap, after: Option<Span>) -> Option<Span>
        requires { Sound self.s.now heap.old × InAnswer self.s.now after }
        ensures { Answered self.entry.s.now self.entry.read (bound_of self.entry.high)
            (shown self.entry.read (bound_of self.entry.high) (left_in self.entry.s.now after) (unread self.entry.s.now heap.old)) heap.new result }
    {
        let mut mark = after.map_or(Mark::Looking, |p| Mark::Leaving(p));
        loop {
            mark = match mark {
                Mark::Looking => self.seek_visible(heap, 64),
                Mark::Leaving(p) => self.leave_key(heap, p, 64),
                Mark::Found(p) => return Some(p),
                Mark::Ended => return None,
            };
        }
    }
}
