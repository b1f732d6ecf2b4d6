// Sifting: a cursor goes down to its place in the heap.
ghost use Rattle.std.specs.Prelude.{◌≡◌, true, ◌+◌, ◌<◌, get_or};
ghost use Rattle.paper.specs.Lists.{all};
ghost use Rattle.merge.specs.Shape.{Smaller, Next, Sifted};
ghost use Rattle.merge.specs.Cursors.{nowhere, live, bef};
ghost use Rattle.merge.specs.Unread.{cursors_of};

use super::heap::{Cursor, Heap};

impl Cursor {
    // Whether it comes before another: by the versions that they stand at, and for versions equal in key and timestamp by run order.
    fn is_before(self, other: Cursor, s: &[u8]) -> bool
        requires { (live s.now self ≡ true) × (live s.now other ≡ true) }
        ensures { result ≡ bef s.now self other }
    {
        key::compare_versions(s, self.at, other.at)
            .then(self.run.cmp(&other.run))
            .is_lt()
    }
}

impl Heap {
    // Whether the cursor at i comes before the one at j.
    fn is_before_at(&self, s: &[u8], i: usize, j: usize) -> bool
        requires { (i < self.now.len) × (j < self.now.len) × (all (live s.now) (cursors_of self.now) ≡ true) }
        ensures { result ≡ bef s.now (get_or self.now.cursors i nowhere) (get_or self.now.cursors j nowhere) }
    {
        self.cursors[i].is_before(self.cursors[j], s)
    }

    // The child of `at` that comes first.
    fn smaller(&self, s: &[u8], at: usize) -> usize
        requires { (at + at + 1 < self.now.len) × (all (live s.now) (cursors_of self.now) ≡ true) }
        ensures { Smaller (bef s.now) nowhere self.now.cursors self.now.len at result }
    {
        let left = 2 * at + 1;
        let right = left + 1;
        if right < self.len && self.is_before_at(s, right, left) {
            right
        } else {
            left
        }
    }

    // Of `at`, which has two children, and these the one that comes first. The children are compared with each other only where both come before `at`, so that
    // one of them moves up: else the long keys at which two runs wait would be compared at each short key that a third one passes.
    fn sink_to_one_of_two(&self, s: &[u8], at: usize) -> usize
        requires { (at + at + 2 < self.now.len) × (all (live s.now) (cursors_of self.now) ≡ true) }
        ensures { Next (bef s.now) nowhere self.now.cursors self.now.len at result }
    {
        let left = 2 * at + 1;
        let right = left + 1;
        match (
            self.is_before_at(s, left, at),
            self.is_before_at(s, right, at),
        ) {
            (true, true) => self.smaller(s, at),
            (true, false) => left,
            (false, true) => right,
            (false, false) => at,
        }
    }

    // `at`, or the child of it that comes first, if that comes before it.
    fn sink_to(&self, s: &[u8], at: usize) -> usize
        requires { (at < 17) × (all (live s.now) (cursors_of self.now) ≡ true) }
        ensures { Next (bef s.now) nowhere self.now.cursors self.now.len at result }
    {
        let left = 2 * at + 1;
        if self.len <= left {
            return at;
        }
        if left + 1 < self.len {
            return self.sink_to_one_of_two(s, at);
        }
        if self.is_before_at(s, left, at) {
            left
        } else {
            at
        }
    }

    // Puts the cursor at `at` in its place below, one level further down at a time.
    pub fn sift_down(&mut self, s: &[u8], at: usize)
        requires { (at < 17) × (all (live s.now) (cursors_of self.old) ≡ true) }
        ensures { (self.new.len ≡ self.old.len) × Sifted (bef s.now) nowhere self.old.cursors self.new.cursors self.old.len at }
    {
        let mut place = at;
        loop {
            let next = self.sink_to(s, place);
            if next == place {
                return;
            }
            self.cursors.swap(place, next);
            place = next;
        }
    }
}
