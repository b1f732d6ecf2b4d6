// Building: the cursors that have versions left are gathered, and each is put in its place, from the last.
ghost use Rattle.std.specs.Prelude.{◌≡◌, true, ◌≤◌, ◌<◌, length};
ghost use Rattle.paper.specs.Lists.{all};
ghost use Rattle.merge.specs.Cursors.{lawful, live, in_order};
ghost use Rattle.merge.specs.Unread.{cursors_of};
ghost use Rattle.merge.specs.Building.{Pushed, Gathered, Ordered, Built};

use super::heap::{Cursor, Heap, MOST_RUNS};

impl Heap {
    // Puts the cursor last, if it has versions left.
    fn push(&mut self, c: Cursor)
        requires { self.old.len < 17 }
        ensures { Pushed self.old c self.new }
    {
        if c.at < c.end {
            self.cursors[self.len] = c;
            self.len += 1;
        }
    }

    // The cursors that have versions left, in the order given.
    fn gather(cursors: &[Cursor]) -> Heap
        requires { length cursors.now ≤ 17 }
        ensures { Gathered cursors.now result }
    {
        let mut heap = Heap {
            cursors: [Cursor::NOWHERE; MOST_RUNS],
            len: 0,
        };
        for c in cursors {
            heap.push(*c);
        }
        heap
    }

    // Puts the cursors in their places, from the last.
    fn order(&mut self, s: &[u8])
        requires { all (live s.now) (cursors_of self.old) ≡ true }
        ensures { Ordered s.now self.old self.new }
    {
        for at in (0..self.len).rev() {
            self.sift_down(s, at);
        }
    }

    // The heap of some cursors, those of the runs in run order.
    pub fn of(s: &[u8], cursors: &[Cursor]) -> Heap
        requires { (length cursors.now ≤ 17) × (all (lawful s.now) cursors.now ≡ true) × (in_order 0 cursors.now ≡ true) }
        ensures { Built s.now cursors.now result }
    {
        let mut heap = Heap::gather(cursors);
        heap.order(s);
        heap
    }
}
