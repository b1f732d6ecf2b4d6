// The scan of a view.
ghost use Rattle.std.specs.Prelude.{◌≡◌, true};
ghost use Rattle.paper.specs.Lists.{all};
ghost use Rattle.paper.specs.Seen.{scanned};
ghost use Rattle.merge.specs.Cursors.{lawful};
ghost use Rattle.lsm.specs.Edges.{bound_of};
ghost use Rattle.lsm.specs.Seeking.{AllSought};
ghost use Rattle.lsm.specs.Answers.{Says};
ghost use Rattle.lsm.specs.Views.{versions_in, writes_in, Readable};

use super::answer::Span;
use super::view::View;
use super::walk::Reader;
use merge::heap::{Cursor, Heap};
use std::ops::Bound;

// Puts each cursor at its first version that the lower bound lets through.
fn seek_all(s: &[u8], cursors: &mut [Cursor], low: Bound<&[u8]>)
    requires { all (lawful s.now) cursors.old ≡ true }
    ensures { AllSought s.now (bound_of low.entry) cursors.old cursors.new }
{
    for c in cursors.iter_mut() {
        *c = super::seek::seek_low(s, *c, low);
    }
}

impl View {
    // The first present pair within the bounds.
    pub fn scan(&self, s: &[u8], low: Bound<&[u8]>, high: Bound<&[u8]>) -> Option<Span>
        requires { Readable s.now self.now }
        ensures { Says s.now
            (scanned (writes_in s.now self.now) (versions_in s.now self.now) self.now.read (bound_of low.entry) (bound_of high.entry)) result }
    {
        let mut places = self.cursors;
        let cursors = &mut places[..self.runs];
        seek_all(s, cursors, low);
        let mut heap = Heap::of(s, cursors);
        let reader = Reader {
            s,
            read: self.read,
            high,
        };
        let found = reader.next_pair(&mut heap, None);
        let start = super::overlay::own_from(s, self.own, self.stop, low);
        reader.first_over(heap, found, start, self.stop)
    }
}
