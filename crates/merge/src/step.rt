// Stepping: the least version comes out, and those equal to it in key and timestamp in later runs are passed.
ghost use Rattle.std.specs.Prelude.{◌≡◌, true, ◌<◌, drop};
ghost use Rattle.paper.specs.Lists.{is_some};
ghost use Rattle.paper.specs.Image.{one_record};
ghost use Rattle.key.specs.Versions.{version_at};
ghost use Rattle.merge.specs.Unread.{Sound};
ghost use Rattle.merge.specs.Steps.{least_is, Advanced, Stepped, Passed};

use super::heap::{Cursor, Heap};
use std::cmp::Ordering;

impl Heap {
    // Puts the root's cursor past its version; where that was its last, the last cursor in its place.
    fn advance(&mut self, s: &[u8])
        requires { Sound s.now self.old × (0 < self.old.len) }
        ensures { Advanced s.now self.old self.new }
    {
        let c = self.cursors[0];
        let p = key::version_at(s, c.at);
        if p.ve < c.end {
            self.cursors[0] = Cursor {
                at: p.ve,
                end: c.end,
                run: c.run,
            };
        } else {
            self.len -= 1;
            self.cursors[0] = self.cursors[self.len];
        }
    }

    // Steps the cursor of the least version on.
    fn step_root(&mut self, s: &[u8])
        requires { Sound s.now self.old × (0 < self.old.len) }
        ensures { Stepped s.now self.old self.new }
    {
        self.advance(s);
        self.sift_down(s, 0);
    }

    // Whether the least version has the key and timestamp of the version at `at`.
    fn has_least(&self, s: &[u8], at: usize) -> bool
        requires { Sound s.now self.now × (is_some (one_record (drop at s.now)) ≡ true) }
        ensures { result ≡ least_is s.now (version_at s.now at) self.now }
    {
        self.len > 0 && key::compare_versions(s, self.cursors[0].at, at) == Ordering::Equal
    }

    // Passes the least version, and those of its key and timestamp in later runs.
    pub fn pass(&mut self, s: &[u8])
        requires { Sound s.now self.old × (0 < self.old.len) }
        ensures { Passed s.now self.old self.new }
    {
        let least = self.cursors[0].at;
        self.step_root(s);
        // How many versions are passed shows only at the next one.
        while self.has_least(s, least) {
            self.step_root(s);
        }
    }
}
