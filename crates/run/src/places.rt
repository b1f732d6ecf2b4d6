// The places of packed records, one after the other. Records differ in length, so it goes by where the next one starts.
ghost use Rattle.std.specs.Prelude.{◌≡◌, true, ◌-◌, ◌≤◌, length, drop, MatchOption};
ghost use Rattle.std.specs.Iterator.{at_most};
ghost use Rattle.key.specs.Places.{Placed};
ghost use Rattle.key.specs.Versions.{packed};

use key::Place;

#[derive(Clone, Copy)]
pub struct Places<'a> {
    pub records: &'a [u8],
    pub at: usize,
    ghost ahead: { at ≤ length records.now },
    ghost whole: { packed (drop at records.now) ≡ true },
}

impl<'a> Places<'a> {
    // Of the records from `at` on.
    pub fn new(records: &'a [u8], at: usize) -> Self
        requires { (at ≤ length records.now) × (packed (drop at records.now) ≡ true) }
        ensures { (result.records ≡ records.entry) × (result.at ≡ at) }
    {
        Self { records, at }
    }
}

impl<'a> Iterator for Places<'a> {
    type Item = Place;

    ghost next_gives = { λ r step t. (t.records ≡ r.records) × MatchOption step (length r.records.now ≤ r.at) (λ p. Placed r.records.now r.at p × (t.at ≡ p.ve)) };

    ghost remaining = { λ r. at_most (length r.records.now - r.at) };

    fn next(&mut self) -> Option<Place> {
        if self.at == self.records.len() {
            return None;
        }
        let place = key::version_at(self.records, self.at);
        *self = Self::new(self.records, place.ve);
        Some(place)
    }
}
