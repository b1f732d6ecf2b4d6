// How many records there are, and their earliest and latest timestamps.
ghost use Rattle.std.specs.Prelude.{◌≡◌, true, [], ◌<◌, length};
ghost use Rattle.paper.specs.Store.{latest};
ghost use Rattle.key.specs.Versions.{versions, packed};
ghost use Rattle.run.specs.Tallies.{tally_of, counted};

use crate::places::Places;

// What is known of the records so far. Without one the latest timestamp is 0, as the scope document has it, and the earliest the largest that there is; an
// `Option` of both would be undone by every caller but one.
#[derive(Clone, Copy, Debug, PartialEq, Eq)]
pub struct Tally {
    pub count: usize,
    pub earliest: u64,
    pub latest: u64,
}

impl Tally {
    // Of no record.
    pub fn none() -> Self
        ensures { result ≡ tally_of [] }
    {
        Self {
            count: 0,
            earliest: u64::MAX,
            latest: 0,
        }
    }

    // Of one record more.
    pub fn with_record(self, time: u64) -> Self
        requires { self.count < 18446744073709551615 }
        ensures { result ≡ counted self time }
    {
        Self {
            count: self.count + 1,
            earliest: self.earliest.min(time),
            latest: self.latest.max(time),
        }
    }

    // Of packed records.
    pub fn of(records: &[u8]) -> Self
        requires { packed records.now ≡ true }
        ensures { result ≡ tally_of (versions records.now) }
    {
        let mut tally = Self::none();
        for place in Places::new(records, 0) {
            tally = tally.with_record(place.time);
        }
        tally
    }
}

// How many packed records there are.
pub fn count_records(records: &[u8]) -> usize
    requires { packed records.now ≡ true }
    ensures { result ≡ length (versions records.now) }
{
    Tally::of(records).count
}

// 'The largest timestamp among the records', 0 if there are none.
pub fn latest_of(records: &[u8]) -> u64
    requires { packed records.now ≡ true }
    ensures { result ≡ latest (versions records.now) }
{
    Tally::of(records).latest
}
