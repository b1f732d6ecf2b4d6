// One pass over the rows, a row at a time and by value, and what a call then does. Both tables are built of these functions: they decide, and a table
// only reads its rows in front and writes what was decided.
ghost use Rattle.std.specs.Prelude.{◌≡◌, [], ◌+◌, ◌≤◌, ◌<◌, ◌^◌, length, IfSome};
ghost use Rattle.watermark.specs.Pass.{found, see_of, put_in, adding_of, removing_of};

use super::reply::{AddRefusal, RemoveRefusal, Unsound};

// A timestamp and the number of its readers.
#[derive(Clone, Copy, Debug, PartialEq, Eq)]
pub struct Row {
    pub time: u64,
    pub count: u64,
}

// What is known of the rows passed so far, which are sound: the last timestamp, if there is one, how many rows stand below `time`, and the readers at
// `time`, if it has a row.
#[derive(Clone, Copy, Debug)]
pub struct Scan {
    pub time: u64,
    pub last: Option<u64>,
    pub below: usize,
    pub count: Option<u64>,
}

// `row` is put in at `from`, and what stood from there to before `to` goes one further, the last of it away.
#[derive(Clone, Copy, Debug)]
pub struct Put {
    pub from: usize,
    pub to: usize,
    pub row: Row,
}

// A removal: a row that counts one less, or one that goes.
#[derive(Clone, Copy, Debug)]
pub enum Removing {
    Fewer { put: Put },
    Gone { at: usize },
}

impl Scan {
    // No row is passed yet.
    pub fn start(time: u64) -> Self
        ensures { result ≡ found time [] }
    {
        Self {
            time,
            last: None,
            below: 0,
            count: None,
        }
    }

    // A row more: the first count of 0 or timestamp that does not rise ends the pass.
    #[tactic(auto, using(std::proofs::lemmas::Bool::Decides::nat_tests), unfolding(crate::specs::Pass::see_of))]
    pub fn see(self, row: Row) -> Result<Self, Unsound>
        requires { self.below + 1 < 2 ^ 64 }
        ensures { result ≡ see_of self row }
    {
        if row.count == 0 || self.last.is_some_and(|last| row.time <= last) {
            return Err(Unsound);
        }
        Ok(Self {
            time: self.time,
            last: Some(row.time),
            below: if row.time < self.time {
                self.below + 1
            } else {
                self.below
            },
            count: if row.time == self.time {
                Some(row.count)
            } else {
                self.count
            },
        })
    }

    // One reader more in the row of its timestamp, or a row for it.
    #[tactic(auto, using(std::proofs::lemmas::Bool::Decides::nat_tests), unfolding(crate::specs::Pass::adding_of))]
    pub fn plan_add(self, used: usize, room: usize) -> Result<Put, AddRefusal>
        requires { IfSome self.count (λ _. self.below + 1 < 2 ^ 64) }
        ensures { result ≡ adding_of self used room }
    {
        let Some(count) = self.count else {
            if room <= used {
                return Err(AddRefusal::Full);
            }
            let row = Row {
                time: self.time,
                count: 1,
            };
            return Ok(Put {
                from: self.below,
                to: used + 1,
                row,
            });
        };
        let count = count.checked_add(1).ok_or(AddRefusal::CountFull)?;
        let row = Row {
            time: self.time,
            count,
        };
        Ok(Put {
            from: self.below,
            to: self.below + 1,
            row,
        })
    }

    // One reader less in the row of its timestamp, and no row where that was the last.
    #[tactic(auto, using(std::proofs::lemmas::Bool::Decides::nat_tests), unfolding(crate::specs::Pass::removing_of))]
    pub fn plan_remove(self) -> Result<Removing, RemoveRefusal>
        requires { IfSome self.count (λ _. self.below + 1 < 2 ^ 64) }
        ensures { result ≡ removing_of self }
    {
        let count = self.count.ok_or(RemoveRefusal::Missing)?;
        if count <= 1 {
            return Ok(Removing::Gone { at: self.below });
        }
        let row = Row {
            time: self.time,
            count: count - 1,
        };
        let put = Put {
            from: self.below,
            to: self.below + 1,
            row,
        };
        Ok(Removing::Fewer { put })
    }
}

impl Put {
    // `x` is this row's part in the slice.
    pub fn write<T: Copy>(self, slice: &mut [T], x: T)
        requires from { self.from < self.to }
        requires to { self.to ≤ length slice.old }
        ensures { slice.new ≡ put_in slice.old self.from self.to x }
    {
        slice.copy_within(self.from..self.to - 1, self.from + 1);
        slice[self.from] = x;
    }
}
