// The history's part in a commit, on a sound state: who is in the way, whether there is room for a new entry, and how it enters.
ghost use Rattle.std.specs.Prelude.{◌≡◌, true, ◌+◌, ◌*◌, ◌<◌, ◌≤◌, length};
ghost use Rattle.paper.specs.Readers.{watermark};
ghost use Rattle.paper.specs.History.{opponent};
ghost use Rattle.paper.specs.Room.{history_fits};
ghost use Rattle.paper.specs.Store.{with_history};
ghost use Rattle.paper.specs.Calls.{history_after};
ghost use Rattle.layout.specs.Layout.{store_in, write_store, sound_state};
ghost use Rattle.settings.specs.Shapes.{shape_of};
ghost use Rattle.txn.specs.Place.{used_at};
ghost use Rattle.mvcc.specs.Histories.{opponent_of, CutAt};
ghost use Rattle.committing.specs.Held.{Placed, held_at};
ghost use Rattle.committing.specs.Regions.{list_at, set_starts};

use super::Transaction;
use mvcc::Conflict;

// ---- where things lie

// Where the sets of a transaction begin, each with the number of its bytes in front.
#[derive(Clone, Copy)]
struct SetStarts {
    reads: usize,
    writes: usize,
}

// The bytes of a list that has the number of them in front, at an index: the history's entries, or the hashes of a set.
fn list_at(state: &[u8], at: usize) -> &[u8]
    requires { at + 8 + used_at state.now at ≤ length state.now }
    ensures { result.now ≡ list_at state.now at }
{
    let start = at + 8;
    let used = raw::number::<8>(state, at) as usize;
    &state[start..start + used]
}

impl Transaction {
    // Its sets: the read set stands behind its own writes, and the write set behind the read set.
    fn sets(self) -> SetStarts
        requires { self.place + self.shape.own + 4 * self.shape.reads < 134217728 }
        ensures { result ≡ set_starts self.shape self.place }
    {
        let reads = self.place + 32 + self.shape.own;
        SetStarts {
            reads,
            writes: reads + 8 + 4 * self.shape.reads,
        }
    }

    // ---- what leaves

    // 'The smallest timestamp with a reader; with no reader, the clock.'
    fn watermark(self, state: &[u8], clock: u64) -> u64
        requires { (sound_state state.now ≡ true) × (self.shape ≡ shape_of (store_in state.now).settings) }
        ensures { result ≡ watermark clock (store_in state.now).readers }
    {
        let end = self.shape.history;
        table::smallest(&state[88..end], clock)
    }

    // Where in the history the entries that stay begin, once the clock is at `number`: 'entries strictly below the watermark leave'.
    fn cut(self, state: &[u8], number: u64) -> usize
        requires { (sound_state state.now ≡ true) × (self.shape ≡ shape_of (store_in state.now).settings) }
        ensures { CutAt (list_at state.now self.shape.history) (watermark number (store_in state.now).readers) result }
    {
        let low = self.watermark(state, number);
        mvcc::cut_below(list_at(state, self.shape.history), low)
    }

    // ---- the history in a commit

    // 'A history entry with commit number above the read timestamp shares a hash with the read set': the first such.
    pub fn opposed(self, state: &[u8]) -> Option<Conflict>
        requires { Placed state.now self.shape self.place }
        ensures { opponent_of result ≡ opponent (held_at state.now self.place).read (held_at state.now self.place).reads (store_in state.now).history }
    {
        let reads = list_at(state, self.sets().reads);
        let read = raw::number::<8>(state, self.place + 8);
        mvcc::opponent(list_at(state, self.shape.history), reads, read)
    }

    // 'History after pruning plus the new entry above a limit' is no room; in the other mode no history is kept.
    pub fn history_fits(self, state: &[u8], number: u64) -> bool
        requires { Placed state.now self.shape self.place × (number ≡ (store_in state.now).clock + 1) }
        ensures { result ≡ history_fits (store_in state.now).settings (history_after (store_in state.now) (held_at state.now self.place)) }
    {
        if !self.shape.serializable {
            return true;
        }
        let writes = list_at(state, self.sets().writes);
        let cut = self.cut(state, number);
        let stays = &list_at(state, self.shape.history)[cut..];
        mvcc::fits(
            stays,
            writes.len() / 4,
            self.shape.entries,
            self.shape.hashes,
        )
    }

    // 'In serializable mode the write hashes enter the history under that number and entries strictly below the watermark leave.'
    pub fn enter_history(self, state: &mut [u8], number: u64)
        requires { Placed state.old self.shape self.place × (number ≡ (store_in state.old).clock + 1) × (history_fits (store_in state.old).settings (history_after (store_in state.old) (held_at state.old self.place)) ≡ true) }
        ensures { state.new ≡ write_store (with_history (history_after (store_in state.old) (held_at state.old self.place)) (store_in state.old)) state.old }
    {
        if self.shape.serializable {
            let writes = self.sets().writes;
            let count = list_at(state, writes).len() / 4;
            let cut = self.cut(state, number);
            let end = list_at(state, self.shape.history).len();
            let start = self.shape.history + 8;
            let from = writes + 8 - start;
            let next = mvcc::enter_from(&mut state[start..], cut, end, number, from, count);
            raw::put_number::<8>(state, self.shape.history, next as u64);
        }
    }
}
