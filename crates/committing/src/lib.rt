// A commit on a sound state: 3, 4, 6, 7, 5, in this order, and then everything is written.
#![tactic(auto)]

ghost use Rattle.std.specs.Prelude.{◌≡◌, true, ◌+◌, ◌≤◌, length};
ghost use Rattle.paper.specs.Keys.{Bytes};
ghost use Rattle.paper.specs.Runs.{run_size};
ghost use Rattle.paper.specs.Room.{active_fits};
ghost use Rattle.paper.specs.Calls.{active_after, stored, try_store, judged, Call};
ghost use Rattle.paper.specs.Image.{big_endian};
ghost use Rattle.raw.specs.Bytes.{over};
ghost use Rattle.layout.specs.Offsets.{place_mark};
ghost use Rattle.layout.specs.Layout.{listed, version_stream, store_in, write_store, sound_state};
ghost use Rattle.reply.specs.Told.{Told, told_committed};
ghost use Rattle.reply.specs.OnBytes.{told_on};
ghost use Rattle.committing.specs.Held.{Placed, held_at};
ghost use Rattle.committing.specs.Storing.{heard_of, opponent_at, end_at, Ready, run_with, MayCommit, MayStore, MayWrite};

use mvcc::Conflict;
use overlay::Own;
use reply::{Refusal, Room};
use settings::Shape;

pub mod history; // history.rt: who is in the way of a commit, and how it enters the history

// A transaction in a sound state: the state's shape, and where the transaction's place begins.
// The state stays beside it: what is known, `Placed`, speaks of the lent bytes, and a ghost field beside a `&mut` gets no proof.
#[derive(Clone, Copy)]
pub struct Transaction {
    pub shape: Shape,
    pub place: usize,
}

// Where a list ends that has the number of its bytes in front, 8 bytes, at `at`.
fn end_of(state: &[u8], at: usize) -> usize
    requires { end_at state.now at ≤ length state.now }
    ensures { result ≡ end_at state.now at }
{
    at + 8 + raw::number::<8>(state, at) as usize
}

impl Transaction {
    // ---- the active run

    // 'Active run (12 bytes plus key and value for each version) .. too small' is no room: whether it holds the transaction's own writes too.
    fn active_fits(self, state: &[u8], number: u64) -> bool
        requires { Placed state.now self.shape self.place × (number ≡ (store_in state.now).clock + 1) }
        ensures { result ≡ active_fits (store_in state.now).settings (active_after (store_in state.now) (held_at state.now self.place)) }
    {
        let from = self.shape.active + 8;
        let room = self.shape.area - from;
        let end = end_of(state, self.shape.active);
        let stop = end_of(state, self.place + 24);
        let own = Own::new(&state[self.place + 32..stop]);
        versions::fits(&state[from..end], own, number, room)
    }

    // 'Each overlay entry becomes a version with that timestamp in the active run', whose number of bytes stands in front of it.
    fn write_active(self, state: &mut [u8], number: u64)
        requires { Ready state.old self.shape self.place number × (self.shape.active + 8 + run_size (run_with state.old self.shape self.place number) ≤ self.place) }
        ensures { state.new ≡ over state.old self.shape.active ((listed version_stream).put (run_with state.old self.shape self.place number)) }
    {
        let from = self.shape.active + 8;
        let used = end_of(state, self.shape.active) - from;
        let start = self.place + 32;
        let length = end_of(state, self.place + 24) - start;
        let (front, back) = state.split_at_mut(start);
        let own = Own::new(&back[..length]);
        let size = versions::absorb(&mut front[from..], used, own, number);
        raw::put_number::<8>(state, self.shape.active, size as u64);
    }

    // ---- the commit

    // The transaction is closed: its mark is 0.
    // Not by `txn::close`, which is lent the place: the edit `mark_not_closed` changes the 0 that is written here.
    fn close(self, state: &mut [u8])
        requires { self.place + 24 ≤ length state.old }
        ensures { state.new ≡ over state.old (self.place + place_mark) (big_endian 8 0) }
    {
        raw::put_number::<8>(state, self.place + 16, 0);
    }

    // Everything that an accepted commit writes: the history, the active run, the transaction's mark, and the clock.
    fn write_all(self, state: &mut [u8], number: u64)
        requires { MayWrite state.old self.shape self.place number }
        ensures { state.new ≡ write_store (stored (store_in state.old) (held_at state.old self.place)) state.old }
    {
        self.enter_history(state, number);
        self.write_active(state, number);
        self.close(state);
        raw::put_number::<8>(state, 72, number);
    }

    // Nobody is in the way: 7, then 5, the history's room before the active run's. 'Otherwise the clock rises by 1.'
    fn store_writes(self, state: &mut [u8]) -> Result<Option<u64>, Refusal>
        requires { MayStore state.old self.shape self.place }
        ensures { ◌≡◌ {A = Told × Bytes} (told_committed result, state.new) (heard_of state.old (try_store (store_in state.old) (held_at state.old self.place))) }
    {
        let clock = raw::number::<8>(state, 72);
        let number = clock.checked_add(1).ok_or(Refusal::CounterFull)?;
        if !self.history_fits(state, number) {
            return Err(Refusal::NoRoom {
                room: Room::History,
            });
        }
        if !self.active_fits(state, number) {
            return Err(Refusal::NoRoom {
                room: Room::ActiveRun,
            });
        }
        self.write_all(state, number);
        Ok(Some(number))
    }

    // There are writes: 6 where somebody is in their way, and '6 alone marks its transaction closed'.
    fn judge(self, state: &mut [u8]) -> Result<Option<u64>, Refusal>
        requires { MayCommit state.old self.shape self.place }
        ensures { ◌≡◌ {A = Told × Bytes} (told_committed result, state.new) (heard_of state.old (judged (store_in state.old) (held_at state.old self.place) (opponent_at state.old self.place))) }
    {
        let Some(Conflict { number, hash }) = self.opposed(state) else {
            return self.store_writes(state);
        };
        self.close(state);
        Err(Refusal::Conflict { number, hash })
    }
}

// Commits a transaction. 'Commit without writes: accepted, nothing checked or stored; the clock stays': its mark alone changes.
pub fn commit(state: &mut [u8], handle: u64) -> Result<Option<u64>, Refusal>
    requires { sound_state state.old ≡ true }
    ensures { ◌≡◌ {A = Told × Bytes} (told_committed result, state.new) (told_on (Call.commit handle) state.old) }
{
    let shape = seat::shape_in(state);
    let seat = seat::open_seat(state, shape, handle)?;
    let transaction = Transaction {
        shape,
        place: seat.place,
    };
    if raw::number::<8>(state, seat.place + 24) == 0 {
        transaction.close(state);
        return Ok(None);
    }
    transaction.judge(state)
}
