// Transactions begun and ended, on a sound state. The shape stands beside the state that is written, as in crate `seat`.
#![tactic(auto)]

ghost use Rattle.std.specs.Prelude.{◌≡◌, true};
ghost use Rattle.paper.specs.Keys.{Bytes};
ghost use Rattle.paper.specs.Calls.{begun, Call};
ghost use Rattle.layout.specs.Layout.{store_in, write_store, sound_state};
ghost use Rattle.reply.specs.Told.{Told, refusal_of, told_begun, told_settled};
ghost use Rattle.reply.specs.OnBytes.{told_on};
ghost use Rattle.sessions.specs.Sessions.{row_refusal, MayBegin, MayEnd, HasEnded};

use reply::{Begun, Refusal, Room};
use seat::Seat;
use settings::Shape;
use table::RowRefusal;
use txn::Rooms;

// ---- begin

// 'A new transaction gets the next handle .., reads at the clock and is one reader of that timestamp': the counter, its place, and the reader table.
fn enter(state: &mut [u8], shape: Shape, start: usize, new: Begun)
    requires { MayBegin state.old shape start new.handle new.read }
    ensures { state.new ≡ write_store (begun (store_in state.old)) state.old }
{
    let rooms = Rooms::from(shape);
    let stop = start + shape.stride;
    let end = shape.history;
    raw::put_number::<8>(state, 80, new.handle);
    rooms.new_place(&mut state[start..stop], new.handle, new.read);
    table::add(&mut state[88..end], new.read);
}

// Why no reader is added, as a begin's refusal. It is no `From`, since neither type is this crate's.
fn row_refused(why: RowRefusal) -> Refusal
    ensures { refusal_of result ≡ row_refusal why }
{
    match why {
        RowRefusal::Full => Refusal::NoRoom {
            room: Room::ReaderTable,
        },
        RowRefusal::Most => Refusal::CounterFull,
    }
}

// Begins a transaction in the first free place: 5, then 7.
pub fn begin(state: &mut [u8]) -> Result<Begun, Refusal>
    requires { sound_state state.old ≡ true }
    ensures { ◌≡◌ {A = Told × Bytes} (told_begun result, state.new) (told_on Call.begin state.old) }
{
    let shape = seat::shape_in(state);
    let index = table::find_place(shape.places_in(state), shape.stride, 0).ok_or(Refusal::NoRoom {
        room: Room::Places,
    })?;
    let start = shape.place_at(index);
    let clock = raw::number::<8>(state, 72);
    let counter = raw::number::<8>(state, 80);
    // By `map_err(row_refused)?` the exit is known by names alone that a proof cannot cite.
    if let Err(why) = table::check(shape.rows_in(state), clock) {
        return Err(row_refused(why));
    }
    let handle = counter.checked_add(1).ok_or(Refusal::CounterFull)?;
    let new = Begun {
        handle,
        read: clock,
    };
    enter(state, shape, start, new);
    Ok(new)
}

// ---- end

// A transaction leaves: its reader, and its place, which is free then.
fn leave(state: &mut [u8], shape: Shape, seat: Seat)
    requires { MayEnd state.old shape seat.place seat.read }
    ensures { HasEnded state.old seat.place seat.read state.new }
{
    let end = shape.history;
    raw::put_number::<8>(state, seat.place, 0);
    table::remove(&mut state[88..end], seat.read);
}

// Ends a transaction, open or closed; 'writes not committed are dropped'.
pub fn end(state: &mut [u8], handle: u64) -> Result<(), Refusal>
    requires { sound_state state.old ≡ true }
    ensures { ◌≡◌ {A = Told × Bytes} (told_settled result, state.new) (told_on (Call.end handle) state.old) }
{
    let shape = seat::shape_in(state);
    let seat = seat::seat_of(state, shape, handle).ok_or(Refusal::NoHandle)?;
    leave(state, shape, seat);
    Ok(())
}
