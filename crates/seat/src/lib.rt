// What every call on a sound state begins with: where its parts lie, and the transaction of a handle. The shape stands beside the state, and not in one
// struct with it: a call goes on to write the state, and a struct that holds it would have to be given back first.
#![tactic(auto)]

ghost use Rattle.std.specs.Prelude.{◌≡◌, true};
ghost use Rattle.paper.specs.Calls.{good_key_value};
ghost use Rattle.layout.specs.Layout.{store_in, sound_state};
ghost use Rattle.settings.specs.Shapes.{shape_of};
ghost use Rattle.reply.specs.Told.{try_of};
ghost use Rattle.seat.specs.Seats.{SeatTold, OpenTold};

use reply::Refusal;
use settings::{Settings, Shape};

// Where the parts of a sound state lie.
pub fn shape_in(state: &[u8]) -> Shape
    requires { sound_state state.now ≡ true }
    ensures { result ≡ shape_of (store_in state.now).settings }
{
    Settings::at(state).shape()
}

// The transaction of a handle: where its place begins, the number at which it reads, and whether it is open. A closed one has a place
// and a number too.
#[derive(Clone, Copy, Debug, PartialEq, Eq)]
pub struct Seat {
    pub place: usize,
    pub read: u64,
    pub open: bool,
}

// 'Handle not of a transaction begun and not ended': handles are numbers from 1, and 0 stands in front of a free place.
pub fn seat_of(state: &[u8], shape: Shape, handle: u64) -> Option<Seat>
    requires { (sound_state state.now ≡ true) × (shape ≡ shape_of (store_in state.now).settings) }
    ensures { SeatTold (store_in state.now) handle result }
{
    if handle == 0 {
        return None;
    }
    let index = table::find_place(shape.places_in(state), shape.stride, handle)?;
    let place = shape.place_at(index);
    Some(Seat {
        place,
        read: raw::number::<8>(state, place + 8),
        open: raw::number::<8>(state, place + 16) == 1,
    })
}

// The open transaction of a handle: 3 where there is none, 4 where it is closed.
pub fn open_seat(state: &[u8], shape: Shape, handle: u64) -> Result<Seat, Refusal>
    requires { (sound_state state.now ≡ true) × (shape ≡ shape_of (store_in state.now).settings) }
    ensures { OpenTold (store_in state.now) handle result }
{
    let seat = seat_of(state, shape, handle).ok_or(Refusal::NoHandle)?;
    if !seat.open {
        return Err(Refusal::Closed);
    }
    Ok(seat)
}

// No key and no value is longer.
const LONGEST: usize = 65535;

// 'Key empty', then 'key or value longer than 65,535'. A call that takes no value gives none here.
pub fn check_lengths(key: &[u8], value: &[u8]) -> Result<(), Refusal>
    ensures { try_of result ≡ good_key_value key.now value.now }
{
    if key.is_empty() {
        return Err(Refusal::EmptyKey);
    }
    if LONGEST < key.len().max(value.len()) {
        return Err(Refusal::TooLong);
    }
    Ok(())
}
