// The calls put and delete on a sound state: a value, or none, written at a key among its transaction's own writes.
#![tactic(auto)]

ghost use Rattle.std.specs.Prelude.{◌≡◌, true, ◌≤◌, length};
ghost use Rattle.paper.specs.Keys.{Bytes};
ghost use Rattle.paper.specs.Refusals.{Try};
ghost use Rattle.paper.specs.Calls.{Call};
ghost use Rattle.layout.specs.Layout.{sound_state};
ghost use Rattle.txn.specs.Place.{stride_of, txn_in, orderly};
ghost use Rattle.reply.specs.Told.{Told, told_settled, try_of};
ghost use Rattle.reply.specs.OnBytes.{told_on};
ghost use Rattle.writing.specs.Writes.{written, room_for, write_on};

use reply::{Refusal, Room};
use txn::Rooms;

// ---- the check for room. The place stands beside the rooms, since it is the slice that is written.

// Whether a place has room for a write. 'Overlay after the write above its limit' is told before 'hash new and set full'.
fn room(place: &[u8], rooms: Rooms, key: &[u8], value: &[u8], hash: u64) -> Result<(), Refusal>
    requires { (length place.now ≡ stride_of rooms) × (orderly rooms place.now ≡ true) × (length key.now ≤ 65535) × (length value.now ≤ 65535) }
    ensures { try_of result ≡ room_for rooms (written rooms.serializable key.now value.now hash (txn_in rooms place.now)) }
{
    if !rooms.overlay_fits(place, key, value) {
        return Err(Refusal::NoRoom {
            room: Room::Overlay,
        });
    }
    if !rooms.write_fits(place, hash) {
        return Err(Refusal::NoRoom {
            room: Room::WriteSet,
        });
    }
    Ok(())
}

// ---- the write

// Writes value at key in a transaction's place, if there is room. The write set takes the key's hash.
fn write(place: &mut [u8], rooms: Rooms, key: &[u8], value: &[u8]) -> Result<(), Refusal>
    requires { (length place.old ≡ stride_of rooms) × (orderly rooms place.old ≡ true) × (length key.now ≤ 65535) × (length value.now ≤ 65535) }
    ensures { ◌≡◌ {A = Try (Unit {0}) × Bytes} (try_of result, place.new) (write_on rooms place.old key.now value.now) }
{
    let hash = u64::from(hash::hash32(key));
    room(place, rooms, key, value, hash)?;
    rooms.put(place, key, value, hash);
    Ok(())
}

// ---- the calls

// Checks in the paper's order: 3, 4, 1, 2, then 5. A refusal writes nothing.
pub fn put(state: &mut [u8], handle: u64, key: &[u8], value: &[u8]) -> Result<(), Refusal>
    requires { sound_state state.old ≡ true }
    ensures { ◌≡◌ {A = Told × Bytes} (told_settled result, state.new) (told_on (Call.put handle key.now value.now) state.old) }
{
    let shape = seat::shape_in(state);
    let seat = seat::open_seat(state, shape, handle)?;
    seat::check_lengths(key, value)?;
    let end = seat.place + shape.stride;
    write(&mut state[seat.place..end], Rooms::from(shape), key, value)
}

// 'An empty value is a deletion.'
pub fn delete(state: &mut [u8], handle: u64, key: &[u8]) -> Result<(), Refusal>
    requires { sound_state state.old ≡ true }
    ensures { ◌≡◌ {A = Told × Bytes} (told_settled result, state.new) (told_on (Call.delete handle key.now) state.old) }
{
    put(state, handle, key, b"")
}
