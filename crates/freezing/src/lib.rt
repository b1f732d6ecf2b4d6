// The active run frozen, on a sound state.
#![tactic(auto)]

ghost use Rattle.std.specs.Prelude.{◌≡◌, true};
ghost use Rattle.paper.specs.Keys.{Bytes};
ghost use Rattle.paper.specs.Calls.{Call};
ghost use Rattle.layout.specs.Layout.{sound_state};
ghost use Rattle.reply.specs.Told.{Told, told_settled};
ghost use Rattle.reply.specs.OnBytes.{told_on};

use reply::{Refusal, Room};

// 'Freezing makes the active run such an image, first among the frozen, and empties it; freezing an empty one changes nothing.'
pub fn freeze(state: &mut [u8]) -> Result<(), Refusal>
    requires { sound_state state.old ≡ true }
    ensures { ◌≡◌ {A = Told × Bytes} (told_settled result, state.new) (told_on Call.freeze state.old) }
{
    let shape = seat::shape_in(state);
    let active = shape.active;
    let area = shape.area;
    if area::freezing::is_empty(state, active, area) {
        return Ok(());
    }
    // Beside the images there are 8 bytes for their number of bytes, and 8 for the length of each of 16.
    let room = shape.places - area - 136;
    if !area::freezing::freeze_fits(state, active, area, room) {
        return Err(Refusal::NoRoom {
            room: Room::RunArea,
        });
    }
    area::freezing::freeze(state, active, area);
    Ok(())
}
