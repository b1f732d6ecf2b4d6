// Freezing: the active run becomes an image, 'first among the frozen', and is emptied. `active` and `area` are places in the state that is written, and
// `Sited` speaks of its bytes, so that no struct beside the state could hold it.
ghost use Rattle.std.specs.Prelude.{◌≡◌, true};
ghost use Rattle.paper.specs.Lists.{is_empty};
ghost use Rattle.paper.specs.Store.{runs_of};
ghost use Rattle.paper.specs.Room.{runs_fit};
ghost use Rattle.paper.specs.Calls.{frozen_store};
ghost use Rattle.layout.specs.Layout.{store_in, write_store};
ghost use Rattle.area.specs.Spread.{Sited};

// Whether the active run has no version: 'freezing an empty one changes nothing'.
pub fn is_empty(state: &[u8], active: usize, area: usize) -> bool
    requires { Sited state.now active area }
    ensures { result ≡ is_empty (store_in state.now).active }
{
    raw::number::<8>(state, active) == 0
}

// Whether a run area of `room` bytes has room for the active run's image beside the others: 'whole images', and no 17th run.
pub fn freeze_fits(state: &[u8], active: usize, area: usize, room: usize) -> bool
    requires { Sited state.now active area × (room ≡ (store_in state.now).settings.area_bytes) }
    ensures { result ≡ runs_fit (store_in state.now).settings (runs_of (store_in state.now)) }
{
    let used = raw::number::<8>(state, active) as usize;
    let from = area + 8;
    let end = from + raw::number::<8>(state, area) as usize;
    let count = super::cursors::count_images(&state[from..end]);
    count < 16 && 9 + used + (end - from - 8 * count) <= room
}

// Freezes the active run: its image goes behind the others, which stay where they are, and its length in front of it; then both counts of used bytes.
pub fn freeze(state: &mut [u8], active: usize, area: usize)
    requires { Sited state.old active area × (runs_fit (store_in state.old).settings (runs_of (store_in state.old)) ≡ true) }
    ensures { state.new ≡ write_store (frozen_store (store_in state.old)) state.old }
{
    let from = active + 8;
    let used = raw::number::<8>(state, active) as usize;
    let filled = raw::number::<8>(state, area) as usize;
    let to = area + 8 + filled;
    run::write::freeze_into(state, to + 8, from, from + used);
    raw::put_number::<8>(state, to, (9 + used) as u64);
    raw::put_number::<8>(state, area, (filled + 17 + used) as u64);
    raw::put_number::<8>(state, active, 0);
}
