// The host's call `open`: a store is opened over whatever the lent memory holds, or refused without a byte changed.
#![tactic(auto)]

ghost use Rattle.std.specs.Prelude.{◌≡◌, true, ◌≤◌, length};
ghost use Rattle.paper.specs.Keys.{Bytes};
ghost use Rattle.paper.specs.Settings.{in_ranges, state_length};
ghost use Rattle.paper.specs.Calls.{opened, opening};
ghost use Rattle.layout.specs.Offsets.{freed};
ghost use Rattle.layout.specs.Layout.{write_store};
ghost use Rattle.settings.specs.Opening.{settings_of};
ghost use Rattle.area.specs.Opening.{refused_for, runs_in};
ghost use Rattle.reply.specs.Told.{Told, refusal_of, told_settled};
ghost use Rattle.reply.specs.OnBytes.{told_on};
ghost use Rattle.opening.specs.Opening.{emptied, Passed};

use area::opening::BadRun;
use reply::{Refusal, Room};
use run::BadImage;
use settings::Settings;

// ---- the parts of an opened store. The settings stand beside the state that is written.

// Writes the clock at 72, the handle counter 0 at 80, and no reader row (from 88), commit or active version: the number of a list's bytes stands in
// front of it.
fn empty_parts(state: &mut [u8], st: Settings, clock: u64)
    requires { (in_ranges (settings_of st) ≡ true) × (state_length (settings_of st) ≤ length state.old) }
    ensures { state.new ≡ emptied (settings_of st) clock state.old }
{
    let shape = st.shape();
    raw::put_number::<8>(state, 72, clock);
    raw::put_number::<8>(state, 80, 0);
    raw::put_number::<8>(state, 88, 0);
    raw::put_number::<8>(state, shape.history, 0);
    raw::put_number::<8>(state, shape.active, 0);
}

// Frees every place: 0 in place of its handle. What else stands in it stays.
fn free_places(state: &mut [u8], st: Settings)
    requires { (in_ranges (settings_of st) ≡ true) × (state_length (settings_of st) ≤ length state.old) }
    ensures { state.new ≡ freed (settings_of st) (settings_of st).transactions state.old }
{
    let shape = st.shape();
    for i in 0..shape.count {
        raw::put_number::<8>(state, shape.place_at(i), 0);
    }
}

// Writes the opened store, once nothing refuses it; bytes that it does not use keep what they had.
fn write_opened(state: &mut [u8], st: Settings, clock: u64, images: &[u8], lengths: &[u64])
    requires { Passed (settings_of st) images.now lengths.now (length state.old) clock }
    ensures { state.new ≡ write_store (opened (settings_of st) (runs_in images.now lengths.now)) state.old }
{
    let shape = st.shape();
    st.write(state);
    empty_parts(state, st, clock);
    area::opening::put_images(state, shape.area, images, lengths);
    free_places(state, st);
}

// ---- the call

// Why an opening is refused for a run that is not good: 10 or 11, with its place. It is no `From`, since neither type is this crate's.
fn refused_for(bad: BadRun) -> Refusal
    ensures { refusal_of result ≡ refused_for bad.place bad.why }
{
    match bad.why {
        BadImage::Broken => Refusal::BadRun { place: bad.place },
        BadImage::Foreign => Refusal::ForeignRun { place: bad.place },
    }
}

// Opens a store in `state`, over anything: 12, then the runs from the first, 10 or 11, then 5, first for the run area. The images lie one after the other
// in `images`, and `lengths` says how long each is.
pub fn open(state: &mut [u8], st: Settings, images: &[u8], lengths: &[u64]) -> Result<(), Refusal>
    ensures { ◌≡◌ {A = Told × Bytes} (told_settled result, state.new) (told_on (opening (settings_of st) images.now lengths.now (length state.old)) state.old) }
{
    if !st.in_ranges() {
        return Err(Refusal::BadSetting);
    }
    let clock = area::opening::open_check(images, lengths).map_err(refused_for)?;
    if !area::opening::images_fit(images, lengths, st.area) {
        return Err(Refusal::NoRoom {
            room: Room::RunArea,
        });
    }
    if (state.len() as u64) < st.state_length() {
        return Err(Refusal::NoRoom {
            room: Room::StateBuffer,
        });
    }
    write_opened(state, st, clock, images, lengths);
    Ok(())
}
