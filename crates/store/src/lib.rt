// The calls of the host over one lent buffer. Each but `open` first judges the whole state, 9, whatever the lent memory holds; then the call itself, which
// may rely on a sound state: a clause of it, since the state is written, and a struct that holds it as sound could not be lent for that. A contract says, on every input, what the reply tells and every byte of the lent buffers at exit.
#![tactic(auto)]

ghost use Rattle.std.specs.Prelude.{◌≡◌, true, false, length, MatchResult};
ghost use Rattle.paper.specs.Keys.{Bytes};
ghost use Rattle.paper.specs.Calls.{Call};
ghost use Rattle.layout.specs.Layout.{sound_state};
ghost use Rattle.lsm.specs.Edges.{bound_of};
ghost use Rattle.settings.specs.Opening.{settings_of};
ghost use Rattle.reply.specs.Told.{Told, told_settled, told_begun, told_got, told_scanned, told_committed};
ghost use Rattle.reply.specs.OnBytes.{told_on, value_on, key_on};
ghost use Rattle.store.specs.Asked.{get_of, scan_of};

use reply::{Begun, PairLengths, Refusal};
use settings::Settings;
use std::ops::Bound;

// 9 where the lent memory breaks a state rule.
fn sound(state: &[u8]) -> Result<(), Refusal>
    ensures { MatchResult result (λ _. sound_state state.now ≡ true) (λ why. (why ≡ Refusal.Unsound) × (sound_state state.now ≡ false)) }
{
    if state::sound_state(state) {
        Ok(())
    } else {
        Err(Refusal::Unsound)
    }
}

// Opens a store over anything: 12, then the runs from the first, 10 or 11 with the place from 1, then 5. The images lie one after the other in `images`,
// and `lengths` says how long each is.
pub fn open(
    state: &mut [u8],
    settings: Settings,
    images: &[u8],
    lengths: &[u64],
) -> Result<(), Refusal>
    ensures { ◌≡◌ {A = Told × Bytes} (told_settled result, state.new) (told_on (Call.opening (settings_of settings) images.now lengths.now (length state.old)) state.old) }
{
    opening::open(state, settings, images, lengths)
}

// Begins a transaction: 9, 5, 7.
pub fn begin(state: &mut [u8]) -> Result<Begun, Refusal>
    ensures { ◌≡◌ {A = Told × Bytes} (told_begun result, state.new) (told_on Call.begin state.old) }
{
    sound(state)?;
    sessions::begin(state)
}

// The value of a key for a transaction, copied to the front of `out`: 9, 3, 4, 1, 2, 5.
pub fn get(
    state: &mut [u8],
    handle: u64,
    key: &[u8],
    out: &mut [u8],
) -> Result<Option<usize>, Refusal>
    ensures { (◌≡◌ {A = Told × Bytes} (told_got result, state.new) (told_on (get_of handle key.now out.old) state.old))
        × (out.new ≡ value_on (get_of handle key.now out.old) state.old out.old) }
{
    sound(state)?;
    answering::get(state, handle, key, out)
}

// The first present key within the bounds and its value, copied to the front of the out buffers, or the end: 9, 3, 4, 5. The next answer comes from the
// same upper bound and the last key as an excluded lower bound.
pub fn scan(
    state: &mut [u8],
    handle: u64,
    low: Bound<&[u8]>,
    high: Bound<&[u8]>,
    key_out: &mut [u8],
    value_out: &mut [u8],
) -> Result<Option<PairLengths>, Refusal>
    ensures { (◌≡◌ {A = Told × Bytes} (told_scanned result, state.new) (told_on (scan_of handle (bound_of low.entry) (bound_of high.entry) key_out.old value_out.old) state.old))
        × (key_out.new ≡ key_on (scan_of handle (bound_of low.entry) (bound_of high.entry) key_out.old value_out.old) state.old key_out.old)
        × (value_out.new ≡ value_on (scan_of handle (bound_of low.entry) (bound_of high.entry) key_out.old value_out.old) state.old value_out.old) }
{
    sound(state)?;
    answering::scan(state, handle, low, high, key_out, value_out)
}

// Writes a value at a key: 9, 3, 4, 1, 2, 5.
pub fn put(state: &mut [u8], handle: u64, key: &[u8], value: &[u8]) -> Result<(), Refusal>
    ensures { ◌≡◌ {A = Told × Bytes} (told_settled result, state.new) (told_on (Call.put handle key.now value.now) state.old) }
{
    sound(state)?;
    writing::put(state, handle, key, value)
}

// Deletes a key: 9, 3, 4, 1, 2, 5.
pub fn delete(state: &mut [u8], handle: u64, key: &[u8]) -> Result<(), Refusal>
    ensures { ◌≡◌ {A = Told × Bytes} (told_settled result, state.new) (told_on (Call.delete handle key.now) state.old) }
{
    sound(state)?;
    writing::delete(state, handle, key)
}

// Commits a transaction: 9, 3, 4, 6, 7, 5. A conflict closes it; after 5 or 7 it stays open.
pub fn commit(state: &mut [u8], handle: u64) -> Result<Option<u64>, Refusal>
    ensures { ◌≡◌ {A = Told × Bytes} (told_committed result, state.new) (told_on (Call.commit handle) state.old) }
{
    sound(state)?;
    committing::commit(state, handle)
}

// Ends a transaction, open or closed: 9, 3.
pub fn end(state: &mut [u8], handle: u64) -> Result<(), Refusal>
    ensures { ◌≡◌ {A = Told × Bytes} (told_settled result, state.new) (told_on (Call.end handle) state.old) }
{
    sound(state)?;
    sessions::end(state, handle)
}

// Freezes the active run: 9, 5.
pub fn freeze(state: &mut [u8]) -> Result<(), Refusal>
    ensures { ◌≡◌ {A = Told × Bytes} (told_settled result, state.new) (told_on Call.freeze state.old) }
{
    sound(state)?;
    freezing::freeze(state)
}
