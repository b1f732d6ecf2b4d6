// The calls of crate store for hosts in Rust and C, on numbers and byte slices. Each returns document 01's number; the reply's values go into the lent
// reply buffer, as many as it has room for. ngalovuki.h says the same in C.
#![tactic(auto)]

ghost use Rattle.std.specs.Prelude.{◌≡◌, List, ℕ, length};
ghost use Rattle.paper.specs.Keys.{Bytes};
ghost use Rattle.paper.specs.Calls.{Call};
ghost use Rattle.layout.specs.Codec.{flag_number};
ghost use Rattle.layout.specs.Layout.{sound_state};
ghost use Rattle.settings.specs.Opening.{settings_of};
ghost use Rattle.reply.specs.Told.{Told, refusal_of, done_told, begun_told, got_told, scanned_told, committed_told, told_by, number_of};
ghost use Rattle.reply.specs.OnBytes.{value_on, key_on};
ghost use Rattle.lsm.specs.Edges.{bound_by};
ghost use Rattle.store.specs.Asked.{get_of, scan_of};
ghost use Rattle.host.specs.Numbers.{cause_values, values_of, noted, numbers_on, number_on, settings_by, length_by, opened_by};

use lsm::bounds::bound_by;
use reply::{Begun, PairLengths, Refusal};
use settings::Settings;

// ---- replies by numbers

// Writes values at the front of the reply buffer, as many as it has room for.
#[tactic(auto, unfolding(crate::specs::Numbers::noted))]
fn note(values: &[u64], reply: &mut [u64])
    ensures { reply.new ≡ noted values.now reply.old }
{
    let n = values.len().min(reply.len());
    reply[..n].copy_from_slice(&values[..n]);
}

// What a call answers, by the values that the reply buffer gets.
trait Answer {
    ghost told: { Self → Told };

    fn note(self, reply: &mut [u64])
        ensures { reply.new ≡ noted (values_of (told self)) reply.old };
}

// An opening that is done has no values.
impl Answer for () {
    ghost told = { done_told };

    #[tactic(auto, unfolding(crate::specs::Numbers::values_of))]
    fn note(self, reply: &mut [u64]) {
        note(&[], reply);
    }
}

// A begin: the handle, and the read number.
impl Answer for Begun {
    ghost told = { begun_told };

    #[tactic(auto, unfolding(crate::specs::Numbers::values_of))]
    fn note(self, reply: &mut [u64]) {
        note(&[self.handle, self.read], reply);
    }
}

// A get: 1 and the value's length, or 0 where the key is absent.
impl Answer for Option<usize> {
    ghost told = { got_told };

    #[tactic(auto, unfolding(crate::specs::Numbers::values_of))]
    fn note(self, reply: &mut [u64]) {
        match self {
            Some(length) => note(&[1, length as u64], reply),
            None => note(&[0], reply),
        }
    }
}

// A scan: 1 and the lengths of key and value, or 0 at the end.
impl Answer for Option<PairLengths> {
    ghost told = { scanned_told };

    #[tactic(auto, unfolding(crate::specs::Numbers::values_of))]
    fn note(self, reply: &mut [u64]) {
        match self {
            Some(pair) => note(&[1, pair.key as u64, pair.value as u64], reply),
            None => note(&[0], reply),
        }
    }
}

// A commit: 1 and its number, or 0 where it had no writes.
impl Answer for Option<u64> {
    ghost told = { committed_told };

    #[tactic(auto, unfolding(crate::specs::Numbers::values_of))]
    fn note(self, reply: &mut [u64]) {
        match self {
            Some(number) => note(&[1, number], reply),
            None => note(&[0], reply),
        }
    }
}

// A refusal: only that of an opening run has a value, the run's place.
#[tactic(auto, unfolding(crate::specs::Numbers::cause_values))]
fn note_why(why: Refusal, reply: &mut [u64])
    ensures { reply.new ≡ noted (cause_values (refusal_of why)) reply.old }
{
    match why {
        Refusal::BadRun { place } | Refusal::ForeignRun { place } => note(&[place as u64], reply),
        _ => note(&[], reply),
    }
}

// A reply: the values of its answer or of its refusal go into the buffer, and its number is returned.
#[tactic(auto, unfolding(crate::specs::Numbers::values_of))]
fn tell<T: Answer>(told: Result<T, Refusal>, reply: &mut [u64]) -> u64
    ensures { (result ≡ number_of told) × (reply.new ≡ noted (values_of (told_by T.told told)) reply.old) }
{
    match told {
        Ok(answer) => {
            answer.note(reply);
            0
        }
        Err(why) => {
            note_why(why, reply);
            why.number()
        }
    }
}

// ---- what a host hands over

// The settings, whose mode is 1 where the store is serializable. The C interface hands them over as nine numbers.
fn settings_by(
    mode: u64,
    transactions: u64,
    overlay: u64,
    reads: u64,
    writes: u64,
    entries: u64,
    hashes: u64,
    active: u64,
    area: u64,
) -> Settings
    ensures { settings_of result ≡ settings_by mode transactions overlay reads writes entries hashes active area }
{
    Settings {
        serializable: mode == 1,
        transactions,
        overlay,
        reads,
        writes,
        entries,
        hashes,
        active,
        area,
    }
}

// ---- the calls

// How many bytes the state of a store with these settings has; 0 where a setting is outside its range.
#[unsafe(no_mangle)]
pub extern "C" fn ngalovuki_state_length(
    serializable: u64,
    transactions: u64,
    overlay: u64,
    reads: u64,
    writes: u64,
    entries: u64,
    hashes: u64,
    active: u64,
    area: u64,
) -> u64
    ensures { result ≡ length_by serializable (settings_by serializable transactions overlay reads writes entries hashes active area) }
{
    if 1 < serializable {
        return 0;
    }
    let st = settings_by(
        serializable,
        transactions,
        overlay,
        reads,
        writes,
        entries,
        hashes,
        active,
        area,
    );
    if !st.in_ranges() {
        return 0;
    }
    st.state_length()
}

// Opens a store over anything: 12, then the runs from the first, 10 or 11 with the place from 1, then 5.
#[unsafe(no_mangle)]
pub extern "C" fn ngalovuki_open(
    state: &mut [u8],
    serializable: u64,
    transactions: u64,
    overlay: u64,
    reads: u64,
    writes: u64,
    entries: u64,
    hashes: u64,
    active: u64,
    area: u64,
    images: &[u8],
    lengths: &[u64],
    reply: &mut [u64],
) -> u64
    ensures { ◌≡◌ {A = ℕ × (Bytes × List ℕ)} (result, (state.new, reply.new)) (opened_by serializable (settings_by serializable transactions overlay reads writes entries hashes active area) images.now lengths.now state.old reply.old) }
{
    if 1 < serializable {
        return tell::<()>(Err(Refusal::BadSetting), reply);
    }
    let st = settings_by(
        serializable,
        transactions,
        overlay,
        reads,
        writes,
        entries,
        hashes,
        active,
        area,
    );
    tell(store::open(state, st, images, lengths), reply)
}

// 1 where the state keeps every state rule, whatever the lent memory holds, else 0.
#[unsafe(no_mangle)]
pub extern "C" fn ngalovuki_sound(state: &[u8]) -> u64
    ensures { result ≡ flag_number (sound_state state.now) }
{
    u64::from(state::sound_state(state))
}

// Begins a transaction: 9, 5, 7.
#[unsafe(no_mangle)]
pub extern "C" fn ngalovuki_begin(state: &mut [u8], reply: &mut [u64]) -> u64
    ensures { ◌≡◌ {A = ℕ × (Bytes × List ℕ)} (result, (state.new, reply.new)) (numbers_on Call.begin state.old reply.old) }
{
    tell(store::begin(state), reply)
}

// The value of a key for a transaction, copied to the front of `out`: 9, 3, 4, 1, 2, 5.
#[unsafe(no_mangle)]
pub extern "C" fn ngalovuki_get(
    state: &mut [u8],
    handle: u64,
    key: &[u8],
    out: &mut [u8],
    reply: &mut [u64],
) -> u64
    ensures { (◌≡◌ {A = ℕ × (Bytes × List ℕ)} (result, (state.new, reply.new)) (numbers_on (get_of handle key.now out.old) state.old reply.old))
        × (out.new ≡ value_on (get_of handle key.now out.old) state.old out.old) }
{
    tell(store::get(state, handle, key, out), reply)
}

// The first present key within the bounds and its value, copied to the front of the out buffers, or the end: 9, 3, 4, 5. The next answer comes from the
// same upper bound and the last key as an excluded lower bound.
#[unsafe(no_mangle)]
pub extern "C" fn ngalovuki_scan(
    state: &mut [u8],
    handle: u64,
    low: u64,
    lo: &[u8],
    high: u64,
    hi: &[u8],
    key_out: &mut [u8],
    value_out: &mut [u8],
    reply: &mut [u64],
) -> u64
    ensures { (◌≡◌ {A = ℕ × (Bytes × List ℕ)} (result, (state.new, reply.new)) (numbers_on (scan_of handle (bound_by low lo.now) (bound_by high hi.now) key_out.old value_out.old) state.old reply.old))
        × (key_out.new ≡ key_on (scan_of handle (bound_by low lo.now) (bound_by high hi.now) key_out.old value_out.old) state.old key_out.old)
        × (value_out.new ≡ value_on (scan_of handle (bound_by low lo.now) (bound_by high hi.now) key_out.old value_out.old) state.old value_out.old) }
{
    let from = bound_by(low, lo);
    let upto = bound_by(high, hi);
    tell(
        store::scan(state, handle, from, upto, key_out, value_out),
        reply,
    )
}

// Writes a value at a key: 9, 3, 4, 1, 2, 5.
#[unsafe(no_mangle)]
pub extern "C" fn ngalovuki_put(state: &mut [u8], handle: u64, key: &[u8], value: &[u8]) -> u64
    ensures { ◌≡◌ {A = ℕ × Bytes} (result, state.new) (number_on (Call.put handle key.now value.now) state.old) }
{
    reply::number(store::put(state, handle, key, value))
}

// Deletes a key: 9, 3, 4, 1, 2, 5.
#[unsafe(no_mangle)]
pub extern "C" fn ngalovuki_delete(state: &mut [u8], handle: u64, key: &[u8]) -> u64
    ensures { ◌≡◌ {A = ℕ × Bytes} (result, state.new) (number_on (Call.delete handle key.now) state.old) }
{
    reply::number(store::delete(state, handle, key))
}

// Commits a transaction: 9, 3, 4, 6, 7, 5. A conflict closes it; after 5 or 7 it stays open.
#[unsafe(no_mangle)]
pub extern "C" fn ngalovuki_commit(state: &mut [u8], handle: u64, reply: &mut [u64]) -> u64
    ensures { ◌≡◌ {A = ℕ × (Bytes × List ℕ)} (result, (state.new, reply.new)) (numbers_on (Call.commit handle) state.old reply.old) }
{
    tell(store::commit(state, handle), reply)
}

// Ends a transaction, open or closed: 9, 3.
#[unsafe(no_mangle)]
pub extern "C" fn ngalovuki_end(state: &mut [u8], handle: u64) -> u64
    ensures { ◌≡◌ {A = ℕ × Bytes} (result, state.new) (number_on (Call.end handle) state.old) }
{
    reply::number(store::end(state, handle))
}

// Freezes the active run: 9, 5.
#[unsafe(no_mangle)]
pub extern "C" fn ngalovuki_freeze(state: &mut [u8]) -> u64
    ensures { ◌≡◌ {A = ℕ × Bytes} (result, state.new) (number_on Call.freeze state.old) }
{
    reply::number(store::freeze(state))
}
