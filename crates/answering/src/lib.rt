// The calls that read, on a sound state: get and scan. An answer is written to the out buffers, and its key's hash into the read set.
#![tactic(auto)]

ghost use Rattle.std.specs.Prelude.{◌≡◌, true, ◌≤◌, ◌<◌, length};
ghost use Rattle.std.proofs.Math.Option.{some};
ghost use Rattle.paper.specs.Keys.{Bytes};
ghost use Rattle.paper.specs.Hash.{hash_of};
ghost use Rattle.paper.specs.Calls.{overwritten, get, scan};
ghost use Rattle.layout.specs.Layout.{store_in, sound_state};
ghost use Rattle.settings.specs.Shapes.{shape_of};
ghost use Rattle.lsm.specs.Edges.{bound_of};
ghost use Rattle.lsm.specs.Pairs.{pair_at, InBytes};
ghost use Rattle.lsm.specs.Answers.{value_in, InAnswer};
ghost use Rattle.reply.specs.Told.{Told, told_got, told_scanned};
ghost use Rattle.reply.specs.OnBytes.{told_on, value_on, key_on};
ghost use Rattle.answering.specs.Places.{TakenAt, read_fits, noted};
ghost use Rattle.answering.specs.Views.{Shows};
ghost use Rattle.answering.specs.Rests.{rest_of_get, rest_of_scan, GetEnded, ScanEnded};

use lsm::answer::Span;
use lsm::view::View;
use reply::{PairLengths, Refusal, Room};
use settings::Shape;
use std::ops::Bound;
use txn::Rooms;

// The transaction that a get or a scan reads for: the state's shape, where the transaction's place begins, and the number at which it reads.
// The state stays beside it: what is known, `TakenAt`, speaks of the lent bytes, and a ghost field beside a `&mut` gets no proof.
#[derive(Clone, Copy)]
struct Reader {
    shape: Shape,
    place: usize,
    read: u64,
}

impl Reader {
    // ---- what a transaction reads

    // The state's runs, and the transaction's own writes: they begin 32 bytes into its place, behind the number of their bytes.
    fn view(self, state: &[u8]) -> View
        requires { (sound_state state.now ≡ true) × (self.shape ≡ shape_of (store_in state.now).settings) × TakenAt self.shape state.now self.place }
        ensures { Shows self.shape state.now self.place self.read result }
    {
        let runs = area::cursors::cursors_of(state, self.shape.active, self.shape.area);
        let cursors = runs.cursors;
        let own = self.place + 32;
        let stop = own + raw::number::<8>(state, self.place + 24) as usize;
        View {
            cursors,
            runs: runs.count,
            own,
            stop,
            read: self.read,
        }
    }

    // ---- the read set

    // Whether the read set has room for a hash.
    fn read_fits(self, state: &[u8], hash: u64) -> bool
        requires { TakenAt self.shape state.now self.place }
        ensures { result ≡ read_fits self.shape state.now self.place hash }
    {
        let end = self.place + self.shape.stride;
        Rooms::from(self.shape).read_fits(&state[self.place..end], hash)
    }

    // Adds a hash to the read set, which has room for it.
    fn note_read(self, state: &mut [u8], hash: u64)
        requires { TakenAt self.shape state.old self.place × (hash < 4294967296) × (read_fits self.shape state.old self.place hash ≡ true) }
        ensures { state.new ≡ noted self.shape state.old self.place hash }
    {
        let end = self.place + self.shape.stride;
        Rooms::from(self.shape).add_read(&mut state[self.place..end], hash);
    }

    // ---- answers handed out

    // The rest of a get that found a value, where the read set has room: the value goes to the out buffer, and the hash into the read set.
    fn hand_value(
        self,
        state: &mut [u8],
        hash: u64,
        p: Span,
        out: &mut [u8],
    ) -> Result<Option<usize>, Refusal>
        requires { TakenAt self.shape state.old self.place × (hash < 4294967296) × (read_fits self.shape state.old self.place hash ≡ true) × InBytes state.old p }
        ensures { GetEnded (rest_of_get self.shape state.old self.place hash (length out.old) (some (pair_at state.old p).value))
            state.old (noted self.shape state.old self.place hash) out.old
            (told_got result) state.new out.new }
    {
        let value = &state[p.vs..p.ve];
        let length = value.len();
        if out.len() < length {
            return Err(Refusal::NoRoom {
                room: Room::OutBuffer,
            });
        }
        copy_out(out, value);
        self.note_read(state, hash);
        Ok(Some(length))
    }

    // The rest of a get whose answer is known: 'a get that answers, present or absent, adds its key's hash to the read set'.
    fn answer_get(
        self,
        state: &mut [u8],
        hash: u64,
        answer: Option<Span>,
        out: &mut [u8],
    ) -> Result<Option<usize>, Refusal>
        requires { TakenAt self.shape state.old self.place × (hash < 4294967296) × InAnswer state.old answer }
        ensures { GetEnded (rest_of_get self.shape state.old self.place hash (length out.old) (value_in state.old answer))
            state.old (noted self.shape state.old self.place hash) out.old
            (told_got result) state.new out.new }
    {
        if !self.read_fits(state, hash) {
            return Err(Refusal::NoRoom {
                room: Room::ReadSet,
            });
        }
        match answer {
            None => {
                self.note_read(state, hash);
                Ok(None)
            }
            Some(p) => self.hand_value(state, hash, p, out),
        }
    }

    // The rest of a scan that found a pair: 'a scan answer adds the key handed out'.
    fn hand_out(
        self,
        state: &mut [u8],
        p: Span,
        keys: &mut [u8],
        values: &mut [u8],
    ) -> Result<Option<PairLengths>, Refusal>
        requires { TakenAt self.shape state.old self.place × InBytes state.old p }
        ensures { ScanEnded (rest_of_scan self.shape state.old self.place (length keys.old) (length values.old) (pair_at state.old p))
            state.old (noted self.shape state.old self.place (hash_of (pair_at state.old p).key)) keys.old values.old
            (told_scanned result) state.new keys.new values.new }
    {
        let handed = u64::from(hash::hash32(&state[p.ks..p.ke]));
        if !self.read_fits(state, handed) {
            return Err(Refusal::NoRoom {
                room: Room::ReadSet,
            });
        }
        let key = &state[p.ks..p.ke];
        let value = &state[p.vs..p.ve];
        if keys.len() < key.len() || values.len() < value.len() {
            return Err(Refusal::NoRoom {
                room: Room::OutBuffer,
            });
        }
        copy_out(keys, key);
        copy_out(values, value);
        let lengths = PairLengths {
            key: key.len(),
            value: value.len(),
        };
        self.note_read(state, handed);
        Ok(Some(lengths))
    }
}

// Writes an answer's bytes to the front of an out buffer that has room for them.
fn copy_out(out: &mut [u8], bytes: &[u8])
    requires { length bytes.now ≤ length out.old }
    ensures { out.new ≡ overwritten bytes.now out.old }
{
    out[..bytes.len()].copy_from_slice(bytes);
}

// ---- the calls

// Document 01's get, where the state is sound: 3, 4, 1, 2, then 5.
pub fn get(
    state: &mut [u8],
    handle: u64,
    key: &[u8],
    out: &mut [u8],
) -> Result<Option<usize>, Refusal>
    requires { sound_state state.old ≡ true }
    ensures { (◌≡◌ {A = Told × Bytes} (told_got result, state.new) (told_on (get handle key.now (length out.old)) state.old))
        × (out.new ≡ value_on (get handle key.now (length out.old)) state.old out.old) }
{
    let shape = seat::shape_in(state);
    let seat = seat::open_seat(state, shape, handle)?;
    seat::check_lengths(key, b"")?;
    let reader = Reader {
        shape,
        place: seat.place,
        read: seat.read,
    };
    let view = reader.view(state);
    let answer = view.get(state, key);
    let hash = u64::from(hash::hash32(key));
    reader.answer_get(state, hash, answer, out)
}

// Document 01's scan, where the state is sound: 3, 4, then 5; 'the end' adds nothing and needs no room.
pub fn scan(
    state: &mut [u8],
    handle: u64,
    low: Bound<&[u8]>,
    high: Bound<&[u8]>,
    key_out: &mut [u8],
    value_out: &mut [u8],
) -> Result<Option<PairLengths>, Refusal>
    requires { sound_state state.old ≡ true }
    ensures { (◌≡◌ {A = Told × Bytes} (told_scanned result, state.new) (told_on (scan handle (bound_of low.entry) (bound_of high.entry) (length key_out.old) (length value_out.old)) state.old))
        × (key_out.new ≡ key_on (scan handle (bound_of low.entry) (bound_of high.entry) (length key_out.old) (length value_out.old)) state.old key_out.old)
        × (value_out.new ≡ value_on (scan handle (bound_of low.entry) (bound_of high.entry) (length key_out.old) (length value_out.old)) state.old value_out.old) }
{
    let shape = seat::shape_in(state);
    let seat = seat::open_seat(state, shape, handle)?;
    let reader = Reader {
        shape,
        place: seat.place,
        read: seat.read,
    };
    let view = reader.view(state);
    match view.scan(state, low, high) {
        None => Ok(None),
        Some(p) => reader.hand_out(state, p, key_out, value_out),
    }
}
