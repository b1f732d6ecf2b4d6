// A transaction's place in the lent state: its handle, its read number, whether it is open, its own writes and its two
// sets. It takes the place of the original's `Transaction`.
#![tactic(auto)]

ghost use Rattle.std.specs.Prelude.{◌≡◌, true, false, [], length};
ghost use Rattle.std.proofs.Math.Option.{none, some};
ghost use Prim.Native.Nat.{◌+◌, ◌-◌, ◌*◌, ◌≤◌, ◌<◌, compare};
ghost use Rattle.paper.specs.Lists.{insert};
ghost use Rattle.paper.specs.Keys.{cmp_pair};
ghost use Rattle.paper.specs.Image.{big_endian};
ghost use Rattle.paper.specs.Store.{make_txn, own_size, set_add, with_reads, with_writes};
ghost use Rattle.paper.specs.Room.{overlay_fits, set_fits};
ghost use Rattle.raw.specs.Bytes.{part, over};
ghost use Rattle.layout.specs.Codec.{flag_number};
ghost use Rattle.layout.specs.Offsets.{place_mark, place_overlay};
ghost use Rattle.layout.specs.Layout.{listed, pair_stream, hashes_stream, tag_of};
ghost use Rattle.overlay.specs.Overlay.{pair, Answered};
ghost use Rattle.sets.specs.Sets.{set_hashes};
ghost use Rattle.txn.specs.Place.{settings_of, rooms_in, place_of, stride_of, reads_at, writes_at, txn_in, orderly, used_at, own_start, own_end, own_of, own_held, set_of, set_held};

use overlay::Own;
use settings::Shape;

pub mod check; // check.rt: the check of a place

// What a transaction goes by: how many bytes of own writes it may hold, how many hashes of its read set and of its write
// set, and whether it is in serializable mode; in the other mode its sets stay empty. That a place has room for these and is in
// order is asked of its caller: the place is lent anew for each call, and a ghost field beside a `&mut` gets no proof.
#[derive(Clone, Copy)]
pub struct Rooms {
    pub own: usize,
    pub reads: usize,
    pub writes: usize,
    pub serializable: bool,
}

// What each transaction of a state goes by, by the state's shape.
impl From<Shape> for Rooms {
    ghost from_gives = { λ z r. r ≡ rooms_in z };

    fn from(shape: Shape) -> Rooms {
        Rooms {
            own: shape.own,
            reads: shape.reads,
            writes: shape.writes,
            serializable: shape.serializable,
        }
    }
}

// ---- where the parts lie

const READ: usize = 8;

const MARK: usize = 16;

const OVERLAY: usize = 24;

// The own writes begin behind the number of their bytes.
const ENTRIES: usize = 32;

// The number in front of an overlay or a set, of the bytes that it takes.
fn used_at(place: &[u8], at: usize) -> usize
    requires { at + 8 ≤ length place.now }
    ensures { result ≡ used_at place.now at }
{
    raw::number::<8>(place, at) as usize
}

impl Rooms {
    // Where the read set begins.
    fn reads_at(self) -> usize
        requires { stride_of self < 18446744073709551616 }
        ensures { result ≡ reads_at self }
    {
        ENTRIES + self.own
    }

    // Where the write set begins.
    fn writes_at(self) -> usize
        requires { stride_of self < 18446744073709551616 }
        ensures { result ≡ writes_at self }
    {
        self.reads_at() + 8 + 4 * self.reads
    }
}

// ---- a place taken, closed, freed

impl Rooms {
    // A transaction that has written and read nothing takes the place. Room that it does not use keeps what it had.
    pub fn new_place(self, place: &mut [u8], handle: u64, read: u64)
        requires { length place.old ≡ stride_of self }
        ensures { place.new ≡ (place_of self).write (some (make_txn handle read true [] [] [])) place.old }
    {
        raw::put_number::<8>(place, 0, handle);
        raw::put_number::<8>(place, READ, read);
        raw::put_number::<8>(place, MARK, 1);
        raw::put_number::<8>(place, OVERLAY, 0);
        raw::put_number::<8>(place, self.reads_at(), 0);
        raw::put_number::<8>(place, self.writes_at(), 0);
    }
}

// "closed by an accepted commit or a conflict": the mark alone changes, and what was written and read stays.
pub fn close(place: &mut [u8])
    requires { place_mark + 8 ≤ length place.old }
    ensures { place.new ≡ over place.old place_mark (big_endian 8 (flag_number false)) }
{
    raw::put_number::<8>(place, MARK, 0);
}

// The place of a transaction that is ended: handle 0. "Room of ended transactions .. is used again."
pub fn free(place: &mut [u8])
    requires { 8 ≤ length place.old }
    ensures { place.new ≡ over place.old 0 (big_endian 8 (tag_of none)) }
{
    raw::put_number::<8>(place, 0, 0);
}

// ---- own writes

// The own writes in a place, where they begin at index 32; where in them the own write of a key is, `find` tells.
pub fn own(place: &[u8]) -> Own<'_>
    requires { (own_start ≤ length place.now) × (own_held place.now ≡ true) }
    ensures { result.bytes.now ≡ part place.now own_start (own_end place.now - own_start) }
{
    Own::new(&place[ENTRIES..ENTRIES + used_at(place, OVERLAY)])
}

// "the transaction's own last write of a key", if there is one, where it stands in the place.
pub fn own_write<'a>(place: &'a [u8], key: &[u8]) -> Option<&'a [u8]>
    requires { (own_start ≤ length place.now) × (own_held place.now ≡ true) }
    ensures { Answered place.now own_start (own_end place.now) (own_of place.now) key.now result }
{
    own(place).get(key)
}

// Writes value at key in the overlay. A deletion is a write of the empty value.
fn put_own(place: &mut [u8], key: &[u8], value: &[u8])
    requires { (own_start ≤ length place.old) × (own_held place.old ≡ true) × (own_start + own_size (insert cmp_pair (pair key.now value.now) (own_of place.old)) ≤ length place.old) }
    ensures { place.new ≡ over place.old place_overlay ((listed pair_stream).put (insert cmp_pair (pair key.now value.now) (own_of place.old))) }
{
    let used = used_at(place, OVERLAY);
    let size = overlay::put(&mut place[ENTRIES..], used, key, value);
    raw::put_number::<8>(place, OVERLAY, size as u64);
}

impl Rooms {
    // Whether the overlay is within its room after a write of value at key.
    pub fn overlay_fits(self, place: &[u8], key: &[u8], value: &[u8]) -> bool
        requires { (own_start ≤ length place.now) × (own_held place.now ≡ true) × (length key.now ≤ 65535) × (length value.now ≤ 65535) }
        ensures { result ≡ overlay_fits (settings_of false self) (insert cmp_pair (pair key.now value.now) (own_of place.now)) }
    {
        own(place).size_after(key, value) <= self.own
    }
}

// ---- sets: each is named by the index of the number in front of it, which is written too and which the layout's laws name

// The set at an index.
fn set(place: &[u8], at: usize) -> &[u8]
    requires { (at + 8 ≤ length place.now) × (set_held place.now at ≡ true) }
    ensures { (set_hashes result.now ≡ set_of place.now at) × (length result.now ≡ used_at place.now at) }
{
    let start = at + 8;
    &place[start..start + used_at(place, at)]
}

// Whether a set at an index has room for a hash: "hash new and set full" is no room. In the other mode no set is kept.
fn set_fits(place: &[u8], at: usize, count: usize, serializable: bool, hash: u64) -> bool
    requires { (at + 8 ≤ length place.now) × (set_held place.now at ≡ true) × (length (set_of place.now at) ≤ count) }
    ensures { result ≡ set_fits count (set_add serializable hash (set_of place.now at)) }
{
    let set = set(place, at);
    !serializable || set.len() / 4 < count || sets::among(set, hash)
}

// Puts a hash into the set at an index, where it may stand already.
fn add_hash(place: &mut [u8], at: usize, hash: u64)
    requires { (at + 8 ≤ length place.old) × (set_held place.old at ≡ true) × (at + 8 + 4 * length (insert compare hash (set_of place.old at)) ≤ length place.old) }
    ensures { place.new ≡ over place.old at (hashes_stream.put (insert compare hash (set_of place.old at))) }
{
    let n = used_at(place, at) / 4;
    let count = sets::add_hash(&mut place[at + 8..], n, hash);
    raw::put_number::<8>(place, at, 4 * count as u64);
}

impl Rooms {
    // Whether the read set has room for a hash.
    pub fn read_fits(self, place: &[u8], hash: u64) -> bool
        requires { (length place.now ≡ stride_of self) × (orderly self place.now ≡ true) }
        ensures { result ≡ set_fits self.reads (set_add self.serializable hash (txn_in self place.now).reads) }
    {
        set_fits(place, self.reads_at(), self.reads, self.serializable, hash)
    }

    // Whether the write set has room for a hash.
    pub fn write_fits(self, place: &[u8], hash: u64) -> bool
        requires { (length place.now ≡ stride_of self) × (orderly self place.now ≡ true) }
        ensures { result ≡ set_fits self.writes (set_add self.serializable hash (txn_in self place.now).writes) }
    {
        set_fits(
            place,
            self.writes_at(),
            self.writes,
            self.serializable,
            hash,
        )
    }

    // "A get that answers, present or absent, adds its key's hash to the read set"; in the other mode nothing is added.
    pub fn add_read(self, place: &mut [u8], hash: u64)
        requires { (length place.old ≡ stride_of self) × (orderly self place.old ≡ true) × (hash < 4294967296) × (set_fits self.reads (set_add self.serializable hash (txn_in self place.old).reads) ≡ true) }
        ensures { place.new ≡ (place_of self).write (some (with_reads (set_add self.serializable hash (txn_in self place.old).reads) (txn_in self place.old))) place.old }
    {
        if self.serializable {
            add_hash(place, self.reads_at(), hash);
        }
    }

    // ---- put and delete

    // Writes value at key, and adds the key's hash to the write set: "put and delete add to the write set".
    pub fn put(self, place: &mut [u8], key: &[u8], value: &[u8], hash: u64)
        requires { (length place.old ≡ stride_of self) × (orderly self place.old ≡ true) × (length key.now ≤ 65535) × (length value.now ≤ 65535) × (hash < 4294967296) × (overlay_fits (settings_of false self) (insert cmp_pair (pair key.now value.now) (txn_in self place.old).own) ≡ true) × (set_fits self.writes (set_add self.serializable hash (txn_in self place.old).writes) ≡ true) }
        ensures { place.new ≡ (place_of self).write (some (with_writes (insert cmp_pair (pair key.now value.now) (txn_in self place.old).own) (set_add self.serializable hash (txn_in self place.old).writes) (txn_in self place.old))) place.old }
    {
        put_own(place, key, value);
        if self.serializable {
            add_hash(place, self.writes_at(), hash);
        }
    }
}
