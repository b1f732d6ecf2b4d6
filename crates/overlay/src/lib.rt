// The own writes of a transaction, packed in a part of a lent buffer: key length 2 bytes, key, value length 2 bytes,
// value; the keys rise strictly. It takes the place of the original's `SkipMap`.
#![tactic(auto)]

ghost use Rattle.std.specs.Prelude.{◌≡◌, true, ◌++◌, ◌+◌, ◌-◌, ◌≤◌, ◌<◌, length, take};
ghost use Rattle.std.specs.Iterator.{YieldsFirstBy, item_count};
ghost use Rattle.paper.specs.Lists.{insert};
ghost use Rattle.paper.specs.Keys.{cmp_pair};
ghost use Rattle.paper.specs.Store.{own_size};
ghost use Rattle.raw.specs.Bytes.{over};
ghost use Rattle.layout.specs.Codec.{sized, plain, put_all};
ghost use Rattle.layout.specs.Layout.{pair_stream};
ghost use Rattle.overlay.specs.Overlay.{pair, pairs_in, is_overlay, found_at, Answered};
ghost use Rattle.overlay.specs.Entries.{written, left, field_read, entry_read, Hole};

use std::cmp::Ordering;
use std::ops::Range;

mod own; // own.rt: an own write, and the bytes of several

pub use own::{Entry, Own};

// Where the own write of a key is: its entry starts at `start`, its value at `value`, and both end at `end`.
#[derive(Clone, Copy)]
pub struct Found {
    pub start: usize,
    pub value: usize,
    pub end: usize,
}

// ---- one entry

// The field in front of s, and the bytes behind it, if s begins with a whole one.
fn field(s: &[u8]) -> Option<(&[u8], &[u8])>
    ensures { field_read result ≡ (sized 2 plain).get s.now }
{
    let (length, rest) = s.split_at_checked(2)?;
    rest.split_at_checked(raw::length_at(length, 0))
}

// The entry in front of s, and the bytes behind it, if s begins with a whole one.
pub fn first(s: &[u8]) -> Option<(Entry<'_>, &[u8])>
    ensures { entry_read result ≡ pair_stream.get s.now }
{
    let (key, rest) = field(s)?;
    let (value, rest) = field(rest)?;
    Some((Entry { key, value }, rest))
}

impl<'a> Iterator for Own<'a> {
    ghost use Rattle.std.specs.Iterator.{YieldsFirstBy, item_count};
    ghost use Rattle.overlay.specs.Entries.{written, left};

    type Item = Entry<'a>;

    ghost next_gives = { YieldsFirstBy written left };

    ghost remaining = { item_count left };

    fn next(&mut self) -> Option<Entry<'a>> {
        let (entry, bytes) = first(self.bytes)?;
        self.bytes = bytes;
        Some(entry)
    }
}

// ---- the whole

// Whether some bytes are an overlay, in one pass. Before the first key stands the empty one, so that no key is empty.
pub fn check(bytes: &[u8]) -> bool
    ensures { result ≡ is_overlay bytes.now }
{
    let mut last: &[u8] = b"";
    let mut rest = bytes;
    // A `for` over the entries would not tell whether it ended at the last one or at bytes that are no entry.
    while let Some((entry, next)) = first(rest) {
        let Ordering::Less = raw::compare(last, entry.key) else {
            return false;
        };
        last = entry.key;
        rest = next;
    }
    rest.is_empty()
}

impl<'a> Own<'a> {
    // Where the own write of a key is, or where it would be.
    pub fn find(self, key: &[u8]) -> Result<Found, usize>
        ensures { result ≡ found_at 0 key.now (pairs_in self.entry.bytes.now) }
    {
        let mut start = 0;
        for entry in self {
            let value = start + 4 + entry.key.len();
            let end = value + entry.value.len();
            match raw::compare(key, entry.key) {
                Ordering::Less => return Err(start),
                Ordering::Equal => return Ok(Found { start, value, end }),
                Ordering::Greater => start = end,
            }
        }
        Err(start)
    }

    // What a transaction has written at a key: the value of its own write, if there is one, where `find` says that it is.
    pub fn get(self, key: &[u8]) -> Option<&'a [u8]>
        ensures { Answered self.entry.bytes.now 0 (length self.entry.bytes.now) (pairs_in self.entry.bytes.now) key.now result }
    {
        let found = self.find(key).ok()?;
        Some(&self.bytes[found.value..found.end])
    }

    // The bytes in whose place a write of a key goes: the key's entry, or none where it would be.
    fn hole(self, key: &[u8]) -> Range<usize>
        ensures { Hole self.entry.bytes.now key.now result.start result.end }
    {
        match self.find(key) {
            Ok(found) => found.start..found.end,
            Err(gap) => gap..gap,
        }
    }

    // How many bytes the entries take after a write of value at key: "4 bytes plus key and value for each entry, a
    // replaced value counted no more".
    pub fn size_after(self, key: &[u8], value: &[u8]) -> usize
        requires { (length key.now ≤ 65535) × (length value.now ≤ 65535) }
        ensures { result ≡ own_size (insert cmp_pair (pair key.now value.now) (pairs_in self.entry.bytes.now)) }
    {
        let hole = self.hole(key);
        self.bytes.len() - (hole.end - hole.start) + 4 + key.len() + value.len()
    }
}

// ---- a write

// Writes an entry at `at`.
fn put_entry(s: &mut [u8], at: usize, key: &[u8], value: &[u8])
    requires { at + (4 + length key.now + length value.now) ≤ length s.old }
    ensures { s.new ≡ over s.old at (pair_stream.put (pair key.now value.now)) }
{
    raw::put_sized::<2>(s, at, key);
    raw::put_sized::<2>(s, at + 2 + key.len(), value);
}

// Writes value at key among the own writes that the first `used` bytes of their room are; an own write of the key
// before gives its bytes back, and what stands behind it moves once. A deletion is a write of the empty value. Returns
// how many bytes the entries take after it. What is behind the `used` bytes is written, so the room is lent with their number.
pub fn put(room: &mut [u8], used: usize, key: &[u8], value: &[u8]) -> usize
    requires { (used ≤ length room.old) × (is_overlay (take used room.old) ≡ true) × (own_size (insert cmp_pair (pair key.now value.now) (pairs_in (take used room.old))) ≤ length room.old) }
    ensures { (result ≡ own_size (insert cmp_pair (pair key.now value.now) (pairs_in (take used room.old)))) × (room.new ≡ over room.old 0 (put_all pair_stream (insert cmp_pair (pair key.now value.now) (pairs_in (take used room.old))))) }
{
    let hole = Own::new(&room[..used]).hole(key);
    let next = hole.start + (4 + key.len() + value.len());
    let tail = used - hole.end;
    raw::shift(room, hole.end, next, tail);
    put_entry(room, hole.start, key, value);
    next + tail
}
