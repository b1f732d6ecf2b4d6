// The verdict once more, written from the paper and unlike the library: records are found by their number, always from the
// first, and timestamps are compared as bytes.
ghost use Rattle.std.specs.Prelude.{◌<◌};

use run::BadImage;
use std::cmp::Ordering;

// The byte at i, 0 behind the end.
fn at(s: &[u8], i: usize) -> usize
    ensures { result < 256 }
{
    if i < s.len() { usize::from(s[i]) } else { 0 }
}

fn two(s: &[u8], i: usize) -> usize
    ensures { result < 65536 }
{
    at(s, i) * 256 + at(s, i.wrapping_add(1))
}

// 'Key length 16 bits, key, timestamp 64 bits, value length 16 bits, value', counted.
fn size(s: &[u8], i: usize) -> usize
    ensures { result < 131083 }
{
    let key = two(s, i);
    12 + key + two(s, i.wrapping_add(key + 10))
}

// Where the record with a number starts, from 0; further than the end where one before it is cut.
fn start(s: &[u8], number: usize) -> usize {
    let mut i = 9;
    for _ in 0..number {
        if s.len() < i {
            return i;
        }
        i = i.wrapping_add(size(s, i));
    }
    i
}

// Compares n bytes at a with m bytes at b: the first byte in which they differ decides, and then their numbers.
fn compared(s: &[u8], a: usize, n: usize, b: usize, m: usize) -> Ordering {
    for i in 0..n.min(m) {
        let order = at(s, a.wrapping_add(i)).cmp(&at(s, b.wrapping_add(i)));
        if order.is_ne() {
            return order;
        }
    }
    n.cmp(&m)
}

// Whether the record at a has its place before the one at b: 'key bytes ascending (a prefix first), then timestamp descending'.
fn rises(s: &[u8], a: usize, b: usize) -> bool {
    let n = two(s, a);
    let m = two(s, b);
    let ka = a.wrapping_add(2);
    let kb = b.wrapping_add(2);
    compared(s, ka, n, kb, m)
        .then_with(|| compared(s, kb.wrapping_add(m), 8, ka.wrapping_add(n), 8))
        .is_lt()
}

// The record with a number has a key that isn't empty, and stands after the one before it.
fn right(s: &[u8], number: usize) -> bool {
    let i = start(s, number);
    two(s, i) != 0 && (number == 0 || rises(s, start(s, number - 1), i))
}

pub(crate) fn verdict(s: &[u8]) -> Result<(), BadImage> {
    if [at(s, 0), at(s, 1), at(s, 2)] != [82, 85, 78] || s.len() < 5 {
        return Err(BadImage::Broken);
    }
    if two(s, 3) != 1 {
        return Err(BadImage::Foreign);
    }
    if s.len() < 9 {
        return Err(BadImage::Broken);
    }
    let count = two(s, 5) * 65536 + two(s, 7);
    if start(s, count) == s.len() && (0..count).all(|number| right(s, number)) {
        Ok(())
    } else {
        Err(BadImage::Broken)
    }
}
