// Bytes of a lent buffer: big-endian numbers, copies and moves, and the order of byte strings.
#![tactic(auto)]

ghost use Rattle.std.specs.Prelude.{◌≡◌, ◌++◌, length};
ghost use Prim.Native.Nat.{◌+◌, ◌^◌, ◌≤◌, ◌<◌};
ghost use Rattle.paper.specs.Keys.{cmp_key};
ghost use Rattle.paper.specs.Image.{big_endian, number_from};
ghost use Rattle.raw.specs.Bytes.{part, over};
ghost use Rattle.raw.specs.Orders.{ordering};

use std::cmp::Ordering;

// ---- numbers

// The N bytes at `at` as a number, the most significant first. N is open, and std reads 2, 4 or 8 bytes; a `fold` would ask its callers for its sums.
pub fn number<const N: usize>(s: &[u8], at: usize) -> u64
    requires there { at + N ≤ length s.now }
    requires narrow { N ≤ 8 }
    ensures value { result ≡ number_from 0 (part s.now at N) }
    ensures bound { result < 256 ^ N }
{
    let mut n = 0;
    for b in &s[at..at + N] {
        n = n * 256 + u64::from(*b);
    }
    n
}

// The length field at `at`: 16 bits, as an index counts.
pub fn length_at(s: &[u8], at: usize) -> usize
    requires { at + 2 ≤ length s.now }
    ensures { (result ≡ number_from 0 (part s.now at 2)) × (result < 65536) }
{
    number::<2>(s, at) as usize
}

// Writes v's N low bytes at `at`, the most significant first.
pub fn put_number<const N: usize>(s: &mut [u8], at: usize, v: u64)
    requires there { at + N ≤ length s.old }
    requires narrow { N ≤ 8 }
    ensures { s.new ≡ over s.old at (big_endian N v) }
{
    s[at..at + N].copy_from_slice(&v.to_be_bytes()[8 - N..]);
}

// ---- copies and moves

// Writes `src` at `at`: std's copy, under the word `over` in which the contracts above speak.
pub fn copy_at(s: &mut [u8], at: usize, src: &[u8])
    requires { at + length src.now ≤ length s.old }
    ensures { s.new ≡ over s.old at src.now }
{
    s[at..at + src.len()].copy_from_slice(src);
}

// Writes x at `at` with its length in front, N bytes.
pub fn put_sized<const N: usize>(s: &mut [u8], at: usize, x: &[u8])
    requires there { at + (N + length x.now) ≤ length s.old }
    requires narrow { N ≤ 8 }
    ensures { s.new ≡ over s.old at (big_endian N (length x.now) ++ x.now) }
{
    put_number::<N>(s, at, x.len() as u64);
    copy_at(s, at + N, x);
}

// Moves the n bytes at `from` to `to`; the two places may overlap, so they are places in one slice. It is std's move, under the word `over`.
pub fn shift(s: &mut [u8], from: usize, to: usize, n: usize)
    requires { (from + n ≤ length s.old) × (to + n ≤ length s.old) }
    ensures { s.new ≡ over s.old to (part s.old from n) }
{
    s.copy_within(from..from + n, to);
}

// ---- order

// From so many bytes on, std compares 64 of them at a time, however early they differ; so of these the first few are looked at one by one.
const LONG: usize = 64;

const FEW: usize = 8;

// Compares a with b: at the first byte that differs, or a prefix first. It says once that std's order of bytes is the paper's order of keys.
pub fn compare(a: &[u8], b: &[u8]) -> Ordering
    ensures { ordering result ≡ cmp_key a.now b.now }
{
    if LONG <= a.len() && LONG <= b.len() {
        for i in 0..FEW {
            if a[i] != b[i] {
                return a[i].cmp(&b[i]);
            }
        }
    }
    a.cmp(b)
}
