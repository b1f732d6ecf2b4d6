// Runs images past the verdict: each fault of numbers 10 and 11 at every place where it can stand, the limits of length,
// round trips, and damaged copies. Each verdict is compared with one that this program finds in its own, slower way.
// A line for each group says how many images were told as good, broken (10) and foreign (11), and on how many the two differ.
#![tactic(auto)]

mod plain; // plain.rt: the verdict once more, written from the paper and unlike the library
mod build; // build.rt: images of small versions, of lists of them, and of single records of a given length
mod trips; // trips.rt: images written, frozen and read back

use run::BadImage;

// Where the lines go: standard output, by its number.
const STDOUT_FILENO: i32 = 1;

// How many images were told as what, and on how many the two verdicts differ.
#[derive(Clone, Copy, Default)]
pub struct Count {
    pub good: u64,
    pub broken: u64,
    pub foreign: u64,
    pub differ: u64,
}

// The paper's number for a verdict.
fn number(verdict: Result<(), BadImage>) -> u64 {
    match verdict {
        Ok(()) => 0,
        Err(BadImage::Broken) => 10,
        Err(BadImage::Foreign) => 11,
    }
}

fn told(image: &[u8]) -> Result<(), BadImage> {
    run::image::verdict(image).map(|_| ())
}

// The first n bytes, or all that there are. `n` stands beside the buffer below, since the bytes behind an image are written and judged too.
pub(crate) fn front(s: &[u8], n: usize) -> &[u8] {
    &s[..n.min(s.len())]
}

impl Count {
    // One image more: the first n bytes.
    pub(crate) fn judged(mut self, s: &[u8], n: usize) -> Self {
        let image = front(s, n);
        let verdict = told(image);
        if verdict != plain::verdict(image) {
            self.differ = self.differ.wrapping_add(1);
        }
        match verdict {
            Ok(()) => self.good = self.good.wrapping_add(1),
            Err(BadImage::Broken) => self.broken = self.broken.wrapping_add(1),
            Err(BadImage::Foreign) => self.foreign = self.foreign.wrapping_add(1),
        }
        self
    }
}

// Writes a text. Where the output takes nothing more, the run goes on all the same.
fn print(text: &[u8]) {
    io::write_all(STDOUT_FILENO, text);
}

// A text and a number behind it.
fn print_number(text: &[u8], n: u64) {
    print(text);
    io::print_decimal(STDOUT_FILENO, n);
}

fn report(name: &[u8], c: Count) {
    print(name);
    print_number(b": good ", c.good);
    print_number(b", broken ", c.broken);
    print_number(b", foreign ", c.foreign);
    print_number(b", differ ", c.differ);
    print(b"\n");
}

// ---- damaged copies of the first n bytes

// Every cut.
fn cuts(s: &[u8], n: usize) -> Count {
    let mut c = Count::default();
    for long in 0..n {
        c = c.judged(s, long);
    }
    c
}

// The byte at i changed to each of the 255 others, and then back.
fn changes_at(c: Count, s: &mut [u8], n: usize, i: usize) -> Count {
    if s.len() <= i {
        return c;
    }
    let mut c = c;
    for _ in 0..255 {
        s[i] = s[i].wrapping_add(1);
        c = c.judged(s, n);
    }
    s[i] = s[i].wrapping_add(1);
    c
}

// Each byte from `from` to `to` so.
fn changes(s: &mut [u8], n: usize, from: usize, to: usize) -> Count {
    let mut c = Count::default();
    for i in from..to {
        c = changes_at(c, s, n, i);
    }
    c
}

// Each version from `from` to 65,535 in the version's place.
fn versions(s: &mut [u8], n: usize, from: u64) -> Count {
    let mut c = Count::default();
    if s.len() < 5 {
        return c;
    }
    for version in from..65536 {
        raw::put_number::<2>(s, 3, version);
        c = c.judged(s, n);
    }
    raw::put_number::<2>(s, 3, 1);
    c
}

// One to 64 bytes after the last record, all of them `byte`.
fn overlong(s: &mut [u8], n: usize, byte: u8) -> Count {
    let mut c = Count::default();
    for k in 0..64 {
        let last = n.wrapping_add(k);
        if last < s.len() {
            s[last] = byte;
            c = c.judged(s, last + 1);
        }
    }
    c
}

// ---- lists of versions

// The image of a list, judged.
fn listed(c: Count, s: &mut [u8], list: &[u8]) -> Count {
    let n = build::image_of(s, list);
    c.judged(s, n)
}

// Two versions, each of the 9 before and after each.
fn pairs(s: &mut [u8], first: u8) -> Count {
    let mut c = Count::default();
    for second in 0..9 {
        c = listed(c, s, &[first, second]);
    }
    c
}

// Eight versions in order.
const RISING: [u8; 8] = [0, 1, 2, 3, 4, 5, 6, 7];

// With the one at each place changed to `other`.
fn replaced(s: &mut [u8], other: u8) -> Count {
    let mut c = Count::default();
    for i in 0..8 {
        let mut list = RISING;
        list[i] = other;
        c = listed(c, s, &list);
    }
    c
}

// With two neighbours the wrong way round.
fn swapped(s: &mut [u8]) -> Count {
    let mut c = Count::default();
    for i in 0..7 {
        let mut list = RISING;
        list.swap(i, i + 1);
        c = listed(c, s, &list);
    }
    c
}

// With one of them twice.
fn doubled(s: &mut [u8]) -> Count {
    let mut c = Count::default();
    for i in 0..7 {
        let mut list = RISING;
        list[i + 1] = list[i];
        c = listed(c, s, &list);
    }
    c
}

// ---- the limits of length

// The image of one record, judged with `more` bytes behind it.
fn one(c: Count, s: &mut [u8], key: &[u8], value: &[u8], more: usize) -> Count {
    if s.len() < 9 {
        return c.judged(s, more);
    }
    run::write::put_head(s, 0, 1);
    let n = build::put(s, 9, key, 1, value);
    c.judged(s, n.wrapping_add(more))
}

// A key of k bytes with values of 0, 1 and 65,535 bytes, all from the same bytes.
fn with_values(s: &mut [u8], bytes: &[u8], k: usize) -> Count {
    let key = front(bytes, k);
    let c = one(Count::default(), s, key, b"", 0);
    let c = one(c, s, key, b"v", 0);
    one(c, s, key, front(bytes, 65535), 0)
}

// A field of 16 bits can't say 65,536: what is written for a key or a value of 65,536 bytes says 0. So such a key is told as
// empty, such a value as bytes too many, and one byte more behind a value of 65,535 is one too many.
fn too_long(s: &mut [u8], bytes: &[u8]) -> Count {
    let c = one(Count::default(), s, front(bytes, 65536), b"v", 0);
    let c = one(c, s, b"k", front(bytes, 65536), 0);
    one(c, s, b"k", front(bytes, 65535), 1)
}

// ---- round trips

// The image of n records, read back and followed.
fn read(image: &[u8], n: usize) {
    print_number(b"records ", n as u64);
    print_number(b": bytes ", image.len() as u64);
    print_number(b", verdict ", number(told(image)));
    print_number(b", read back with the end ", trips::read_back(image, n));
    print_number(b", followed ", trips::followed(image, n));
}

// Their records frozen apart from where they lie, in place, and where the two places overlap.
fn trip(s: &mut [u8], n: usize) {
    let long = trips::image(s, n);
    read(front(s, long), n);
    print_number(b", frozen apart ", trips::frozen(s, n, 100000, 50000));
    print_number(b", in place ", trips::frozen(s, n, 50000, 50000));
    print_number(b", 9 bytes lower ", trips::frozen(s, n, 49991, 50000));
    print_number(b", 20 bytes lower ", trips::frozen(s, n, 49980, 50000));
    print(b"\n");
}

// Damaged copies of the image of four versions, its first n bytes.
fn damage(s: &mut [u8], n: usize) {
    report(b"whole image", Count::default().judged(s, n));
    report(b"every cut", cuts(s, n));
    report(b"every change of the mark", changes(s, n, 0, 3));
    report(b"every change of the version", changes(s, n, 3, 5));
    report(b"every change of the count", changes(s, n, 5, 9));
    report(b"every change of the records", changes(s, n, 9, n));
    report(b"versions from 2", versions(s, n, 2));
    report(
        b"versions from 2, cut behind the version",
        versions(s, 5, 2),
    );
    report(
        b"versions from 0, cut inside the version",
        versions(s, 4, 0),
    );
    report(b"zeros after the last record", overlong(s, n, 0));
    report(b"other bytes after it", overlong(s, n, 255));
}

fn lists(s: &mut [u8]) {
    report(b"version 1 first of two", pairs(s, 1));
    report(b"version 4 first of two", pairs(s, 4));
    report(b"version 7 first of two", pairs(s, 7));
    report(b"neighbours the wrong way round", swapped(s));
    report(b"a version twice", doubled(s));
    report(b"an empty key at each place", replaced(s, 8));
    report(b"version 3 at each place", replaced(s, 3));
}

fn lengths(s: &mut [u8], bytes: &[u8]) {
    report(b"keys of 0 bytes", with_values(s, bytes, 0));
    report(b"keys of 1 byte", with_values(s, bytes, 1));
    report(b"keys of 65,535 bytes", with_values(s, bytes, 65535));
    report(b"lengths of 65,536", too_long(s, bytes));
}

fn main() {
    let mut s = [0u8; 200000];
    let bytes = [107u8; 65536];
    let n = build::image_of(&mut s, b"\0\x01\x02\x04");
    damage(&mut s, n);
    lists(&mut s);
    lengths(&mut s, &bytes);
    for n in [0, 1, 2, 1000] {
        trip(&mut s, n);
    }
}
