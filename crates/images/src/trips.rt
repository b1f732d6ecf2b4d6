// Images written, frozen and read back.
use key::Place;
use run::reader::{Cut, Reader};

// The n-th record of a long run has a key of 2 bytes that rises, a timestamp, and a value of 0 to 7 bytes.
fn key_of(n: usize) -> [u8; 2] {
    [(n / 256 % 256) as u8, (n % 256) as u8]
}

fn time_of(n: usize) -> u64 {
    (n % 251) as u64
}

fn value_of(n: usize) -> &'static [u8] {
    crate::front(b"abcdefg", n % 8)
}

// The first n of them, packed from `at`; answers the place behind them.
pub(crate) fn packed(s: &mut [u8], at: usize, n: usize) -> usize {
    let mut end = at;
    for k in 0..n {
        end = crate::build::put(s, end, &key_of(k), time_of(k), value_of(k));
    }
    end
}

// Their image, from the start; answers its length.
pub(crate) fn image(s: &mut [u8], n: usize) -> usize {
    if s.len() < 9 {
        return 0;
    }
    run::write::put_head(s, 0, n as u64);
    packed(s, 9, n)
}

// Whether the bytes from a to e are those of t.
fn is(s: &[u8], a: usize, e: usize, t: &[u8]) -> bool {
    s.get(a..e).is_some_and(|part| part == t)
}

// Whether a step finds the n-th record, with its parts there.
fn found(s: &[u8], step: Option<Result<Place, Cut>>, n: usize) -> bool {
    let Some(Ok(place)) = step else {
        return false;
    };
    is(s, place.ks, place.ke, &key_of(n))
        && place.time == time_of(n)
        && is(s, place.vs, place.ve, value_of(n))
}

// How many of the first n records a reader finds, in order, and then the end: n + 1 where all is as written.
pub(crate) fn read_back(s: &[u8], n: usize) -> u64 {
    let mut right: u64 = 0;
    let mut reader = Reader::new(s, 9);
    for k in 0..n {
        if found(s, reader.next(), k) {
            right = right.wrapping_add(1);
        }
    }
    if reader.next().is_none() {
        right = right.wrapping_add(1);
    }
    right
}

// How many of the records after the first a reader finds behind the one before.
pub(crate) fn followed(s: &[u8], n: usize) -> u64 {
    let mut right: u64 = 0;
    let mut reader = Reader::new(s, 9);
    for k in 1..n {
        if found(s, reader.following(), k) {
            right = right.wrapping_add(1);
        }
        reader.next();
    }
    right
}

// Freezes the records from `from` to `end` at `to`, if they are the records of a run and there is room.
fn freeze(s: &mut [u8], to: usize, from: usize, end: usize) -> Option<()> {
    let records = s.get(from..end)?;
    s.len()
        .checked_sub(9)?
        .checked_sub(records.len())?
        .checked_sub(to)?;
    run::image::records_check(records)?;
    run::write::freeze_into(s, to, from, end);
    Some(())
}

// Packs n records from `from` on and freezes them at `to`: 1 where that is their image, which is written at the start.
pub(crate) fn frozen(s: &mut [u8], n: usize, to: usize, from: usize) -> u64 {
    let long = image(s, n);
    let end = packed(s, from, n);
    if freeze(s, to, from, end).is_none() {
        return 0;
    }
    u64::from(
        s.get(to..)
            .is_some_and(|rest| rest.starts_with(crate::front(s, long))),
    )
}
