// Images of small versions, of lists of them, and of single records of a given length.
ghost use Rattle.std.specs.Prelude.{◌≡◌, ◌+◌, IfSome};

// How many of `long` bytes are left behind a record at `at` with a key and a value of these lengths, if there is room for it.
fn left_behind(long: usize, at: usize, key: usize, value: usize) -> Option<usize>
    ensures { IfSome result (λ left. at + (12 + key + value) + left ≡ long) }
{
    long.checked_sub(at)?
        .checked_sub(12)?
        .checked_sub(key)?
        .checked_sub(value)
}

// Writes a record, if there is room, and answers the place behind it.
pub(crate) fn put(s: &mut [u8], at: usize, key: &[u8], time: u64, value: &[u8]) -> usize {
    let Some(left) = left_behind(s.len(), at, key.len(), value.len()) else {
        return at;
    };
    run::write::put_record(s, at, key, time, value);
    s.len() - left
}

// The versions 0 to 7 rise strictly; the 8th has an empty key.
fn version(s: &mut [u8], at: usize, number: u8) -> usize {
    match number {
        0 => put(s, at, b"a", 9, b"x"),
        1 => put(s, at, b"a", 5, b""),
        2 => put(s, at, b"a\0", 7, b"yy"),
        3 => put(s, at, b"ab", u64::MAX, b"z"),
        4 => put(s, at, b"ab", 256, b"p"),
        5 => put(s, at, b"ab", 255, b"q"),
        6 => put(s, at, b"b", 0, b"deleted"),
        7 => put(s, at, b"\xff", 3, b""),
        _ => put(s, at, b"", 1, b"e"),
    }
}

// The image of the versions of a list; answers its length.
pub(crate) fn image_of(s: &mut [u8], list: &[u8]) -> usize {
    if s.len() < 9 {
        return 0;
    }
    run::write::put_head(s, 0, list.len() as u64);
    let mut at = 9;
    for number in list {
        at = version(s, at, *number);
    }
    at
}
