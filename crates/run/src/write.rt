// A record, an image's head, and a packed run frozen to an image.
ghost use Rattle.std.specs.Prelude.{◌≡◌, true, ◌+◌, ◌-◌, ◌≤◌, length};
ghost use Rattle.paper.specs.Image.{record_bytes, image_of};
ghost use Rattle.raw.specs.Bytes.{part, over};
ghost use Rattle.key.specs.Versions.{versions, packed};
ghost use Rattle.run.specs.Writing.{head_bytes};

// Writes a record at `at`.
pub fn put_record(s: &mut [u8], at: usize, key: &[u8], time: u64, value: &[u8])
    requires { at + (12 + length key.now + length value.now) ≤ length s.old }
    ensures { s.new ≡ over s.old at (record_bytes (record { key = key.entry.now; time = time; value = value.now })) }
{
    let k = at + 2;
    let t = k + key.len();
    raw::put_sized::<2>(s, at, key);
    raw::put_number::<8>(s, t, time);
    raw::put_sized::<2>(s, t + 8, value);
}

// Writes an image's head at `at`: mark, version, count of records.
pub fn put_head(s: &mut [u8], at: usize, count: u64)
    requires { at + 9 ≤ length s.old }
    ensures { s.new ≡ over s.old at (head_bytes count) }
{
    raw::copy_at(s, at, b"RUN");
    raw::put_number::<2>(s, at + 3, 1);
    raw::put_number::<4>(s, at + 5, count);
}

// Freezes the packed records from `from` to `end`: writes the image of their run at `to`. The two places may overlap, so they are places in one slice.
pub fn freeze_into(s: &mut [u8], to: usize, from: usize, end: usize)
    requires { (from ≤ end) × (end ≤ length s.old) × (to + (9 + (end - from)) ≤ length s.old) × (packed (part s.old from (end - from)) ≡ true) }
    ensures { s.new ≡ over s.old to (image_of (versions (part s.old from (end - from)))) }
{
    let count = crate::tally::count_records(&s[from..end]);
    raw::shift(s, from, to + 9, end - from);
    put_head(s, to, count as u64);
}
