// The store's reader table as it lies in the lent state, and the transactions' places by their first bytes: handle and read number.
#![tactic(auto)]

ghost use Rattle.std.specs.Prelude.{◌≡◌, true, ◌∷◌, ◌++◌, suc, ◌+◌, ◌*◌, ◌/◌, ◌≤◌, ◌<◌, length, take, drop, Ok};
ghost use Rattle.paper.specs.Lists.{is_some, among};
ghost use Rattle.paper.specs.Readers.{row, add_reader, remove_reader, watermark};
ghost use Rattle.paper.specs.Store.{rows_of};
ghost use Rattle.paper.specs.Sound.{distinct};
ghost use Rattle.table.specs.Rows.{read_in, rows_in, lay_rows, Rowed, Holds, rows_before, spot_of, checked, are_rows};
ghost use Rattle.table.specs.Places.{reads_in, handles_in, found_in};

// The rows stay a slice, and no struct that says that they rise: each caller lends them for one call, and would make the struct for that call alone. So do
// the places with their stride, which four functions take.

// ---- where a timestamp stands

// How many of the n rows are before t.
fn rows_before(region: &[u8], n: usize, t: u64) -> usize
    requires { Holds region.now n }
    ensures { result ≡ rows_before t (rows_in region.now) }
{
    region[8..8 + 16 * n]
        .chunks_exact(16)
        .take_while(|row| raw::number::<8>(row, 0) < t)
        .count()
}

// A timestamp's row: at place k of n, with its count of readers.
#[derive(Clone, Copy, Debug, PartialEq, Eq)]
pub struct Spot {
    pub k: usize,
    pub n: usize,
    pub count: u64,
}

// Where a timestamp has no row: its row would be at place k, before or behind the n that there are.
#[derive(Clone, Copy, Debug, PartialEq, Eq)]
pub struct Gap {
    pub k: usize,
    pub n: usize,
}

pub fn spot_of(region: &[u8], t: u64) -> Result<Spot, Gap>
    requires { Rowed region.now }
    ensures { result ≡ spot_of t (rows_in region.now) }
{
    let n = raw::number::<8>(region, 0) as usize / 16;
    let k = rows_before(region, n, t);
    if k < n && raw::number::<8>(region, 8 + 16 * k) == t {
        let count = raw::number::<8>(region, 16 + 16 * k);
        return Ok(Spot { k, n, count });
    }
    Err(Gap { k, n })
}

// Why no reader may be added: there is no room for its row, or its count is at the most.
#[derive(Clone, Copy, Debug, PartialEq, Eq)]
pub enum RowRefusal {
    Full,
    Most,
}

// Whether a reader may be added: there is a row for it or room for one, and its count is below the most.
pub fn check(region: &[u8], t: u64) -> Result<(), RowRefusal>
    requires { Rowed region.now }
    ensures { result ≡ checked region.now t }
{
    match spot_of(region, t) {
        Ok(spot) if spot.count == u64::MAX => Err(RowRefusal::Most),
        Err(gap) if region.len() < 24 + 16 * gap.n => Err(RowRefusal::Full),
        _ => Ok(()),
    }
}

// ---- rows put in and taken away

// Moves the rows from a gap on up by one, and writes a row with one reader there.
fn insert_row(region: &mut [u8], gap: Gap, t: u64)
    requires { Holds region.old gap.n × (gap.k ≤ gap.n) × (24 + 16 * gap.n ≤ length region.old) }
    ensures { region.new ≡ lay_rows (take gap.k (rows_in region.old) ++ (row t 1 ∷ drop gap.k (rows_in region.old))) region.old }
{
    let Gap { k, n } = gap;
    raw::shift(region, 8 + 16 * k, 24 + 16 * k, 16 * n - 16 * k);
    raw::put_number::<8>(region, 8 + 16 * k, t);
    raw::put_number::<8>(region, 16 + 16 * k, 1);
    let used = 16 * n + 16;
    raw::put_number::<8>(region, 0, used as u64);
}

// Moves the rows behind place k down by one, over the row that was there.
fn drop_row(region: &mut [u8], k: usize, n: usize)
    requires { Holds region.old n × (k < n) }
    ensures { region.new ≡ lay_rows (take k (rows_in region.old) ++ drop (suc k) (rows_in region.old)) region.old }
{
    raw::shift(region, 24 + 16 * k, 8 + 16 * k, 16 * n - 16 * k - 16);
    let used = 16 * n - 16;
    raw::put_number::<8>(region, 0, used as u64);
}

// One reader more at t.
pub fn add(region: &mut [u8], t: u64)
    requires { Rowed region.old × (checked region.old t ≡ Ok tt) }
    ensures { region.new ≡ lay_rows (add_reader t (rows_in region.old)) region.old }
{
    match spot_of(region, t) {
        Ok(spot) => raw::put_number::<8>(region, 16 + 16 * spot.k, spot.count + 1),
        Err(gap) => insert_row(region, gap, t),
    }
}

// One reader less at t, and no row for it where that was the last.
pub fn remove(region: &mut [u8], t: u64)
    requires { Rowed region.old }
    ensures { region.new ≡ lay_rows (remove_reader t (rows_in region.old)) region.old }
{
    if let Ok(spot) = spot_of(region, t) {
        if spot.count <= 1 {
            drop_row(region, spot.k, spot.n);
        } else {
            raw::put_number::<8>(region, 16 + 16 * spot.k, spot.count - 1);
        }
    }
}

// The watermark: the timestamp of the first row, or the clock where there is none.
pub fn smallest(region: &[u8], clock: u64) -> u64
    requires { is_some (read_in region.now) ≡ true }
    ensures { result ≡ watermark clock (rows_in region.now) }
{
    if raw::number::<8>(region, 0) == 0 {
        return clock;
    }
    raw::number::<8>(region, 8)
}

// ---- the state check

// Whether a region reads as rows: its number of used bytes is within it, and rows fill them.
pub fn rows_read(region: &[u8]) -> bool
    ensures { result ≡ is_some (read_in region.now) }
{
    if region.len() < 8 {
        return false;
    }
    let used = raw::number::<8>(region, 0);
    used <= (region.len() - 8) as u64 && used % 16 == 0
}

// Of places that lie one after the other, `stride` bytes each: which is the first with a tag, a handle, or 0 for a free place.
pub fn find_place(places: &[u8], stride: usize, tag: u64) -> Option<usize>
    requires { 8 ≤ stride }
    ensures { result ≡ found_in places.now 0 stride (length places.now / stride) tag }
{
    places
        .chunks_exact(stride)
        .position(|place| raw::number::<8>(place, 0) == tag)
}

// Whether no two transactions have one handle.
pub fn distinct_handles(places: &[u8], stride: usize) -> bool
    requires { 8 ≤ stride }
    ensures { result ≡ distinct (handles_in places.now 0 stride (length places.now / stride)) }
{
    let mut left = places;
    // A handle is looked for among the places behind its own, which a `for` over the places does not give.
    while let Some((place, others)) = left.split_at_checked(stride) {
        let handle = raw::number::<8>(place, 0);
        if handle != 0 && find_place(others, stride, handle).is_some() {
            return false;
        }
        left = others;
    }
    true
}

// The rows of the transactions in the places, made anew in a buffer, from the last place to the first.
pub fn rows_anew(places: &[u8], stride: usize, buf: &mut [u8])
    requires { (16 ≤ stride) × (8 + 16 * (length places.now / stride) ≤ length buf.old) }
    ensures { buf.new ≡ lay_rows (rows_of (reads_in places.now 0 stride (length places.now / stride))) buf.old }
{
    raw::put_number::<8>(buf, 0, 0);
    let count = places.len() / stride;
    // Counted down by index: `chunks_exact` divides at each step from the back.
    for i in (0..count).rev() {
        let at = i * stride;
        let place = &places[at..at + stride];
        if raw::number::<8>(place, 0) != 0 {
            add(buf, raw::number::<8>(place, 8));
        }
    }
}

// Where the rows of a region end.
fn rows_end(region: &[u8]) -> usize
    requires { is_some (read_in region.now) ≡ true }
    ensures { (result ≡ 8 + 16 * length (rows_in region.now)) × (result ≤ length region.now) }
{
    raw::number::<8>(region, 0) as usize + 8
}

// Whether the reader rows of a region count exactly the transactions in the places: whether it begins with the rows made anew.
pub fn rows_match(region: &[u8], places: &[u8], stride: usize) -> bool
    requires { (16 ≤ stride) × (length places.now / stride ≤ 64) }
    ensures { result ≡ are_rows (read_in region.now) (rows_of (reads_in places.now 0 stride (length places.now / stride))) }
{
    let mut buf = [0u8; 1032];
    rows_anew(places, stride, &mut buf);
    let end = rows_end(&buf);
    region.starts_with(&buf[..end])
}
