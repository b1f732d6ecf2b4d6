// Runs P13 and each refusal of the reader table on both of the library's tables, and writes a line for each call: the table, the call, the number that it
// returns, what it tells, and for a call that writes how many rows are in use and what all four hold.
#![tactic(auto)]

mod told;

ghost use Rattle.std.specs.Prelude.{◌≡◌, length, map};
ghost use Rattle.paper.specs.Calls.{try_add_row, try_remove_row, try_smallest, try_timestamps};
ghost use Rattle.watermark.specs.Table.{rows_of, added_says, removed_says, smallest_says, timestamps_says, LeftRows};

use watermark::Row;
use watermark::reply::{AddRefusal, RemoveRefusal, Unsound};

// Where the lines go: standard output, by its number.
const STDOUT_FILENO: i32 = 1;

// One of the library's two tables, lent four rows. Whichever it is, a call answers of the rows in use what the paper's call does, and leaves them so.
trait Form {
    // The word that its lines begin with, and the space behind it.
    fn name() -> &'static [u8];

    fn add_reader(rows: &mut [Row; 4], used: usize, time: u64) -> Result<usize, AddRefusal>
        ensures { LeftRows (added_says result) (try_add_row 4 (rows_of used rows.old) time) rows.old rows.new };

    fn remove_reader(rows: &mut [Row; 4], used: usize, time: u64) -> Result<usize, RemoveRefusal>
        ensures { LeftRows (removed_says result) (try_remove_row 4 (rows_of used rows.old) time) rows.old rows.new };

    fn smallest(rows: &[Row; 4], used: usize) -> Result<Option<u64>, Unsound>
        ensures { smallest_says result ≡ try_smallest 4 (rows_of used rows.now) };

    fn timestamps(rows: &[Row; 4], used: usize) -> Result<usize, Unsound>
        ensures { timestamps_says result ≡ try_timestamps 4 (rows_of used rows.now) };
}

struct Rows;

impl Form for Rows {
    fn name() -> &'static [u8] {
        b"rows "
    }

    fn add_reader(rows: &mut [Row; 4], used: usize, time: u64) -> Result<usize, AddRefusal> {
        watermark::rows::add_reader(rows, used, time)
    }

    fn remove_reader(rows: &mut [Row; 4], used: usize, time: u64) -> Result<usize, RemoveRefusal> {
        watermark::rows::remove_reader(rows, used, time)
    }

    fn smallest(rows: &[Row; 4], used: usize) -> Result<Option<u64>, Unsound> {
        watermark::rows::smallest(rows, used)
    }

    fn timestamps(rows: &[Row; 4], used: usize) -> Result<usize, Unsound> {
        watermark::rows::timestamps(rows, used)
    }
}

// The rows in two slices.
struct Two;

fn times_of(rows: &[Row; 4]) -> [u64; 4]
    ensures long { 4 ≡ length result }
    ensures each { result ≡ map (λ r. r.time) rows.now }
{
    rows.map(|row| row.time)
}

fn counts_of(rows: &[Row; 4]) -> [u64; 4]
    ensures long { 4 ≡ length result }
    ensures each { result ≡ map (λ r. r.count) rows.now }
{
    rows.map(|row| row.count)
}

// The rows get these timestamps and counts, by the index: of what is written through a `zip` nothing is known.
fn fill(rows: &mut [Row; 4], times: &[u64; 4], counts: &[u64; 4])
    ensures times { map (λ r. r.time) rows.new ≡ times.now }
    ensures counts { map (λ r. r.count) rows.new ≡ counts.now }
{
    for (i, row) in rows.iter_mut().enumerate() {
        *row = Row {
            time: times[i],
            count: counts[i],
        };
    }
}

impl Form for Two {
    fn name() -> &'static [u8] {
        b"two "
    }

    fn add_reader(rows: &mut [Row; 4], used: usize, time: u64) -> Result<usize, AddRefusal> {
        let mut times = times_of(rows);
        let mut counts = counts_of(rows);
        let reply = watermark::add_reader(&mut times, &mut counts, used, time);
        fill(rows, &times, &counts);
        reply
    }

    fn remove_reader(rows: &mut [Row; 4], used: usize, time: u64) -> Result<usize, RemoveRefusal> {
        let mut times = times_of(rows);
        let mut counts = counts_of(rows);
        let reply = watermark::remove_reader(&mut times, &mut counts, used, time);
        fill(rows, &times, &counts);
        reply
    }

    fn smallest(rows: &[Row; 4], used: usize) -> Result<Option<u64>, Unsound> {
        watermark::smallest(&times_of(rows), &counts_of(rows), used)
    }

    fn timestamps(rows: &[Row; 4], used: usize) -> Result<usize, Unsound> {
        watermark::timestamps(&times_of(rows), &counts_of(rows), used)
    }
}

// Four rows, and how many are in use.
#[derive(Clone, Copy)]
struct Table {
    rows: [Row; 4],
    used: usize,
}

fn row(time: u64, count: u64) -> Row {
    Row { time, count }
}

impl Table {
    // The rows, of which all are in use, and behind them rows without a reader.
    fn of(rows: &[Row]) -> Self {
        let mut four = [row(0, 0); 4];
        for (place, row) in four.iter_mut().zip(rows) {
            *place = *row;
        }
        Self {
            rows: four,
            used: rows.len(),
        }
    }
}

// ---- lines

fn text(s: &[u8]) {
    io::write_all(STDOUT_FILENO, s);
}

fn number(n: u64) {
    io::print_decimal(STDOUT_FILENO, n);
}

// A number more on the line.
fn also(n: u64) {
    text(b", ");
    number(n);
}

// The beginning of a line: the table and the call.
fn head<F: Form>(call: &[u8]) {
    text(F::name());
    text(call);
}

// The rest of a line of a call that writes.
fn left(t: &Table, reply: u64) {
    text(b": ");
    number(reply);
    also(t.used as u64);
    text(b" in use:");
    for row in &t.rows {
        text(b" ");
        number(row.time);
        text(b"*");
        number(row.count);
    }
    text(b"\n");
}

fn add<F: Form>(mut t: Table, time: u64) -> Table {
    let reply = F::add_reader(&mut t.rows, t.used, time);
    t.used = reply.unwrap_or(t.used);
    head::<F>(b"add ");
    number(time);
    left(&t, told::number(reply));
    t
}

fn remove<F: Form>(mut t: Table, time: u64) -> Table {
    let reply = F::remove_reader(&mut t.rows, t.used, time);
    t.used = reply.unwrap_or(t.used);
    head::<F>(b"remove ");
    number(time);
    left(&t, told::number(reply));
    t
}

// The smallest timestamp, and how many there are.
fn look<F: Form>(t: &Table) {
    let smallest = F::smallest(&t.rows, t.used);
    head::<F>(b"smallest: ");
    number(told::number(smallest));
    match smallest {
        Ok(Some(time)) => also(time),
        Ok(None) => text(b", nobody"),
        Err(Unsound) => {}
    }
    text(b"\n");
    let timestamps = F::timestamps(&t.rows, t.used);
    head::<F>(b"timestamps: ");
    number(told::number(timestamps));
    if let Ok(count) = timestamps {
        also(count as u64);
    }
    text(b"\n");
}

fn watermark_at(t: &Table, clock: u64) {
    let mark = watermark::watermark(&times_of(&t.rows), &counts_of(&t.rows), t.used, clock);
    text(b"two watermark at the clock ");
    number(clock);
    text(b": ");
    number(told::number(mark));
    if let Ok(time) = mark {
        also(time);
    }
    text(b"\n");
}

// P13: readers 4, 4, 9: smallest 4, two timestamps; remove 4: the same; remove 4: 9.
fn p13<F: Form>() {
    let mut t = Table::of(&[]);
    look::<F>(&t);
    t = add::<F>(t, 4);
    t = add::<F>(t, 4);
    t = add::<F>(t, 9);
    look::<F>(&t);
    t = remove::<F>(t, 4);
    look::<F>(&t);
    t = remove::<F>(t, 4);
    look::<F>(&t);
}

// Every call of a table that is not sound gives 9, and leaves the rows.
fn unsound<F: Form>(t: Table) {
    add::<F>(t, 5);
    remove::<F>(t, 4);
    look::<F>(&t);
}

fn refusals<F: Form>() {
    // Timestamps that fall, and that stay; a count of 0; rows past the end.
    unsound::<F>(Table::of(&[row(9, 1), row(4, 1)]));
    unsound::<F>(Table::of(&[row(4, 1), row(4, 1)]));
    unsound::<F>(Table::of(&[row(4, 0)]));
    let full = Table::of(&[row(4, 1), row(5, 1), row(6, 1), row(7, 1)]);
    let mut past = full;
    past.used = 5;
    unsound::<F>(past);
    // A full table: 5 for a new timestamp, and one reader more for one that is there.
    add::<F>(full, 3);
    add::<F>(full, 6);
    // A count at its end: 7; the next below it goes there.
    let most = Table::of(&[row(4, u64::MAX), row(5, u64::MAX - 1)]);
    add::<F>(most, 4);
    add::<F>(most, 5);
    // Nobody reads there: 8.
    remove::<F>(full, 8);
    remove::<F>(Table::of(&[]), 4);
}

// Rows go one further for a new one in front, and one down where one goes; what stands past the rows stays.
fn moves<F: Form>() {
    let mut t = Table::of(&[row(4, 2), row(9, 1), row(1, 1), row(2, 2)]);
    t.used = 2;
    t = add::<F>(t, 3);
    t = add::<F>(t, 6);
    t = remove::<F>(t, 3);
    t = remove::<F>(t, 9);
    t = remove::<F>(t, 4);
    look::<F>(&t);
}

fn run<F: Form>() {
    p13::<F>();
    refusals::<F>();
    moves::<F>();
}

fn main() {
    run::<Two>();
    run::<Rows>();
    watermark_at(&Table::of(&[]), 12);
    watermark_at(&Table::of(&[row(4, 2), row(9, 1)]), 12);
    watermark_at(&Table::of(&[row(4, 0)]), 12);
}
