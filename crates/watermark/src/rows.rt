// The reader table in one lent slice of rows, row i being rows[i] for each i below `used`. It answers as the table in two slices does.
ghost use Rattle.std.specs.Prelude.{◌≡◌, leb, length};
ghost use Rattle.paper.specs.Calls.{try_add_row, try_remove_row, try_smallest, try_timestamps};
ghost use Rattle.watermark.specs.Table.{rows_of, added_says, removed_says, smallest_says, timestamps_says, LeftRows};
ghost use Rattle.watermark.specs.Pass.{scanned};

use super::pass::{Removing, Row, Scan};
use super::reply::{AddRefusal, RemoveRefusal, Unsound};

// One pass: whether the table is sound, and what there is to know at `time`.
fn scan(rows: &[Row], used: usize, time: u64) -> Result<Scan, Unsound>
    ensures { result ≡ scanned (leb used (length rows.now)) time (rows_of used rows.now) }
{
    if rows.len() < used {
        return Err(Unsound);
    }
    let mut s = Scan::start(time);
    for row in &rows[..used] {
        s = s.see(*row)?;
    }
    Ok(s)
}

// One reader more at `time`: how many rows there are then.
pub fn add_reader(rows: &mut [Row], used: usize, time: u64) -> Result<usize, AddRefusal>
    ensures { LeftRows (added_says result) (try_add_row (length rows.old) (rows_of used rows.old) time) rows.old rows.new }
{
    let put = scan(rows, used, time)?.plan_add(used, rows.len())?;
    put.write(rows, put.row);
    Ok(used.max(put.to))
}

// One reader less at `time`: how many rows there are then.
pub fn remove_reader(rows: &mut [Row], used: usize, time: u64) -> Result<usize, RemoveRefusal>
    ensures { LeftRows (removed_says result) (try_remove_row (length rows.old) (rows_of used rows.old) time) rows.old rows.new }
{
    match scan(rows, used, time)?.plan_remove()? {
        Removing::Fewer { put } => {
            put.write(rows, put.row);
            Ok(used)
        }
        Removing::Gone { at } => {
            rows.copy_within(at + 1..used, at);
            Ok(used - 1)
        }
    }
}

// The smallest timestamp with a reader, if there is one.
pub fn smallest(rows: &[Row], used: usize) -> Result<Option<u64>, Unsound>
    ensures { smallest_says result ≡ try_smallest (length rows.now) (rows_of used rows.now) }
{
    scan(rows, used, 0)?;
    Ok(rows[..used].first().map(|row| row.time))
}

// How many timestamps have a reader: the snapshots that are kept.
pub fn timestamps(rows: &[Row], used: usize) -> Result<usize, Unsound>
    ensures { timestamps_says result ≡ try_timestamps (length rows.now) (rows_of used rows.now) }
{
    scan(rows, used, 0)?;
    Ok(used)
}
