// The reader table: the timestamps at which transactions read, strictly rising, and the number of readers at each. Here it lies in two lent slices, row i
// being times[i] and counts[i] for each i below `used`; `rows` has it in one lent slice of rows. The two forms stand side by side: one trait for both would
// need a type for each form that reads and one for each that writes, which is more than the few lines that stand twice. Both forms are promised, and behind `used` is room that is written.
#![tactic(auto)]

mod pass;
pub mod reply;
pub mod rows;

ghost use Rattle.std.specs.Prelude.{◌≡◌, leb};
ghost use Rattle.paper.specs.Calls.{try_add_row, try_remove_row, try_smallest, try_timestamps};
ghost use Rattle.watermark.specs.Table.{rows_in, room_in, added_says, removed_says, smallest_says, timestamps_says, mark_says, try_watermark, Left};
ghost use Rattle.watermark.specs.Pass.{scanned};

pub use pass::Row;
use pass::{Removing, Scan};
use reply::{AddRefusal, RemoveRefusal, Unsound};

// One pass: whether the table is sound, and what there is to know at `time`.
fn scan(times: &[u64], counts: &[u64], used: usize, time: u64) -> Result<Scan, Unsound>
    ensures { result ≡ scanned (leb used (room_in times.now counts.now)) time (rows_in used times.now counts.now) }
{
    if times.len().min(counts.len()) < used {
        return Err(Unsound);
    }
    let mut s = Scan::start(time);
    for (t, n) in times[..used].iter().zip(&counts[..used]) {
        s = s.see(Row {
            time: *t,
            count: *n,
        })?;
    }
    Ok(s)
}

// One reader more at `time`: how many rows there are then.
pub fn add_reader(
    times: &mut [u64],
    counts: &mut [u64],
    used: usize,
    time: u64,
) -> Result<usize, AddRefusal>
    ensures { Left (added_says result)
        (try_add_row (room_in times.old counts.old) (rows_in used times.old counts.old) time)
        times.old counts.old times.new counts.new }
{
    let room = times.len().min(counts.len());
    let put = scan(times, counts, used, time)?.plan_add(used, room)?;
    put.write(times, put.row.time);
    put.write(counts, put.row.count);
    Ok(used.max(put.to))
}

// One reader less at `time`: how many rows there are then.
pub fn remove_reader(
    times: &mut [u64],
    counts: &mut [u64],
    used: usize,
    time: u64,
) -> Result<usize, RemoveRefusal>
    ensures { Left (removed_says result)
        (try_remove_row (room_in times.old counts.old) (rows_in used times.old counts.old) time)
        times.old counts.old times.new counts.new }
{
    match scan(times, counts, used, time)?.plan_remove()? {
        Removing::Fewer { put } => {
            put.write(times, put.row.time);
            put.write(counts, put.row.count);
            Ok(used)
        }
        Removing::Gone { at } => {
            times.copy_within(at + 1..used, at);
            counts.copy_within(at + 1..used, at);
            Ok(used - 1)
        }
    }
}

// The smallest timestamp with a reader, if there is one.
pub fn smallest(times: &[u64], counts: &[u64], used: usize) -> Result<Option<u64>, Unsound>
    ensures { smallest_says result
        ≡ try_smallest (room_in times.now counts.now) (rows_in used times.now counts.now) }
{
    scan(times, counts, used, 0)?;
    Ok(times[..used].first().copied())
}

// How many timestamps have a reader: the snapshots that are kept.
pub fn timestamps(times: &[u64], counts: &[u64], used: usize) -> Result<usize, Unsound>
    ensures { timestamps_says result
        ≡ try_timestamps (room_in times.now counts.now) (rows_in used times.now counts.now) }
{
    scan(times, counts, used, 0)?;
    Ok(used)
}

// 'The smallest timestamp with a reader; with no reader, the clock.'
pub fn watermark(times: &[u64], counts: &[u64], used: usize, clock: u64) -> Result<u64, Unsound>
    ensures { mark_says result
        ≡ try_watermark (room_in times.now counts.now) (rows_in used times.now counts.now) clock }
{
    Ok(smallest(times, counts, used)?.unwrap_or(clock))
}
