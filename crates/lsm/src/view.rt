// What a transaction reads.
use merge::heap::{Cursor, MOST_RUNS};

// The runs' cursors in run order, its own pairs from `own` to `stop`, and its read number. Memory is fixed, so the cursors are an array with their number.
#[derive(Clone, Copy)]
pub struct View {
    pub cursors: [Cursor; MOST_RUNS],
    pub runs: usize,
    pub own: usize,
    pub stop: usize,
    pub read: u64,
}
