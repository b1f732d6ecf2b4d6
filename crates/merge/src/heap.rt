// The array heap of run cursors: the version that comes first is at the root, and the children of the cursor at i are those at 2 i + 1 and 2 i + 2.
ghost use Rattle.std.specs.Prelude.{◌≤◌};

// The active run, and at most 16 opening and frozen runs together.
pub const MOST_RUNS: usize = 17;

// What is left of a run: its records from `at` to `end`. `run` is its place in run order.
#[derive(Clone, Copy)]
pub struct Cursor {
    pub at: usize,
    pub end: usize,
    pub run: usize,
}

impl Cursor {
    // A cursor that has nothing left, which stands where a heap or a list of cursors has none.
    pub const NOWHERE: Cursor = Cursor {
        at: 0,
        end: 0,
        run: 0,
    };
}

// The cursors in use are the first `len`. Memory is fixed, so there are places for the most runs that there can be. That they are over records and in order
// (`lawful`, `Sound`) is no ghost field, since it speaks of the bytes, which a heap does not hold.
#[derive(Clone, Copy)]
pub struct Heap {
    pub cursors: [Cursor; MOST_RUNS],
    pub len: usize,
    ghost few: { len ≤ 17 },
}
