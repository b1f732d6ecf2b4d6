// The sheet of cases, P1 to P10, over packed runs: a line for each case with the pairs that a scan hands out, answer by answer, and then a line for each
// view with the pairs that a get of each key finds.
#![tactic(auto)]

ghost use Rattle.std.specs.Prelude.{◌≡◌};
ghost use Rattle.lsm.specs.Pairs.{InBytes};
ghost use Rattle.lsm.specs.Answers.{InAnswer};
ghost use Rattle.lsm.specs.Views.{Readable};
ghost use Rattle.reads.specs.Packed.{sheet_bytes, view_of};

use lsm::answer::Span;
use lsm::view::View;
use merge::heap::{Cursor, MOST_RUNS};
use std::ops::Bound;

fn write(bytes: &[u8]) {
    io::write_all(1, bytes);
}

fn write_pair(s: &[u8], p: Span)
    requires { InBytes s.now p }
{
    write(b" ");
    write(p.key(s));
    write(b" ");
    write(p.value(s));
}

// Writes an answer and gives the next: 'from the same upper bound and the last key as an excluded lower bound'. This function and the two above it stand in
// program `answers` too: a crate for them would need contracts and edits of its own, more than they are.
fn follow(s: &[u8], v: &View, answer: Option<Span>, high: Bound<&[u8]>) -> Option<Span>
    requires { Readable s.now v.now × InAnswer s.now answer }
    ensures { InAnswer s.now result }
{
    let p = answer?;
    write_pair(s, p);
    v.scan(s, Bound::Excluded(p.key(s)), high)
}

// The answers of a scan, nine at most.
fn scan(s: &[u8], v: View, low: Bound<&[u8]>, high: Bound<&[u8]>)
    requires { Readable s.now v }
{
    let mut answer = v.scan(s, low, high);
    for _ in 0..9 {
        answer = follow(s, &v, answer, high);
    }
    write(b"\n");
}

fn scan_all(s: &[u8], v: View)
    requires { Readable s.now v }
{
    scan(s, v, Bound::Unbounded, Bound::Unbounded);
}

fn get(s: &[u8], v: &View, key: &[u8])
    requires { Readable s.now v.now }
{
    if let Some(p) = v.get(s, key) {
        write_pair(s, p);
    }
}

fn get_all(s: &[u8], v: View)
    requires { Readable s.now v }
{
    write(b"get");
    get(s, &v, b"");
    get(s, &v, b"fir");
    get(s, &v, b"fire");
    get(s, &v, b"oak");
    get(s, &v, b"yew");
    write(b"\n");
}

// Two runs, the first from `at` to `mid` and the second from there to `end`, and own writes from `own` to `stop`.
fn view(at: usize, mid: usize, end: usize, own: usize, stop: usize, read: u64) -> View
    ensures { result ≡ view_of at mid end own stop read }
{
    let mut cursors = [Cursor::NOWHERE; MOST_RUNS];
    cursors[0] = Cursor {
        at,
        end: mid,
        run: 0,
    };
    cursors[1] = Cursor {
        at: mid,
        end,
        run: 1,
    };
    View {
        cursors,
        runs: 2,
        own,
        stop,
        read,
    }
}

// The sheet's two runs at a read number.
fn plain(s: &[u8], read: u64) -> View
    requires { s.now ≡ sheet_bytes }
    ensures { Readable s.now result }
{
    view(0, 31, 79, 79, 79, read)
}

// With an own put of fir and an own delete of oak.
fn with_own(s: &[u8]) -> View
    requires { s.now ≡ sheet_bytes }
    ensures { Readable s.now result }
{
    view(0, 31, 79, 79, 94, 7)
}

// The two other runs.
fn other(s: &[u8]) -> View
    requires { s.now ≡ sheet_bytes }
    ensures { Readable s.now result }
{
    view(94, 110, 126, 126, 126, 4)
}

fn scan_at(s: &[u8], label: &[u8], read: u64)
    requires { s.now ≡ sheet_bytes }
{
    write(label);
    scan_all(s, plain(s, read));
}

fn scan_within(s: &[u8], label: &[u8], low: Bound<&[u8]>, high: Bound<&[u8]>)
    requires { s.now ≡ sheet_bytes }
{
    write(label);
    scan(s, plain(s, 4), low, high);
}

fn unbounded(s: &[u8])
    requires { s.now ≡ sheet_bytes }
{
    scan_at(s, b"P1", 1);
    scan_at(s, b"P2", 2);
    scan_at(s, b"P3", 4);
    scan_at(s, b"P4", 6);
    scan_at(s, b"P5", 7);
}

fn bounded(s: &[u8])
    requires { s.now ≡ sheet_bytes }
{
    scan_within(s, b"P6", Bound::Excluded(b"fir"), Bound::Included(b"oak"));
    scan_within(s, b"P7", Bound::Included(b"fir"), Bound::Excluded(b"oak"));
    scan_within(s, b"P8", Bound::Included(b"oak"), Bound::Included(b"fir"));
}

fn others(s: &[u8])
    requires { s.now ≡ sheet_bytes }
{
    write(b"P9");
    scan_all(s, other(s));
    write(b"P10");
    scan_all(s, with_own(s));
}

fn gets(s: &[u8])
    requires { s.now ≡ sheet_bytes }
{
    get_all(s, plain(s, 1));
    get_all(s, plain(s, 2));
    get_all(s, plain(s, 4));
    get_all(s, plain(s, 6));
    get_all(s, plain(s, 7));
    get_all(s, other(s));
    get_all(s, with_own(s));
}

fn cases(s: &[u8])
    requires { s.now ≡ sheet_bytes }
{
    unbounded(s);
    bounded(s);
    others(s);
    gets(s);
}

fn main() {
    let s =
        b"\x00\x03fir\x00\x00\x00\x00\x00\x00\x00\x05\x00\x00\x00\x03oak\x00\x00\x00\x00\x00\x00\x00\x07\x00\x01x\x00\x03fir\x00\x00\x00\x00\x00\x00\x00\x03\x00\x01p\x00\x03oak\x00\x00\x00\x00\x00\x00\x00\x04\x00\x01y\x00\x03yew\x00\x00\x00\x00\x00\x00\x00\x02\x00\x01z\x00\x03fir\x00\x01q\x00\x03oak\x00\x00\x00\x03oak\x00\x00\x00\x00\x00\x00\x00\x04\x00\x01a\x00\x03oak\x00\x00\x00\x00\x00\x00\x00\x04\x00\x01b";
    cases(s);
}
