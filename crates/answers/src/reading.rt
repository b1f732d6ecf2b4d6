// A whole scan and a get, each written as a line.
ghost use Rattle.std.specs.Prelude.{◌≡◌};
ghost use Rattle.lsm.specs.Pairs.{InBytes};
ghost use Rattle.lsm.specs.Answers.{InAnswer};
ghost use Rattle.lsm.specs.Views.{Readable};
ghost use Rattle.answers.specs.Packed.{list_bytes};

use lsm::answer::Span;
use lsm::view::View;
use std::ops::Bound;

fn write(bytes: &[u8]) {
    io::write_all(1, bytes);
}

fn write_value(s: &[u8], p: Span)
    requires { InBytes s.now p }
{
    write(b" ");
    write(p.value(s));
}

fn write_pair(s: &[u8], p: Span)
    requires { InBytes s.now p }
{
    write(b" ");
    write(p.key(s));
    write_value(s, p);
}

// Writes an answer and gives the next: 'from the same upper bound and the last key as an excluded lower bound'.
fn follow(s: &[u8], v: &View, answer: Option<Span>, high: Bound<&[u8]>) -> Option<Span>
    requires { Readable s.now v.now × InAnswer s.now answer }
    ensures { InAnswer s.now result }
{
    let p = answer?;
    write_pair(s, p);
    v.scan(s, Bound::Excluded(p.key(s)), high)
}

// The answers of a scan, seven at most: the list has six keys.
pub(crate) fn scan(s: &[u8], v: View, low: Bound<&[u8]>, high: Bound<&[u8]>)
    requires { Readable s.now v }
{
    write(b"scan");
    let mut answer = v.scan(s, low, high);
    for _ in 0..7 {
        answer = follow(s, &v, answer, high);
    }
    write(b"\n");
}

pub(crate) fn get(s: &[u8], v: View, key: &[u8])
    requires { Readable s.now v }
{
    write(b"get");
    if let Some(p) = v.get(s, key) {
        write_value(s, p);
    }
    write(b"\n");
}

// The runs alone.
pub(crate) fn plain(s: &[u8], read: u64) -> View
    requires { s.now ≡ list_bytes }
    ensures { Readable s.now result }
{
    crate::views::plain_view(read)
}

// With the own writes on top.
pub(crate) fn topped(s: &[u8], read: u64) -> View
    requires { s.now ≡ list_bytes }
    ensures { Readable s.now result }
{
    crate::views::topped_view(read)
}

// With the own writes on top of the runs in the opposite order.
pub(crate) fn turned(s: &[u8], read: u64) -> View
    requires { s.now ≡ list_bytes }
    ensures { Readable s.now result }
{
    crate::views::turned_view(read)
}
