// Functions for the comparison with the original Rust: a scan and a get over packed runs that a program in another language lends, and the verdict on
// an image. They are a test harness. The caller answers for the packed bytes, since nothing here checks them. It calls by the C interface, so a view
// comes as numbers, and so does what is told.
#![tactic(auto)]

ghost use Rattle.std.specs.Prelude.{◌≡◌, ◌+◌, ◌≤◌, ◌<◌, length};
ghost use Rattle.paper.specs.Seen.{seen, scanned};
ghost use Rattle.lsm.specs.Edges.{bound_by};
ghost use Rattle.lsm.specs.Answers.{Says, value_in, InAnswer};
ghost use Rattle.lsm.specs.Views.{versions_in, writes_in, Readable};
ghost use Rattle.probe.specs.Asked.{cursor_at, placed, view_of};
ghost use Rattle.paper.specs.Image.{verdict};
ghost use Rattle.probe.specs.Told.{code_of, numbers_of, Told, Value, verdict_number};

use lsm::answer::Span;
use lsm::bounds::bound_by;
use lsm::view::View;
use merge::heap::{Cursor, MOST_RUNS};
use run::BadImage;

// The cursor of run i, which lies from the number at 2 i to the number at 2 i + 1.
fn cursor_at(places: &[u64], i: usize) -> Cursor
    requires { i + i + 1 < length places.now }
    ensures { result ≡ cursor_at places.now i }
{
    let at = places[i + i];
    let end = places[i + i + 1];
    Cursor {
        at: at as usize,
        end: end as usize,
        run: i,
    }
}

fn cursors_of(places: &[u64]) -> [Cursor; MOST_RUNS]
    requires { 34 ≤ length places.now }
    ensures { result ≡ placed places.now 17 }
{
    let mut cursors = [Cursor::NOWHERE; MOST_RUNS];
    for (i, c) in cursors.iter_mut().enumerate() {
        *c = cursor_at(places, i);
    }
    cursors
}

fn view_of(places: &[u64], runs: usize, own: usize, stop: usize, read: u64) -> View
    requires { 34 ≤ length places.now }
    ensures { result ≡ view_of places.now runs own stop read }
{
    View {
        cursors: cursors_of(places),
        runs,
        own,
        stop,
        read,
    }
}

// Tells an answer by numbers.
fn tell(answer: Option<Span>, out: &mut [u64]) -> u64
    requires { 4 ≤ length out.old }
    ensures { (result ≡ code_of answer) × (out.new ≡ numbers_of answer out.old) }
{
    match answer {
        Some(p) => {
            out[0] = p.ks as u64;
            out[1] = p.ke as u64;
            out[2] = p.vs as u64;
            out[3] = p.ve as u64;
            1
        }
        None => 0,
    }
}

// One answer of a scan: 1 with the places of its key and its value in s, or 0 for the end.
#[unsafe(no_mangle)]
pub extern "C" fn probe_scan(
    s: &[u8],
    places: &[u64],
    runs: usize,
    own: usize,
    stop: usize,
    read: u64,
    low: u8,
    lo: &[u8],
    high: u8,
    hi: &[u8],
    out: &mut [u64],
) -> u64
    requires { (34 ≤ length places.now) × (4 ≤ length out.old) × Readable s.now (view_of places.now runs own stop read) }
    ensures { Told (Says s.now (scanned (writes_in s.now (view_of places.now runs own stop read)) (versions_in s.now (view_of places.now runs own stop read)) read (bound_by low lo.now) (bound_by high hi.now))) result out.old out.new }
{
    let v = view_of(places, runs, own, stop, read);
    let low = bound_by(u64::from(low), lo);
    let high = bound_by(u64::from(high), hi);
    tell(v.scan(s, low, high), out)
}

// A get: 1 with the place of the value in s, or 0 where the key is absent.
#[unsafe(no_mangle)]
pub extern "C" fn probe_get(
    s: &[u8],
    places: &[u64],
    runs: usize,
    own: usize,
    stop: usize,
    read: u64,
    key: &[u8],
    out: &mut [u64],
) -> u64
    requires { (34 ≤ length places.now) × (4 ≤ length out.old) × Readable s.now (view_of places.now runs own stop read) }
    ensures { Told (Value s.now (seen (writes_in s.now (view_of places.now runs own stop read)) (versions_in s.now (view_of places.now runs own stop read)) read key.now)) result out.old out.new }
{
    let v = view_of(places, runs, own, stop, read);
    tell(v.get(s, key), out)
}

// The verdict on an image by document 01's numbers: 0 for a good one, 10 or 11.
#[unsafe(no_mangle)]
pub extern "C" fn probe_verdict(image: &[u8]) -> u64
    ensures { result ≡ verdict_number (verdict image.now) }
{
    match run::image::verdict(image) {
        Ok(_) => 0,
        Err(BadImage::Broken) => 10,
        Err(BadImage::Foreign) => 11,
    }
}
