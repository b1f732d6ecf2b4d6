// The cursors over a state's runs, for a read.
ghost use Rattle.std.specs.Prelude.{◌≡◌, true, length};
ghost use Rattle.paper.specs.Lists.{is_some};
ghost use Rattle.layout.specs.Layout.{images_whole};
ghost use Rattle.settings.specs.Parts.{or_empty};
ghost use Rattle.area.specs.Spread.{Sited, Spread};

use merge::heap::{Cursor, MOST_RUNS};

// The cursors of the runs in run order: the first `count` of them. There is no heap, so there is room for the most that a state has.
#[derive(Clone, Copy)]
pub struct Runs {
    pub cursors: [Cursor; MOST_RUNS],
    pub count: usize,
}

// How many images there are in the used bytes of a run area.
pub fn count_images(images: &[u8]) -> usize
    requires { is_some (images_whole.parse images.now) ≡ true }
    ensures { result ≡ length (or_empty (images_whole.parse images.now)) }
{
    let mut rest = images;
    let mut count = 0;
    // An image says how long it is, so where the next one begins is known behind it alone.
    while let Some((_, behind)) = crate::check::split_sized(rest) {
        rest = behind;
        count += 1;
    }
    count
}

// The cursors of a sound state's runs: 'the active run, frozen runs from newest to oldest, opening runs as given'. The image that lies first is the last
// in run order, and its records begin behind its head of 9 bytes. Cursors are places in the state, as `active` and `area` are.
pub fn cursors_of(state: &[u8], active: usize, area: usize) -> Runs
    requires { Sited state.now active area }
    ensures { Spread state.now result }
{
    let start = active + 8;
    let stop = start + raw::number::<8>(state, active) as usize;
    let mut at = area + 8;
    let end = at + raw::number::<8>(state, area) as usize;
    let n = count_images(&state[at..end]);
    let mut cursors = [Cursor {
        at: start,
        end: stop,
        run: 0,
    }; MOST_RUNS];
    for passed in 0..n {
        let from = at + 8;
        let next = from + raw::number::<8>(state, at) as usize;
        let rank = n - passed;
        cursors[rank] = Cursor {
            at: from + 9,
            end: next,
            run: rank,
        };
        at = next;
    }
    Runs {
        cursors,
        count: n + 1,
    }
}
