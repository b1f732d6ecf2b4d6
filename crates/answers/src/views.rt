// The packed bytes and the views of them. Written by oracle/fixed_list.py.
ghost use Rattle.std.specs.Prelude.{◌≡◌};
ghost use Rattle.answers.specs.Packed.{view_of, plain_view, topped_view, turned_view};

use lsm::view::View;
use merge::heap::{Cursor, MOST_RUNS};

// Five runs, and own writes from `own` to `stop`.
fn view(
    a: Cursor,
    b: Cursor,
    c: Cursor,
    d: Cursor,
    e: Cursor,
    own: usize,
    stop: usize,
    read: u64,
) -> View
    ensures { result ≡ view_of a b c d e own stop read }
{
    let mut cursors = [Cursor::NOWHERE; MOST_RUNS];
    cursors[0] = a;
    cursors[1] = b;
    cursors[2] = c;
    cursors[3] = d;
    cursors[4] = e;
    View {
        cursors,
        runs: 5,
        own,
        stop,
        read,
    }
}

pub(crate) fn plain_view(read: u64) -> View
    ensures { result ≡ plain_view read }
{
    view(
        Cursor {
            at: 0,
            end: 63,
            run: 0,
        },
        Cursor {
            at: 63,
            end: 128,
            run: 1,
        },
        Cursor {
            at: 128,
            end: 192,
            run: 2,
        },
        Cursor {
            at: 192,
            end: 250,
            run: 3,
        },
        Cursor {
            at: 250,
            end: 315,
            run: 4,
        },
        315,
        315,
        read,
    )
}

pub(crate) fn topped_view(read: u64) -> View
    ensures { result ≡ topped_view read }
{
    view(
        Cursor {
            at: 0,
            end: 63,
            run: 0,
        },
        Cursor {
            at: 63,
            end: 128,
            run: 1,
        },
        Cursor {
            at: 128,
            end: 192,
            run: 2,
        },
        Cursor {
            at: 192,
            end: 250,
            run: 3,
        },
        Cursor {
            at: 250,
            end: 315,
            run: 4,
        },
        315,
        336,
        read,
    )
}

pub(crate) fn turned_view(read: u64) -> View
    ensures { result ≡ turned_view read }
{
    view(
        Cursor {
            at: 250,
            end: 315,
            run: 0,
        },
        Cursor {
            at: 192,
            end: 250,
            run: 1,
        },
        Cursor {
            at: 128,
            end: 192,
            run: 2,
        },
        Cursor {
            at: 63,
            end: 128,
            run: 3,
        },
        Cursor {
            at: 0,
            end: 63,
            run: 4,
        },
        315,
        336,
        read,
    )
}
