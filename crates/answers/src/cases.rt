// The fixed list of reads, four to a function. Written by oracle/fixed_list.py.
ghost use Rattle.std.specs.Prelude.{◌≡◌};
ghost use Rattle.answers.specs.Packed.{list_bytes};

use crate::reading::{get, plain, scan, topped, turned};
use std::ops::Bound;

pub(crate) fn groupa(s: &[u8])
    requires { s.now ≡ list_bytes }
{
    scan(s, plain(s, 3), Bound::Included(b""), Bound::Excluded(b"ab"));
    scan(
        s,
        topped(s, 4),
        Bound::Included(b"a"),
        Bound::Excluded(b"ab"),
    );
    get(s, turned(s, 5), b"b");
    scan(
        s,
        turned(s, 3),
        Bound::Included(b"a"),
        Bound::Included(b"fir"),
    );
}

pub(crate) fn groupb(s: &[u8])
    requires { s.now ≡ list_bytes }
{
    scan(s, turned(s, 5), Bound::Excluded(b"a"), Bound::Unbounded);
    get(s, topped(s, 2), b"oak");
    scan(
        s,
        plain(s, 3),
        Bound::Excluded(b"oak"),
        Bound::Excluded(b"oak"),
    );
    scan(s, topped(s, 5), Bound::Unbounded, Bound::Excluded(b"ab"));
}

pub(crate) fn groupc(s: &[u8])
    requires { s.now ≡ list_bytes }
{
    get(s, topped(s, 2), b"b");
    scan(s, topped(s, 3), Bound::Excluded(b"fire"), Bound::Unbounded);
    scan(s, topped(s, 1), Bound::Unbounded, Bound::Excluded(b"b"));
    get(s, topped(s, 3), b"oak");
}

pub(crate) fn groupd(s: &[u8])
    requires { s.now ≡ list_bytes }
{
    scan(s, topped(s, 5), Bound::Included(b"fire"), Bound::Unbounded);
    scan(s, plain(s, 3), Bound::Unbounded, Bound::Excluded(b"yew"));
    get(s, plain(s, 3), b"ab");
    scan(
        s,
        topped(s, 3),
        Bound::Included(b"fire"),
        Bound::Included(b"fire"),
    );
}

pub(crate) fn groupe(s: &[u8])
    requires { s.now ≡ list_bytes }
{
    scan(
        s,
        turned(s, 2),
        Bound::Excluded(b"fir"),
        Bound::Included(b"fire"),
    );
    get(s, topped(s, 2), b"oak");
    scan(s, topped(s, 1), Bound::Unbounded, Bound::Included(b"oak"));
    scan(s, topped(s, 2), Bound::Included(b"ab"), Bound::Unbounded);
}

pub(crate) fn groupf(s: &[u8])
    requires { s.now ≡ list_bytes }
{
    get(s, topped(s, 3), b"ab");
    scan(s, plain(s, 1), Bound::Unbounded, Bound::Included(b"oak"));
    scan(
        s,
        topped(s, 3),
        Bound::Excluded(b"ab"),
        Bound::Excluded(b"oak"),
    );
    get(s, turned(s, 3), b"fir");
}

pub(crate) fn groupg(s: &[u8])
    requires { s.now ≡ list_bytes }
{
    scan(
        s,
        topped(s, 4),
        Bound::Included(b""),
        Bound::Excluded(b"fire"),
    );
    scan(s, plain(s, 2), Bound::Unbounded, Bound::Unbounded);
    get(s, topped(s, 5), b"oak");
    scan(
        s,
        plain(s, 1),
        Bound::Included(b"fire"),
        Bound::Included(b"yew"),
    );
}

pub(crate) fn grouph(s: &[u8])
    requires { s.now ≡ list_bytes }
{
    scan(s, turned(s, 3), Bound::Unbounded, Bound::Unbounded);
    get(s, plain(s, 4), b"fire");
    scan(
        s,
        plain(s, 1),
        Bound::Excluded(b"ab"),
        Bound::Included(b"yew"),
    );
    scan(s, turned(s, 1), Bound::Unbounded, Bound::Included(b"a"));
}

pub(crate) fn groupi(s: &[u8])
    requires { s.now ≡ list_bytes }
{
    get(s, topped(s, 2), b"b");
    scan(s, turned(s, 4), Bound::Included(b"a"), Bound::Unbounded);
    scan(
        s,
        plain(s, 2),
        Bound::Included(b"fir"),
        Bound::Included(b"fire"),
    );
    get(s, topped(s, 5), b"fir");
}

pub(crate) fn groupj(s: &[u8])
    requires { s.now ≡ list_bytes }
{
    scan(s, plain(s, 3), Bound::Unbounded, Bound::Excluded(b"fire"));
    scan(
        s,
        plain(s, 4),
        Bound::Included(b"a"),
        Bound::Included(b"oak"),
    );
    get(s, plain(s, 1), b"a");
    scan(
        s,
        topped(s, 1),
        Bound::Excluded(b"ab"),
        Bound::Included(b"yew"),
    );
}

pub(crate) fn groupk(s: &[u8])
    requires { s.now ≡ list_bytes }
{
    scan(
        s,
        topped(s, 4),
        Bound::Included(b""),
        Bound::Excluded(b"fire"),
    );
    get(s, topped(s, 1), b"ab");
    scan(
        s,
        turned(s, 1),
        Bound::Included(b""),
        Bound::Excluded(b"ab"),
    );
    scan(s, topped(s, 5), Bound::Excluded(b""), Bound::Included(b"a"));
}

pub(crate) fn groupl(s: &[u8])
    requires { s.now ≡ list_bytes }
{
    get(s, topped(s, 4), b"oak");
    scan(s, topped(s, 4), Bound::Included(b""), Bound::Unbounded);
    scan(
        s,
        topped(s, 5),
        Bound::Included(b""),
        Bound::Included(b"ab"),
    );
    get(s, topped(s, 3), b"fire");
}
