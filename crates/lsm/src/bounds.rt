// Bounds of a scan, 'included, excluded or unbounded on each side, of any length, empty ones too'.
ghost use Rattle.std.specs.Prelude.{◌≡◌};
ghost use Rattle.paper.specs.Bounds.{above, below};
ghost use Rattle.lsm.specs.Edges.{bound_of, bound_by};

use std::ops::Bound;

// The bound of a kind that C tells by number: 0 is included, 1 excluded, and any other unbounded.
pub fn bound_by(kind: u64, key: &[u8]) -> Bound<&[u8]>
    ensures { bound_of result ≡ bound_by kind key.now }
{
    match kind {
        0 => Bound::Included(key),
        1 => Bound::Excluded(key),
        _ => Bound::Unbounded,
    }
}

// Whether a key is not above the upper bound. std's `contains` asks both bounds at once, and a walk asks them apart; and its `<` and `<=` on slices go
// byte by byte, where `compare` takes many bytes at a time.
pub fn is_below(high: Bound<&[u8]>, key: &[u8]) -> bool
    ensures { result ≡ below (bound_of high.entry) key.now }
{
    match high {
        Bound::Included(hi) => raw::compare(key, hi).is_le(),
        Bound::Excluded(hi) => raw::compare(key, hi).is_lt(),
        Bound::Unbounded => true,
    }
}

// Whether a key is not below the lower bound.
pub fn is_above(low: Bound<&[u8]>, key: &[u8]) -> bool
    ensures { result ≡ above (bound_of low.entry) key.now }
{
    match low {
        Bound::Included(lo) => raw::compare(lo, key).is_le(),
        Bound::Excluded(lo) => raw::compare(lo, key).is_lt(),
        Bound::Unbounded => true,
    }
}
