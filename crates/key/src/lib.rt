// Keys with their timestamps, and the versions in bytes that they order.
#![tactic(auto)]

ghost use Rattle.std.specs.Prelude.{◌≡◌, true, drop};
ghost use Rattle.std.specs.Ordering.{nat_cmp, on, flip_args, as_partial_cmp};
ghost use Rattle.std.specs.Cmp.{partial_order_from_own_ties};
ghost use Rattle.std.specs.Cmp.Rules.{comparing};
ghost use Rattle.std.proofs.Common.{rules};
ghost use Rattle.paper.specs.Lists.{is_some};
ghost use Rattle.paper.specs.Keys.{cmp_version};
ghost use Rattle.paper.specs.Image.{one_record};
ghost use Rattle.raw.specs.Orders.{ordering};
ghost use Rattle.key.specs.Stamps.{range_begin, range_end, stamped};
ghost use Rattle.key.specs.Places.{Placed};
ghost use Rattle.key.specs.Versions.{version_at};

use std::cmp::Ordering;

// A key's timestamp. The key's bytes stand beside it, as a slice. Of the stamps of one key the later timestamp comes first.
#[derive(Clone, Copy, PartialEq, Eq)]
pub struct KeyStamp {
    pub time: u64,
}

// No derive: the later timestamp is the lesser.
impl Ord for KeyStamp {
    ghost cmp = { flip_args (on (λ k. k.time) nat_cmp) };

    ghost total = { Prim.search (comparing, rules) };

    ghost matches_partial_cmp = { Prim.search (comparing, rules) };

    ghost matches_eq = { Prim.search (comparing, rules) };

    fn cmp(&self, other: &KeyStamp) -> Ordering {
        other.time.cmp(&self.time)
    }
}

impl PartialOrd for KeyStamp {
    ghost partial_cmp = { as_partial_cmp (flip_args (on (λ k. k.time) nat_cmp)) };

    ghost laws = { partial_order_from_own_ties (Prim.search (comparing, rules)) (Prim.search (comparing, rules)) };

    fn partial_cmp(&self, other: &KeyStamp) -> Option<Ordering> {
        Some(self.cmp(other))
    }
}

impl KeyStamp {
    // Timestamps descend, so a key's range begins at the largest and ends at the smallest.
    pub const TS_RANGE_BEGIN: u64 = 18446744073709551615;

    pub const TS_RANGE_END: u64 = 0;

    pub fn new(time: u64) -> Self
        ensures { result.time ≡ time }
    {
        Self { time }
    }

    // The stamp of a key that comes before all others of the key, or is the first of them.
    pub fn for_range_begin() -> Self
        ensures { result.time ≡ range_begin }
    {
        Self::new(Self::TS_RANGE_BEGIN)
    }

    // The stamp of a key that comes after all others of the key, or is the last of them.
    pub fn for_range_end() -> Self
        ensures { result.time ≡ range_end }
    {
        Self::new(Self::TS_RANGE_END)
    }

    // As in the original's `key.rs`.
    pub fn ts(self) -> u64
        ensures { result ≡ self.time }
    {
        self.time
    }
}

// Where the parts of a version lie: its key from ks to ke, its value from vs to ve.
#[derive(Clone, Copy)]
pub struct Place {
    pub ks: usize,
    pub ke: usize,
    pub time: u64,
    pub vs: usize,
    pub ve: usize,
}

// The version whose record starts at `at`.
#[tactic(auto, using(crate::proofs::Records::here))]
pub fn version_at(s: &[u8], at: usize) -> Place
    requires { is_some (one_record (drop at s.now)) ≡ true }
    ensures { Placed s.now at result }
{
    let ks = at + 2;
    let ke = ks + raw::length_at(s, at);
    let time = raw::number::<8>(s, ke);
    let vs = ke + 10;
    let ve = vs + raw::length_at(s, ke + 8);
    Place {
        ks,
        ke,
        time,
        vs,
        ve,
    }
}

// Compares the version at `at` with a key at a stamp: key ascending, then timestamp descending.
pub fn compare_version_with(s: &[u8], at: usize, key: &[u8], stamp: KeyStamp) -> Ordering
    requires { is_some (one_record (drop at s.now)) ≡ true }
    ensures { ordering result ≡ cmp_version (version_at s.now at) (stamped key.now stamp) }
{
    let p = version_at(s, at);
    raw::compare(&s[p.ks..p.ke], key).then(KeyStamp::new(p.time).cmp(&stamp))
}

// Compares the versions at two offsets.
pub fn compare_versions(s: &[u8], a: usize, b: usize) -> Ordering
    requires { (is_some (one_record (drop a s.now)) ≡ true) × (is_some (one_record (drop b s.now)) ≡ true) }
    ensures { ordering result ≡ cmp_version (version_at s.now a) (version_at s.now b) }
{
    let q = version_at(s, b);
    compare_version_with(s, a, &s[q.ks..q.ke], KeyStamp::new(q.time))
}
