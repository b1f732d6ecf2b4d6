// One record at an offset, checked; and the order of versions at their places. A key and its stamp stand side by side, since the key is lent from elsewhere.
ghost use Rattle.std.specs.Prelude.{◌≡◌, ◌≤◌, length};
ghost use Rattle.paper.specs.Lists.{is_lt};
ghost use Rattle.paper.specs.Keys.{cmp_version};
ghost use Rattle.key.specs.Stamps.{stamped};
ghost use Rattle.key.specs.Places.{version_in};
ghost use Rattle.run.specs.Records.{Recorded, KeyIn};

use key::{KeyStamp, Place};

// The record at `at`, by the place of its parts; none where the bytes end before it does.
pub fn record_at(s: &[u8], at: usize) -> Option<Place>
    requires { at ≤ length s.now }
    ensures { Recorded s.now at (length s.now) result }
{
    let rest = (s.len() - at).checked_sub(12)?;
    let n = raw::length_at(s, at);
    let rest = rest.checked_sub(n)?;
    let ks = at + 2;
    let ke = ks + n;
    let time = raw::number::<8>(s, ke);
    let m = raw::length_at(s, ke + 8);
    if rest < m {
        return None;
    }
    let vs = ke + 10;
    let ve = vs + m;
    Some(Place {
        ks,
        ke,
        time,
        vs,
        ve,
    })
}

// Whether the version at p stands before a key at a stamp.
pub fn is_before(s: &[u8], p: Place, key: &[u8], stamp: KeyStamp) -> bool
    requires { KeyIn s.now p }
    ensures { result ≡ is_lt (cmp_version (version_in s.now p) (stamped key.now stamp)) }
{
    raw::compare(&s[p.ks..p.ke], key)
        .then(KeyStamp::new(p.time).cmp(&stamp))
        .is_lt()
}
