// The first record at or after a version.
ghost use Rattle.std.specs.Prelude.{◌≡◌, true, ◌-◌, ◌≤◌, length};
ghost use Rattle.raw.specs.Bytes.{part};
ghost use Rattle.key.specs.Stamps.{stamped};
ghost use Rattle.key.specs.Versions.{packed};
ghost use Rattle.run.specs.Seeking.{Sought};

use crate::places::Places;
use key::KeyStamp;

// Where the packed records from `from` to `end` begin to be at or after a key at a stamp. The answer is a place in the lent bytes, as both ends are.
pub fn seek(s: &[u8], from: usize, end: usize, key: &[u8], stamp: KeyStamp) -> usize
    requires { (from ≤ end) × (end ≤ length s.now) × (packed (part s.now from (end - from)) ≡ true) }
    ensures { Sought s.now from end (stamped key.now stamp) result }
{
    let records = &s[..end];
    for place in Places::new(records, from) {
        if !crate::record::is_before(records, place, key, stamp) {
            // A record begins with the length of its key, 16 bits.
            return place.ks - 2;
        }
    }
    end
}
