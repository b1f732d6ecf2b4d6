// The check of one place: its bytes read, and a transaction in it keeps the state rules. One pass over the used bytes.
ghost use Rattle.std.specs.Prelude.{◌≡◌, true, false, ◌&&◌, length};
ghost use Prim.Native.Nat.{◌+◌, ◌*◌, ◌≤◌, compare};
ghost use Rattle.paper.specs.Lists.{rises};
ghost use Rattle.paper.specs.Sound.{own_hashes, same_numbers};
ghost use Rattle.overlay.specs.Overlay.{pairs_in};
ghost use Rattle.sets.specs.Sets.{set_hashes};
ghost use Rattle.txn.specs.Place.{settings_of, stride_of, reads_at, writes_at};
ghost use Rattle.txn.specs.Checks.{place_sound, head_sound, own_sound, set_sound, parts_sound};

use super::{ENTRIES, MARK, OVERLAY, READ, Rooms, own, set, used_at};
use overlay::Own;

// "handles .. from 1 to the counter", "every .. read number .. at or below the clock"; the mark is 0 or 1.
#[tactic(auto, using(crate::proofs::Judging::head_is))]
fn head_check(place: &[u8], handle: u64, counter: u64, clock: u64) -> bool
    requires { 24 ≤ length place.now }
    ensures { result ≡ head_sound handle counter clock place.now }
{
    raw::number::<8>(place, MARK) <= 1
        && 1 <= handle
        && handle <= counter
        && raw::number::<8>(place, READ) <= clock
}

// "sets without repeats; .. in the other mode sets .. are empty": the set at an index, with room for so many hashes.
fn set_check(place: &[u8], at: usize, count: usize, serializable: bool) -> bool
    requires { at + (8 + 4 * count) ≤ length place.now }
    ensures { result ≡ set_sound serializable count at place.now }
{
    let used = used_at(place, at);
    let start = at + 8;
    used <= 4 * count
        && used % 4 == 0
        && (serializable || used == 0)
        && sets::rising(&place[start..start + used])
}

// Whether a set holds exactly the hashes of the keys of some own writes: each key's hash is looked up and its place
// marked; two keys may share a hash, so the places that are newly marked count.
fn writes_match(own: Own<'_>, set: &[u8]) -> bool
    requires { (rises compare (set_hashes set.now) ≡ true) × (length set.now ≤ 16384) }
    ensures { result ≡ same_numbers (set_hashes set.now) (own_hashes (pairs_in own.entry.bytes.now)) }
{
    let mut hits = [false; 4096];
    let mut count = 0;
    for entry in own {
        let Ok(i) = sets::find_hash(set, u64::from(hash::hash32(entry.key))) else {
            return false;
        };
        count += usize::from(!hits[i]);
        hits[i] = true;
    }
    count == set.len() / 4
}

impl Rooms {
    // "overlays strictly rising and within room".
    fn own_check(self, place: &[u8]) -> bool
        requires { length place.now ≡ stride_of self }
        ensures { result ≡ own_sound (settings_of false self) place.now }
    {
        let used = used_at(place, OVERLAY);
        used <= self.own && overlay::check(&place[ENTRIES..ENTRIES + used])
    }

    // The parts one by one.
    #[tactic(auto, unfolding(crate::specs::Checks::parts_sound, crate::specs::Checks::own_sound))]
    fn parts_check(self, place: &[u8], handle: u64, counter: u64, clock: u64) -> bool
        requires { length place.now ≡ stride_of self }
        ensures { result ≡ parts_sound (settings_of self.serializable self) handle counter clock place.now }
    {
        head_check(place, handle, counter, clock)
            && self.own_check(place)
            && set_check(place, self.reads_at(), self.reads, self.serializable)
            && set_check(place, self.writes_at(), self.writes, self.serializable)
    }

    // Whether a place of the stride's length reads, and keeps every rule of a transaction if there is one in it.
    pub fn place_check(self, place: &[u8], counter: u64, clock: u64) -> bool
        requires { (length place.now ≡ stride_of self) × (self.writes ≤ 4096) }
        ensures { result ≡ place_sound (settings_of self.serializable self) counter clock place.now }
    {
        let handle = raw::number::<8>(place, 0);
        handle == 0
            || self.parts_check(place, handle, counter, clock)
                && (!self.serializable
                    || raw::number::<8>(place, MARK) == 0
                    || writes_match(own(place), set(place, self.writes_at())))
    }
}
