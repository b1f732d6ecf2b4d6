// Sets of hashes in lent bytes: 4 bytes a hash, big-endian, strictly rising, so that none stands in a set twice. A set is a
// slice and no type that says that it rises: each is read from a transaction's place or an entry for one question.
#![tactic(auto)]

ghost use Rattle.std.specs.Prelude.{◌≡◌, true, length, map, Err};
ghost use Prim.Native.Nat.{◌+◌, ◌*◌, ◌≤◌, ◌<◌, compare};
ghost use Rattle.paper.specs.Lists.{rises, insert, keep, first, among};
ghost use Rattle.paper.specs.Image.{number_from};
ghost use Rattle.paper.specs.Sound.{is_set};
ghost use Rattle.raw.specs.Bytes.{over};
ghost use Rattle.raw.specs.Options.{said};
ghost use Rattle.layout.specs.Layout.{hashes};
ghost use Rattle.sets.specs.Sets.{hashes_of, set_hashes, found_in};

// The hash in 4 bytes.
fn hash_of(bytes: &[u8; 4]) -> u64
    ensures value { result ≡ number_from 0 bytes.now }
    ensures fits { result < 4294967296 }
{
    u64::from(u32::from_be_bytes(*bytes))
}

// The hashes of a set, each in its 4 bytes.
fn set_hashes(set: &[u8]) -> &[[u8; 4]]
    ensures { map (λ b. number_from 0 b) result.now ≡ set_hashes set.now }
{
    set.as_chunks::<4>().0
}

// Whether the hashes rise strictly: 'sets without repeats' in one pass.
pub fn rising(set: &[u8]) -> bool
    ensures rises { result ≡ rises compare (set_hashes set.now) }
    ensures set { result ≡ is_set (set_hashes set.now) }
{
    set_hashes(set).is_sorted_by(|a, b| hash_of(a) < hash_of(b))
}

// Looks for h in a set by halves: `Ok` has its place, and `Err` the place before which it would stand.
pub fn find_hash(set: &[u8], h: u64) -> Result<usize, usize>
    requires { rises compare (set_hashes set.now) ≡ true }
    ensures { result ≡ found_in h (set_hashes set.now) }
{
    set_hashes(set).binary_search_by_key(&h, hash_of)
}

// Whether h is in a set.
pub fn among(set: &[u8], h: u64) -> bool
    requires { rises compare (set_hashes set.now) ≡ true }
    ensures { result ≡ among h (set_hashes set.now) }
{
    find_hash(set, h).is_ok()
}

// Puts h, which is not among the n hashes in front of a room, before the one at place i: those from there on move up by one. Behind the n hashes is room that
// is written, so the room is lent with their number.
pub fn insert_hash(room: &mut [u8], n: usize, i: usize, h: u64)
    requires { (4 * n + 4 ≤ length room.old) × (rises compare (hashes_of n room.old) ≡ true) × (Err i ≡ found_in h (hashes_of n room.old)) }
    ensures { room.new ≡ over room.old 0 (hashes.form (insert compare h (hashes_of n room.old))) }
{
    let place = 4 * i;
    raw::shift(room, place, place + 4, 4 * (n - i));
    raw::put_number::<4>(room, place, h);
}

// Puts h into the set of the n hashes in front of a room, where it may stand already, and tells how many hashes the set then has.
pub fn add_hash(room: &mut [u8], n: usize, h: u64) -> usize
    requires { (4 * n ≤ length room.old) × (rises compare (hashes_of n room.old) ≡ true) × (4 * length (insert compare h (hashes_of n room.old)) ≤ length room.old) }
    ensures { (result ≡ length (insert compare h (hashes_of n room.old))) × (room.new ≡ over room.old 0 (hashes.form (insert compare h (hashes_of n room.old)))) }
{
    match find_hash(&room[..4 * n], h) {
        Ok(_) => n,
        Err(gap) => {
            insert_hash(room, n, gap, h);
            n + 1
        }
    }
}

// The smallest hash of the set a that stands in the set b too: each of a's is looked for in b by halves, so a is best the one with fewer.
pub fn first_shared(a: &[u8], b: &[u8]) -> Option<u64>
    requires { rises compare (set_hashes b.now) ≡ true }
    ensures { said result ≡ first (keep (λ h. among h (set_hashes b.now)) (set_hashes a.now)) }
{
    set_hashes(a).iter().map(hash_of).find(|h| among(b, *h))
}
