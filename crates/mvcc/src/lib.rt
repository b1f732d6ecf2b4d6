// The history of commits in lent bytes: its check, the opponent of a commit, and how an entry comes and others leave.
// An entry is its number in 8 bytes, the size of its hashes in 8 bytes, and its hashes, 4 bytes each.
#![tactic(auto)]

ghost use Rattle.std.specs.Prelude.{◌≡◌, true, MatchOption, [], ◌∷◌, ◌++◌, length, drop};
ghost use Rattle.std.specs.Iterator.{YieldsFirstBy, item_count};
ghost use Rattle.std.proofs.Math.Option.{none, some};
ghost use Prim.Native.Nat.{◌+◌, ◌*◌, ◌-◌, ◌%◌, ◌≤◌, compare};
ghost use Rattle.paper.specs.Lists.{is_some, rises};
ghost use Rattle.paper.specs.History.{Commit, make_commit, opponent};
ghost use Rattle.paper.specs.Store.{hash_count};
ghost use Rattle.paper.specs.Room.{history_fits};
ghost use Rattle.raw.specs.Bytes.{part, over};
ghost use Rattle.layout.specs.Layout.{commit_stream};
ghost use Rattle.sets.specs.Sets.{set_hashes};
ghost use Rattle.mvcc.specs.Histories.{history_read, history_in, is_history, history_bytes, limits, sound_read, commit_of, left_after, opposition_of, opponent_of, CutAt};

// An entry of a history: its number, and the set of its hashes.
#[derive(Clone, Copy)]
struct Entry<'a> {
    number: u64,
    hashes: &'a [u8],
}

// The entries of a history that are still to come.
#[derive(Drop)]
struct Entries<'a> {
    rest: &'a [u8],
    ghost whole: { is_some (history_read rest.now) ≡ true },
}

// What is left for the entries from some place on: the number before them, if they are not the first, and how many entries and hashes there may be.
#[derive(Clone, Copy)]
struct Left {
    last: Option<u64>,
    entries: usize,
    hashes: usize,
}

// What a commit is in conflict with: the number of another commit, and the smallest hash that they share.
#[derive(Clone, Copy, Debug, PartialEq, Eq)]
pub struct Conflict {
    pub number: u64,
    pub hash: u64,
}

// How many entries a history has, and how many hashes they have together.
#[derive(Clone, Copy, Debug, PartialEq, Eq)]
pub struct Tally {
    pub entries: usize,
    pub hashes: usize,
}

// ---- the entries

// The entry in front of some bytes and the bytes behind it, if they begin with one.
fn split_entry(history: &[u8]) -> Option<(Entry<'_>, &[u8])>
    ensures { MatchOption result (commit_stream.get history.now ≡ none) (λ p. commit_stream.get history.now ≡ some (commit_of p.0, p.1.now)) }
{
    let (head, rest) = history.split_at_checked(16)?;
    let size = raw::number::<8>(head, 8) as usize;
    let (hashes, behind) = rest.split_at_checked(size)?;
    let number = raw::number::<8>(head, 0);
    (size % 4 == 0).then_some((Entry { number, hashes }, behind))
}

impl<'a> Iterator for Entries<'a> {
    type Item = Entry<'a>;

    ghost next_gives = { YieldsFirstBy commit_of (λ s. history_in s.rest.now) };

    ghost remaining = { item_count (λ s. history_in s.rest.now) };

    fn next(&mut self) -> Option<Entry<'a>> {
        let (entry, behind) = split_entry(self.rest)?;
        self.rest = behind;
        Some(entry)
    }
}

// ---- the check

impl Left {
    // What is left behind an entry that keeps the state rules: 'history strictly rising; every commit number .. at or below the clock', a set of hashes, and within the room.
    fn after(self, clock: u64, entry: Entry<'_>) -> Option<Left>
        ensures { result ≡ left_after self clock (commit_of entry.entry) }
    {
        let entries = self.entries.checked_sub(1)?;
        let hashes = self.hashes.checked_sub(entry.hashes.len() / 4)?;
        let follows = self.last.is_none_or(|last| last < entry.number);
        // The hashes are walked last, and only where there is room for them.
        if !follows || clock < entry.number || !sets::rising(entry.hashes) {
            return None;
        }
        Some(Left {
            last: Some(entry.number),
            entries,
            hashes,
        })
    }
}

// Whether some bytes are a history that keeps the state rules, with so many entries and hashes at most.
pub fn history_check(history: &[u8], clock: u64, entries: usize, hashes: usize) -> bool
    ensures { result ≡ sound_read entries hashes clock (history_read history.now) }
{
    let mut rest = history;
    let mut left = Left {
        last: None,
        entries,
        hashes,
    };
    // A `for` over the entries would not tell whether it ended at the last one or at bytes that are no entry.
    while !rest.is_empty() {
        let Some((entry, behind)) = split_entry(rest) else {
            return false;
        };
        let Some(after) = left.after(clock, entry) else {
            return false;
        };
        rest = behind;
        left = after;
    }
    true
}

// ---- the opponent

impl Entry<'_> {
    // The entry as an opponent, where it is 'above the read timestamp' and has a hash of a read set.
    fn opposition(self, reads: &[u8], read: u64) -> Option<Conflict>
        requires { rises compare (set_hashes reads.now) ≡ true }
        ensures { opponent_of result ≡ opposition_of read (set_hashes reads.now) (commit_of self.entry) }
    {
        if self.number <= read {
            return None;
        }
        let hash = sets::first_shared(self.hashes, reads)?;
        Some(Conflict {
            number: self.number,
            hash,
        })
    }
}

// The first commit of a history above the read timestamp that shares a hash with a read set, and the smallest hash that they share.
pub fn opponent(history: &[u8], reads: &[u8], read: u64) -> Option<Conflict>
    requires { (is_history history.now ≡ true) × (rises compare (set_hashes reads.now) ≡ true) }
    ensures { opponent_of result ≡ opponent read (set_hashes reads.now) (history_in history.now) }
{
    Entries { rest: history }.find_map(|entry| entry.opposition(reads, read))
}

// ---- what leaves, and what comes

// Where the entries at or above the watermark begin: 'entries strictly below the watermark leave', and since the history rises they stand in front.
pub fn cut_below(history: &[u8], watermark: u64) -> usize
    requires { is_history history.now ≡ true }
    ensures { CutAt history.now watermark result }
{
    let mut stays = history;
    // What is wanted is the bytes that stay, which a `for` over the entries does not give.
    while let Some((entry, behind)) = split_entry(stays) {
        if watermark <= entry.number {
            break;
        }
        stays = behind;
    }
    history.len() - stays.len()
}

// How many entries a history has, and how many hashes: an entry is 16 bytes, and 4 for each hash.
pub fn counts(history: &[u8]) -> Tally
    requires { is_some (history_read history.now) ≡ true }
    ensures { (result.entries ≡ length (history_in history.now)) × (result.hashes ≡ hash_count (history_in history.now)) }
{
    let entries = Entries { rest: history }.count();
    Tally {
        entries,
        hashes: (history.len() - 16 * entries) / 4,
    }
}

// Whether there is room for a new entry with `count` hashes behind a history, which is what pruning leaves: 'history after pruning plus the new entry above a limit' is no room.
pub fn fits(history: &[u8], count: usize, entries: usize, hashes: usize) -> bool
    requires { is_some (history_read history.now) ≡ true }
    ensures { (c : Commit) → length c.hashes ≡ count → result ≡ history_fits (limits entries hashes) (history_in history.now ++ (c ∷ [])) }
{
    let kept = counts(history);
    kept.entries < entries && kept.hashes <= hashes && count <= hashes - kept.hashes
}

// Moves the entries from `cut` to `end` to the front of a room and writes a new one behind them; tells how many bytes the history then has.
// What stays moves within the one room, so `cut` and `end` are places in it.
pub fn enter(room: &mut [u8], cut: usize, end: usize, number: u64, hashes: &[u8]) -> usize
    requires { (cut ≤ end) × (end ≤ length room.old) × ((end - cut) + 16 + length hashes.now ≤ length room.old) × (length hashes.now % 4 ≡ 0) × (is_some (history_read (part room.old cut (end - cut))) ≡ true) }
    ensures { (result ≡ length (history_bytes (history_in (part room.old cut (end - cut)) ++ (make_commit number (set_hashes hashes.now) ∷ [])))) × (room.new ≡ over room.old 0 (history_bytes (history_in (part room.old cut (end - cut)) ++ (make_commit number (set_hashes hashes.now) ∷ [])))) }
{
    let stays = end - cut;
    raw::shift(room, cut, 0, stays);
    raw::put_number::<8>(room, stays, number);
    raw::put_number::<8>(room, stays + 8, hashes.len() as u64);
    raw::copy_at(room, stays + 16, hashes);
    stays + 16 + hashes.len()
}

// The same where the new entry's `count` hashes stand in the room themselves, from `from` on, behind all that is written.
pub fn enter_from(
    room: &mut [u8],
    cut: usize,
    end: usize,
    number: u64,
    from: usize,
    count: usize,
) -> usize
    requires { (cut ≤ end) × (end ≤ length room.old) × ((end - cut) + 16 + 4 * count ≤ from) × (from + 4 * count ≤ length room.old) × (is_some (history_read (part room.old cut (end - cut))) ≡ true) }
    ensures { (result ≡ length (history_bytes (history_in (part room.old cut (end - cut)) ++ (make_commit number (set_hashes (part room.old from (4 * count))) ∷ [])))) × (room.new ≡ over room.old 0 (history_bytes (history_in (part room.old cut (end - cut)) ++ (make_commit number (set_hashes (part room.old from (4 * count))) ∷ [])))) }
{
    let kept = end - cut;
    let size = 4 * count;
    raw::shift(room, cut, 0, kept);
    raw::put_number::<8>(room, kept, number);
    raw::put_number::<8>(room, kept + 8, size as u64);
    raw::shift(room, from, kept + 16, size);
    kept + 16 + size
}

#[cfg(test)]
mod tests {
    use super::*;

    // The history fills the room to its last byte, so the hashes can only come from elsewhere: an entry enters, one behind it, and one where the first leaves.
    #[test]
    fn entries_fill_the_room(rt: HostRuntime) {
        let of_5 = b"\0\0\0\0\0\0\0\x05\0\0\0\0\0\0\0\x08\0\0\0\x07\0\0\x01\0";
        let of_9 = b"\0\0\0\0\0\0\0\x09\0\0\0\0\0\0\0\x04\0\0\0\x02";
        let of_12 = b"\0\0\0\0\0\0\0\x0c\0\0\0\0\0\0\0\x04\0\0\0\x03";
        let mut room = [255u8; 44];
        assert_eq!(rt; enter(&mut room, 0, 0, 5, b"\0\0\0\x07\0\0\x01\0"), 24);
        assert!(rt; history_check(&room[..24], 5, 1, 2));
        assert_eq!(rt; enter(&mut room, 0, 24, 9, b"\0\0\0\x02"), 44);
        assert_eq!(rt; &room[..24], of_5.as_slice());
        assert_eq!(rt; &room[24..], of_9.as_slice());
        assert!(rt; history_check(&room[24..], 9, 1, 1));
        assert_eq!(rt; enter(&mut room, 24, 44, 12, b"\0\0\0\x03"), 40);
        assert_eq!(rt; &room[..20], of_9.as_slice());
        assert_eq!(rt; &room[20..40], of_12.as_slice());
    }
}
