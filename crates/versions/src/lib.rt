// What a commit does to the active run: 'each overlay entry becomes a version with that timestamp in the active run'.
// The run's records lie packed in the front of its room, and the own writes outside of it. `packed` is a clause and no type's fact: the same bytes are moved
// and written in one loan.
#![tactic(auto)]

ghost use Rattle.std.specs.Prelude.{◌≡◌, true, ◌+◌, ◌-◌, ◌≤◌, leb, length, take};
ghost use Rattle.paper.specs.Runs.{run_size};
ghost use Rattle.paper.specs.Image.{records_bytes};
ghost use Rattle.raw.specs.Bytes.{over};
ghost use Rattle.key.specs.Versions.{versions, packed};
ghost use Rattle.overlay.specs.Overlay.{pairs_in};
ghost use Rattle.versions.specs.Absorbing.{packed_in, versions_in, older, joined, grown, Parted};

use key::KeyStamp;
use overlay::Own;

// ---- room

// Whether so many bytes hold a run with own writes in it: '12 bytes plus key and value for each version'. An own write
// has 4 bytes beside key and value, and none takes the place of a version, so each needs 8 bytes more.
pub fn fits(records: &[u8], own: Own<'_>, number: u64, room: usize) -> bool
    requires { (packed records.now ≡ true) × (older number (versions records.now) ≡ true) }
    ensures { result ≡ leb (run_size (joined number (pairs_in own.entry.bytes.now) (versions records.now))) room }
{
    let used = records.len() + own.bytes.len();
    used <= room && own.count() <= (room - used) / 8
}

// ---- all of them

// Weaves own writes into the records from `from` on, and writes all from the front of their room on. The space in front
// of the records is what the own writes take, so nothing is overwritten before it is read: for each own write the
// records in front of its version move down, and the version goes behind them; those behind the last version stand
// right already.
fn weave(room: &mut [u8], from: usize, own: Own<'_>, number: u64)
    requires { (from ≤ length room.old) × (packed_in room.old from (length room.old) ≡ true) × (older number (versions_in room.old from (length room.old)) ≡ true) × (from ≡ grown (pairs_in own.bytes.now)) }
    ensures { room.new ≡ records_bytes (joined number (pairs_in own.entry.bytes.now) (versions_in room.old from (length room.old))) }
{
    let end = room.len();
    let mut at = 0;
    let mut rest = from;
    for entry in own {
        let place = run::seek::seek(room, rest, end, entry.key, KeyStamp::new(number));
        let passed = place - rest;
        raw::shift(room, rest, at, passed);
        run::write::put_record(room, at + passed, entry.key, number, entry.value);
        at += passed + (12 + entry.key.len() + entry.value.len());
        rest = place;
    }
}

// Where the first own write goes: the records in front of it stay where they are.
fn first_place(records: &[u8], mut own: Own<'_>, number: u64) -> usize
    requires { (packed records.now ≡ true) × (older number (versions records.now) ≡ true) }
    ensures { Parted records.now (pairs_in own.entry.bytes.now) number result }
{
    let end = records.len();
    let Some(first) = own.next() else {
        return end;
    };
    run::seek::seek(records, 0, end, first.key, KeyStamp::new(number))
}

// Makes each own write a version at the commit number in the run whose records are the first `used` bytes of its room,
// and returns how many bytes the run then takes. The records behind the first own write move up by what all take, and
// from there on down to their places: every byte is moved at most twice, and those behind the run's new end keep what
// they had.
pub fn absorb(room: &mut [u8], used: usize, own: Own<'_>, number: u64) -> usize
    requires { (used ≤ length room.old) × (packed (take used room.old) ≡ true) × (older number (versions (take used room.old)) ≡ true) × (run_size (joined number (pairs_in own.bytes.now) (versions (take used room.old))) ≤ length room.old) }
    ensures { (result ≡ run_size (joined number (pairs_in own.entry.bytes.now) (versions (take used room.old)))) × (room.new ≡ over room.old 0 (records_bytes (joined number (pairs_in own.entry.bytes.now) (versions (take used room.old))))) }
{
    let more = own.bytes.len() + 8 * own.count();
    let from = first_place(&room[..used], own, number);
    let end = used + more;
    raw::shift(room, from, from + more, used - from);
    weave(&mut room[from..end], more, own, number);
    end
}
