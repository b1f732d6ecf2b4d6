// The check of a whole state: total on every content of the lent memory, one pass over the used bytes.
// 9, 'lent state breaks a state rule', is given exactly where it fails.
#![tactic(auto)]

ghost use Rattle.std.specs.Prelude.{◌≡◌, cond};
ghost use Rattle.std.proofs.Math.Option.{some};
ghost use Rattle.paper.specs.Lists.{hold_all};
ghost use Rattle.layout.specs.Offsets.{rows_part, history_part};
ghost use Rattle.layout.specs.Layout.{sound_state};
ghost use Rattle.settings.specs.Opening.{settings_of, good_in};
ghost use Rattle.settings.specs.Parts.{history_ok, rows_ok, parts_sound};
ghost use Rattle.settings.proofs.SoundParts.{Alone};
ghost use Rattle.state.specs.Whole.{run_rules, seats_ok, table_rules};
ghost use Rattle.state.specs.Lying.{Lies};

use settings::{Settings, Shape};
use txn::Rooms;

// A state with good settings in front, and where its parts lie.
#[derive(Clone, Copy)]
struct Parts<'a> {
    state: &'a [u8],
    st: Settings,
    shape: Shape,
    ghost good: { good_in state.now ≡ some (settings_of st) },
    ghost lies: { Lies state.now (settings_of st) shape },
}

impl<'a> Parts<'a> {
    fn new(state: &'a [u8], st: Settings) -> Parts<'a>
        requires { good_in state.now ≡ some (settings_of st) }
        ensures state { result.state.now ≡ state.now }
        ensures st { result.st ≡ st }
    {
        Parts {
            state,
            st,
            shape: st.shape(),
        }
    }

    // ---- the history

    // How many entries the history may have: 'in the other mode sets and history are empty'.
    fn entries(&self) -> usize
        ensures { result ≡ cond self.now.shape.serializable self.now.shape.entries 0 }
    {
        if self.shape.serializable {
            self.shape.entries
        } else {
            0
        }
    }

    // 'History strictly rising; every commit number .. at or below the clock', within its room.
    fn history_ok(&self, clock: u64) -> bool
        ensures { result ≡ history_ok (settings_of self.now.st) clock (history_part (settings_of self.now.st) self.now.state.now) }
    {
        let n = raw::number::<8>(self.state, self.shape.history);
        let from = self.shape.history + 8;
        if ((self.shape.active - from) as u64) < n {
            return false;
        }
        let history = &self.state[from..from + n as usize];
        mvcc::history_check(history, clock, self.entries(), self.shape.hashes)
    }

    // ---- the runs

    // 'Every .. version at or below the clock; runs sound; active versions newer than all in other runs', within their room.
    fn runs_ok(&self, clock: u64) -> bool
        ensures { result ≡ hold_all (run_rules (settings_of self.now.st) clock self.now.state.now) }
    {
        let active = &self.state[self.shape.active..self.shape.area];
        let Some(active) = area::check::active_check(active, clock) else {
            return false;
        };
        let frozen = &self.state[self.shape.area..self.shape.places];
        let Some(others) = area::check::area_check(frozen, clock) else {
            return false;
        };
        area::check::newer(active.tally, others)
    }

    // ---- the transactions

    // Each place is free, or its transaction keeps the rules of one.
    fn places_ok(&self, counter: u64, clock: u64) -> bool
        ensures { result ≡ seats_ok (settings_of self.now.st) counter clock self.now.state.now }
    {
        let rooms = Rooms::from(self.shape);
        let places = self.shape.places_in(self.state);
        places
            .chunks_exact(self.shape.stride)
            .all(|place| rooms.place_check(place, counter, clock))
    }

    // Whether the reader rows read: the used bytes are within their part, and rows fill them.
    fn rows_ok(&self) -> bool
        ensures { result ≡ rows_ok (settings_of self.now.st) (rows_part (settings_of self.now.st) self.now.state.now) }
    {
        table::rows_read(self.shape.rows_in(self.state))
    }

    // 'Handles distinct', and 'reader rows rise strictly and count exactly the transactions', where every part keeps its own rules.
    fn table_ok(&self) -> bool
        requires { Alone (settings_of self.now.st) self.now.state.now }
        ensures { result ≡ hold_all (table_rules (settings_of self.now.st) self.now.state.now) }
    {
        let rows = self.shape.rows_in(self.state);
        let places = self.shape.places_in(self.state);
        table::distinct_handles(places, self.shape.stride)
            && table::rows_match(rows, places, self.shape.stride)
    }

    // ---- the state

    // Every rule of the parts, and those that tie them together.
    fn sound(&self) -> bool
        ensures { result ≡ parts_sound (settings_of self.now.st) self.now.state.now }
    {
        let clock = raw::number::<8>(self.state, 72);
        let counter = raw::number::<8>(self.state, 80);
        self.rows_ok()
            && self.history_ok(clock)
            && self.places_ok(counter, clock)
            && self.runs_ok(clock)
            && self.table_ok()
    }
}

// Whether a state is sound, whatever the lent memory holds.
pub fn sound_state(state: &[u8]) -> bool
    ensures { result ≡ sound_state state.now }
{
    Settings::read(state).is_some_and(|st| Parts::new(state, st).sound())
}
