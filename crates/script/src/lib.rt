// The program `replay` as a function on slices: lines of a script in, lines of answers out, over an empty serializable store.
#![tactic(auto)]

ghost use Rattle.std.specs.Prelude.{◌≡◌, [], ℕ, ◌≤◌, length};
ghost use Rattle.std.proofs.Math.Option.{some};
ghost use Rattle.paper.specs.Keys.{Bytes};
ghost use Rattle.paper.specs.Bounds.{unbounded};
ghost use Rattle.paper.specs.Settings.{longest, state_length};
ghost use Rattle.paper.specs.Calls.{Call, opened};
ghost use Rattle.paper.specs.Replay.{pieces, lines_of, replay_settings, replayed};
ghost use Rattle.layout.specs.Layout.{store_in};
ghost use Rattle.lsm.specs.Edges.{bound_of};
ghost use Rattle.printing.specs.Shown.{shown};
ghost use Rattle.printing.specs.Shows.{Shows};
ghost use Rattle.script.specs.OnLines.{lines_on};
ghost use Rattle.script.specs.OnPages.{Answers, AnswersLine};

mod replies;

use printing::Page;
use settings::Settings;
use std::ops::Bound;
use words::{Command, Lines};

// 'script line not understood (program only; the next line is still read)'
const NOT_UNDERSTOOD: u64 = 13;

// ---- the calls, each with its answer behind the line number. The state and the page are two loans that each call takes anew: a struct of both would have to
// be given back after each.

fn begin(state: &mut [u8], page: &mut Page<'_>)
    ensures { Answers (some Call.begin) state.old page.old state.new page.new }
{
    let reply = store::begin(state);
    replies::begun(page, reply);
}

fn get(state: &mut [u8], handle: u64, key: &[u8], page: &mut Page<'_>)
    ensures { Answers (some (Call.get handle key.now longest)) state.old page.old state.new page.new }
{
    let mut value = [0u8; 65535];
    let reply = store::get(state, handle, key, &mut value);
    replies::got(page, reply, &value);
}

// The first pair above a key, or the first of all.
fn scan(state: &mut [u8], handle: u64, low: Bound<&[u8]>, page: &mut Page<'_>)
    ensures { Answers (some (Call.scan handle (bound_of low.entry) unbounded longest longest)) state.old page.old state.new page.new }
{
    let mut key = [0u8; 65535];
    let mut value = [0u8; 65535];
    let reply = store::scan(state, handle, low, Bound::Unbounded, &mut key, &mut value);
    replies::scanned(page, reply, &key, &value);
}

fn put(state: &mut [u8], handle: u64, key: &[u8], value: &[u8], page: &mut Page<'_>)
    ensures { Answers (some (Call.put handle key.now value.now)) state.old page.old state.new page.new }
{
    let reply = store::put(state, handle, key, value);
    replies::settled(page, reply);
}

fn delete(state: &mut [u8], handle: u64, key: &[u8], page: &mut Page<'_>)
    ensures { Answers (some (Call.delete handle key.now)) state.old page.old state.new page.new }
{
    let reply = store::delete(state, handle, key);
    replies::settled(page, reply);
}

fn commit(state: &mut [u8], handle: u64, page: &mut Page<'_>)
    ensures { Answers (some (Call.commit handle)) state.old page.old state.new page.new }
{
    let reply = store::commit(state, handle);
    replies::committed(page, reply);
}

fn end(state: &mut [u8], handle: u64, page: &mut Page<'_>)
    ensures { Answers (some (Call.end handle)) state.old page.old state.new page.new }
{
    let reply = store::end(state, handle);
    replies::settled(page, reply);
}

fn freeze(state: &mut [u8], page: &mut Page<'_>)
    ensures { Answers (some Call.freeze) state.old page.old state.new page.new }
{
    let reply = store::freeze(state);
    replies::settled(page, reply);
}

// ---- a line, and all of them

// One line of the script, without its LF: the call is made, and the line of its answer shown.
fn line(state: &mut [u8], line: &[u8], number: u64, page: &mut Page<'_>)
    ensures { AnswersLine number line.now state.old page.old state.new page.new }
{
    page.decimal(number);
    let Some(command) = words::understood(line) else {
        replies::only(page, NOT_UNDERSTOOD);
        return;
    };
    match command {
        Command::Begin => begin(state, page),
        Command::Get { handle, key } => get(state, handle, key, page),
        Command::Put { handle, key, value } => put(state, handle, key, value, page),
        Command::Delete { handle, key } => delete(state, handle, key, page),
        Command::First { handle } => scan(state, handle, Bound::Unbounded, page),
        Command::Above { handle, key } => scan(state, handle, Bound::Excluded(key), page),
        Command::Commit { handle } => commit(state, handle, page),
        Command::End { handle } => end(state, handle, page),
        Command::Freeze => freeze(state, page),
    }
}

// The lines of the input, one after the other; the first has the number 1.
fn lines(state: &mut [u8], input: &[u8], page: &mut Page<'_>)
    requires { length input.now ≤ 32768 }
    ensures { Shows page.old page.new (lines_on 1 state.old (lines_of (pieces 10 input.now))) }
{
    for (before, text) in (Lines { rest: input }).enumerate() {
        line(state, text, before as u64 + 1, page);
    }
}

// 'an empty serializable store: 4 transactions, each with 4,096 overlay bytes, 256 read and 64 write hashes; 256 history entries, 1,024 hashes; active run
// 8,192, run area 16,384'
fn open(state: &mut [u8])
    requires { state_length replay_settings ≤ length state.old }
    ensures { store_in state.new ≡ opened replay_settings [] }
{
    let settings = Settings {
        serializable: true,
        transactions: 4,
        overlay: 4096,
        reads: 256,
        writes: 64,
        entries: 256,
        hashes: 1024,
        active: 8192,
        area: 16384,
    };
    let _ = store::open(state, settings, b"", &[]);
}

// The whole run, from the input's bytes to the output's: 'at most 32,768 bytes (more: the single line `0 13`)'. The output stands at the front of `out`, as
// much of it as fits, and the reply is how many bytes that are.
pub fn replay(input: &[u8], out: &mut [u8]) -> usize
    ensures { ◌≡◌ {A = Bytes × ℕ} (out.new, result) (shown out.old 0 (replayed input.now)) }
{
    let mut page = Page { out, at: 0 };
    if 32768 < input.len() {
        page.text(b"0 13\n");
        return page.at;
    }
    let mut state = [0u8; 54776];
    open(&mut state);
    lines(&mut state, input, &mut page);
    page.at
}
