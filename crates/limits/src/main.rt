// Runs the calls of the host at the paper's limits of length and of runs: 'lengths 65,535 pass and 65,536 give 2; 16 and 17 runs'. Each line has what was
// asked and the number returned.
#![tactic(auto)]

use reply::Refusal;
use settings::Settings;

// Where the lines go: standard output, by its number.
const STDOUT_FILENO: i32 = 1;

// ---- what is printed

// Writes a text. Where the output takes nothing more, the run goes on all the same.
fn print(text: &[u8]) {
    io::write_all(STDOUT_FILENO, text);
}

// A text and a number behind it.
fn print_number(text: &[u8], n: u64) {
    print(text);
    io::print_decimal(STDOUT_FILENO, n);
}

fn line<T: Drop>(what: &[u8], reply: Result<T, Refusal>) {
    print(what);
    print_number(b": ", reply::number(reply));
    print(b"\n");
}

fn line_of_length(what: &[u8], got: Result<Option<usize>, Refusal>) {
    match got {
        Ok(Some(length)) => {
            print(what);
            print_number(b": 0, a value of ", length as u64);
            print(b" bytes\n");
        }
        _ => line(what, got),
    }
}

// ---- a store with room for the longest key and value

fn roomy() -> Settings {
    Settings {
        serializable: true,
        transactions: 1,
        overlay: 131074,
        reads: 4,
        writes: 4,
        entries: 32,
        hashes: 32,
        active: 131082,
        area: 262144,
    }
}

// The handle of a new transaction, 0 where there is none.
fn begun(state: &mut [u8]) -> u64 {
    store::begin(state).map_or(0, |new| new.handle)
}

// 'Key or value longer than 65,535 (get, put, delete)'.
fn writes(state: &mut [u8], handle: u64, letters: &[u8], longest: &[u8]) {
    let put = store::put(state, handle, longest, longest);
    line(b"put a key and a value of 65,535 bytes", put);
    let put = store::put(state, handle, letters, b"v");
    line(b"put a key of 65,536 bytes", put);
    let put = store::put(state, handle, b"k", letters);
    line(b"put a value of 65,536 bytes", put);
    let deleted = store::delete(state, handle, letters);
    line(b"delete a key of 65,536 bytes", deleted);
}

fn gets(state: &mut [u8], handle: u64, letters: &[u8], longest: &[u8], out: &mut [u8]) {
    let got = store::get(state, handle, longest, out);
    line_of_length(b"get the key of 65,535 bytes", got);
    let got = store::get(state, handle, letters, out);
    line_of_length(b"get a key of 65,536 bytes", got);
}

// Key and value become a version, and that an image.
fn stored(state: &mut [u8], handle: u64) {
    line(b"commit them", store::commit(state, handle));
    line(b"end", store::end(state, handle));
    line(b"freeze them", store::freeze(state));
}

// ---- runs

// One version more, which is then frozen.
fn frozen(state: &mut [u8]) -> Result<(), Refusal> {
    let handle = begun(state);
    store::put(state, handle, b"k", b"v")?;
    store::commit(state, handle)?;
    store::end(state, handle)?;
    store::freeze(state)
}

fn freezes(state: &mut [u8]) {
    for place in 1..=17 {
        let reply = frozen(state);
        print_number(b"freeze run ", place);
        line(b"", reply);
    }
}

fn open(state: &mut [u8], what: &[u8], images: &[u8], lengths: &[u64]) {
    line(what, store::open(state, roomy(), images, lengths));
}

// ---- all of it

fn run(state: &mut [u8], out: &mut [u8]) {
    let letters = [107u8; 65536];
    let longest = &letters[..65535];
    // 17 images without a record, one after the other.
    let mut images = [0u8; 153];
    for image in images.chunks_exact_mut(9) {
        image.copy_from_slice(b"RUN\0\x01\0\0\0\0");
    }
    let lengths = [9u64; 17];
    open(state, b"open without runs", &images, &[]);
    let handle = begun(state);
    writes(state, handle, &letters, longest);
    gets(state, handle, &letters, longest, out);
    stored(state, handle);
    open(state, b"open anew without runs", &images, &[]);
    freezes(state);
    open(state, b"open with 16 runs", &images, &lengths[..16]);
    open(state, b"open with 17 runs", &images, &lengths);
}

fn main() {
    let mut state = [0u8; 600000];
    let mut out = [0u8; 65536];
    run(&mut state, &mut out);
}
