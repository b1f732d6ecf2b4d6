// Runs damaged states past the state check: a small sound state, every change of one of its bytes, every cut, and pseudo-random damage.
// A line for each group says how many states were checked, and how many of them were found sound.
#![tactic(auto)]

ghost use Rattle.std.specs.Prelude.{◌≤◌};

// Where the lines go: standard output, by its number.
const STDOUT_FILENO: i32 = 1;

// How many states were checked, and how many of them were sound.
#[derive(Clone, Copy, Default)]
struct Count {
    checked: u64,
    sound: u64,
}

impl Count {
    // One state more.
    fn judge(&mut self, state: &[u8]) {
        self.checked = self.checked.wrapping_add(1);
        if state::sound_state(state) {
            self.sound = self.sound.wrapping_add(1);
        }
    }
}

// Writes a text. Where the output takes nothing more, the run goes on all the same.
fn print(text: &[u8]) {
    io::write_all(STDOUT_FILENO, text);
}

// A text and a number behind it.
fn print_number(text: &[u8], n: u64) {
    print(text);
    io::print_decimal(STDOUT_FILENO, n);
}

fn report(name: &[u8], count: Count) {
    print(name);
    print_number(b": checked ", count.checked);
    print_number(b", sound ", count.sound);
    print(b"\n");
}

// ---- a sound state

// Writes x at `at`, where there is room.
fn text(s: &mut [u8], at: usize, x: &[u8]) {
    if at <= s.len() && x.len() <= s.len() - at {
        raw::copy_at(s, at, x);
    }
}

// Writes numbers of N bytes, each at its place.
fn numbers<const N: usize>(s: &mut [u8], places: &[(usize, u64)])
    requires { N ≤ 8 }
{
    for (at, v) in places {
        text(s, *at, &v.to_be_bytes()[8 - N..]);
    }
}

// Serializable; 3 transactions, each with 64 overlay bytes, 2 read and 2 write hashes; 2 history entries and 3 hashes; active run 64, run area 60.
// The clock is 5, the counter 3. The parts: rows at 88, history at 144, active run at 196, run area at 268, places at 464, 592 and 720, end at 848.
fn settings(s: &mut [u8]) {
    let fields = [1, 3, 64, 2, 2, 2, 3, 64, 60, 5, 3];
    for (i, v) in fields.iter().enumerate() {
        numbers::<8>(s, &[(8 * i, *v)]);
    }
}

// One reader at 3 and one at 4.
fn rows(s: &mut [u8]) {
    numbers::<8>(s, &[(88, 32), (96, 3), (104, 1), (112, 4), (120, 1)]);
}

// Commit 4 with the hash 9, and commit 5 with the hashes 7 and 9.
fn history(s: &mut [u8]) {
    numbers::<8>(s, &[(144, 44), (152, 4), (160, 4), (172, 5), (180, 8)]);
    numbers::<4>(s, &[(168, 9), (188, 7), (192, 9)]);
}

// A record of a key of three letters, with a value of one letter.
fn record(s: &mut [u8], key: &[u8; 3], time: u64, value: u8) {
    numbers::<2>(s, &[(0, 3), (13, 1)]);
    numbers::<8>(s, &[(5, time)]);
    text(s, 2, key);
    text(s, 15, &[value]);
}

// fir@4, oak@5, oak@4.
fn active(s: &mut [u8; 848]) {
    numbers::<8>(s, &[(196, 48)]);
    record(&mut s[204..], b"fir", 4, b'q');
    record(&mut s[220..], b"oak", 5, b'r');
    record(&mut s[236..], b"oak", 4, b's');
}

// The head of an image of one record, with the image's length in front.
fn head(s: &mut [u8]) {
    numbers::<8>(s, &[(0, 25)]);
    text(s, 8, b"RUN");
    numbers::<2>(s, &[(11, 1)]);
    numbers::<4>(s, &[(13, 1)]);
}

// oak@3, and behind it fir@2.
fn area(s: &mut [u8; 848]) {
    numbers::<8>(s, &[(268, 66)]);
    head(&mut s[276..]);
    record(&mut s[293..], b"oak", 3, b't');
    head(&mut s[309..]);
    record(&mut s[326..], b"fir", 2, b'u');
}

// Transaction 2, open, read number 3: it put elm and deleted oak, and read two hashes. Its overlay comes first, and last the hashes of its two keys, the
// smaller in front: that of elm.
fn first_place(s: &mut [u8]) {
    numbers::<8>(
        s,
        &[(464, 2), (472, 3), (480, 1), (488, 15), (560, 8), (576, 8)],
    );
    numbers::<2>(s, &[(496, 3), (501, 1), (504, 3), (509, 0)]);
    text(s, 498, b"elm");
    text(s, 503, b"v");
    text(s, 506, b"oak");
    numbers::<4>(s, &[(568, 4), (572, 6)]);
    let elm = u64::from(hash::hash32(b"elm"));
    let oak = u64::from(hash::hash32(b"oak"));
    numbers::<4>(s, &[(584, elm), (588, oak)]);
}

// Transaction 3, closed, read number 4: it read one hash. The place between the two is free.
fn last_place(s: &mut [u8]) {
    numbers::<8>(
        s,
        &[(720, 3), (728, 4), (736, 0), (744, 0), (816, 4), (832, 0)],
    );
    numbers::<4>(s, &[(824, 8)]);
}

fn build(s: &mut [u8; 848]) {
    s.fill(0);
    settings(s);
    rows(s);
    history(s);
    active(s);
    area(s);
    first_place(s);
    last_place(s);
}

// ---- damage

// Each byte from `from` to `to` changed to each of the 255 others, and then back.
fn changes(s: &mut [u8; 848], from: usize, to: usize) -> Count {
    let mut count = Count::default();
    for i in from..to.min(848) {
        for _ in 0..255 {
            s[i] = s[i].wrapping_add(1);
            count.judge(s);
        }
        s[i] = s[i].wrapping_add(1);
    }
    count
}

// Every cut.
fn cuts(s: &[u8]) -> Count {
    let mut count = Count::default();
    for end in 0..s.len() {
        count.judge(&s[..end]);
    }
    count
}

// The next pseudo-random number.
fn next(x: u64) -> u64 {
    (x % 2147483648 * 1103515245 + 12345) % 2147483648
}

// One byte, anywhere, becomes a small number.
fn strike(s: &mut [u8], x: u64) {
    let at = x / 128 % 848;
    let v = x / 268435456 % 8;
    text(s, at as usize, &[v as u8]);
}

// Four bytes so, of the sound state, n times.
fn struck(s: &mut [u8; 848], n: usize) -> Count {
    let mut count = Count::default();
    let mut x = 1;
    for _ in 0..n {
        build(s);
        for _ in 0..4 {
            x = next(x);
            strike(s, x);
        }
        count.judge(s);
    }
    count
}

// Every byte from `from` on becomes pseudo-random.
fn scatter(s: &mut [u8], from: usize, seed: u64) -> u64 {
    let mut x = seed;
    for byte in s.iter_mut().skip(from) {
        x = next(x);
        *byte = (x / 8388608 % 256) as u8;
    }
    x
}

fn scattered(s: &mut [u8; 848], from: usize, n: usize) -> Count {
    let mut count = Count::default();
    let mut x = 2;
    for _ in 0..n {
        build(s);
        x = scatter(s, from, x);
        count.judge(s);
    }
    count
}

// The parts of the state, each up to where the next begins.
fn parts(s: &mut [u8; 848]) {
    report(
        b"settings, clock and counter, one byte changed",
        changes(s, 0, 88),
    );
    report(b"reader rows", changes(s, 88, 144));
    report(b"history", changes(s, 144, 196));
    report(b"active run", changes(s, 196, 268));
    report(b"run area", changes(s, 268, 464));
    report(b"an open transaction", changes(s, 464, 592));
    report(b"a free place", changes(s, 592, 720));
    report(b"a closed transaction", changes(s, 720, 848));
}

fn main() {
    let mut state = [0u8; 848];
    let mut as_built = Count::default();
    build(&mut state);
    as_built.judge(&state);
    report(b"as built", as_built);
    parts(&mut state);
    report(b"cut short", cuts(&state));
    report(b"four bytes changed", struck(&mut state, 10000));
    report(b"all behind the settings", scattered(&mut state, 72, 10000));
    report(b"all bytes", scattered(&mut state, 0, 10000));
}
