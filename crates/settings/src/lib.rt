// The opening settings: their ranges, the length of a state, where its parts lie, and the settings in its first 72 bytes.
#![tactic(auto)]

ghost use Rattle.std.specs.Prelude.{◌≡◌, true, ◌+◌, ◌-◌, ◌*◌, ◌^◌, ◌≤◌, ◌<◌, length};
ghost use Rattle.std.proofs.Math.Option.{some};
ghost use Rattle.paper.specs.Lists.{is_some};
ghost use Rattle.paper.specs.Settings.{range, in_range, in_ranges, state_length};
ghost use Rattle.raw.specs.Bytes.{part, over};
ghost use Rattle.layout.specs.Layout.{settings_stream, setting_numbers, settings_in};
ghost use Rattle.settings.specs.Opening.{settings_of, good_in, answered, front_numbers};
ghost use Rattle.settings.specs.Shapes.{shape_of};

// What a host sets at opening: the mode, how many transactions there may be and the room of each (overlay bytes, read hashes, write hashes),
// the history's entries and hashes, the bytes of the active run, and those of the run area.
#[derive(Clone, Copy)]
pub struct Settings {
    pub serializable: bool,
    pub transactions: u64,
    pub overlay: u64,
    pub reads: u64,
    pub writes: u64,
    pub entries: u64,
    pub hashes: u64,
    pub active: u64,
    pub area: u64,
}

// Where the parts of a state lie. The reader rows begin at 88; each part ends where the next begins: the rows at `history`,
// the history at `active`, the active run at `area`, the run area at `places`. Then come `count` places of `stride` bytes, and the state ends with them.
// The other numbers say how much there may be: overlay bytes, read and write hashes of a transaction, entries and hashes of the history.
#[derive(Clone, Copy)]
pub struct Shape {
    pub serializable: bool,
    pub count: usize,
    pub own: usize,
    pub reads: usize,
    pub writes: usize,
    pub entries: usize,
    pub hashes: usize,
    pub history: usize,
    pub active: usize,
    pub area: usize,
    pub places: usize,
    pub stride: usize,
}

// ---- ranges and lengths

// That settings are in range is asked of a caller, and no invariant of the type: a host gives any numbers, and `in_ranges` tells.

// Whether a number is in a range, as the paper's `in_range` has it.
fn within(v: u64, least: u64, most: u64) -> bool
    ensures { result ≡ in_range (range v least most) }
{
    (least..=most).contains(&v)
}

impl Settings {
    // Whether every setting is in its range; 12 is given where one is not.
    #[tactic(auto, unfolding(paper::specs::Settings::in_ranges, paper::specs::Settings::ranges, paper::specs::Lists::all))]
    pub fn in_ranges(self) -> bool
        ensures { result ≡ in_ranges (settings_of self) }
    {
        within(self.transactions, 1, 64)
            && within(self.overlay, 64, 1048576)
            && within(self.reads, 1, 65536)
            && within(self.writes, 1, 4096)
            && within(self.entries, 1, 4096)
            && within(self.hashes, 1, 65536)
            && within(self.active, 64, 1048576)
            && within(self.area, 9, 16777216)
    }

    // Where the settings put the parts. A list in its room has the number of its bytes in front, 8 bytes.
    #[tactic(auto, using(layout::proofs::SoundFits::ranged), unfolding(crate::specs::Shapes::shape_of))]
    pub fn shape(self) -> Shape
        requires { in_ranges (settings_of self) ≡ true }
        ensures { result ≡ shape_of (settings_of self) }
    {
        let count = self.transactions as usize;
        let own = self.overlay as usize;
        let reads = self.reads as usize;
        let writes = self.writes as usize;
        let entries = self.entries as usize;
        let hashes = self.hashes as usize;
        let history = 88 + (8 + 16 * count);
        let active = history + (8 + 16 * entries + 4 * hashes);
        let area = active + (8 + self.active as usize);
        let places = area + (136 + self.area as usize);
        let stride = 24 + (8 + own) + (8 + 4 * reads) + (8 + 4 * writes);
        Shape {
            serializable: self.serializable,
            count,
            own,
            reads,
            writes,
            entries,
            hashes,
            history,
            active,
            area,
            places,
            stride,
        }
    }

    // How many bytes a state has: its places are the last of them.
    pub fn state_length(self) -> u64
        requires { in_ranges (settings_of self) ≡ true }
        ensures { (result ≡ state_length (settings_of self)) × (result < 134217728) }
    {
        let shape = self.shape();
        (shape.places + shape.count * shape.stride) as u64
    }
}

impl Shape {
    // The reader rows in a state.
    pub fn rows_in(self, state: &[u8]) -> &[u8]
        requires { (88 ≤ self.history) × (self.history ≤ length state.now) }
        ensures { result.now ≡ part state.now 88 (self.history - 88) }
    {
        &state[88..self.history]
    }

    // The places in a state.
    pub fn places_in(self, state: &[u8]) -> &[u8]
        requires { self.places + self.count * self.stride ≤ length state.now }
        ensures { result.now ≡ part state.now self.places (self.count * self.stride) }
    {
        &state[self.places..][..self.count * self.stride]
    }

    // Where place i begins.
    pub fn place_at(self, i: usize) -> usize
        requires { self.places + i * self.stride < 2 ^ 64 }
        ensures { result ≡ self.places + i * self.stride }
    {
        self.places + i * self.stride
    }
}

// ---- the settings in a state

// The nine numbers in front of a state, as they stand there.
fn front_numbers(state: &[u8]) -> [u64; 9]
    requires { 72 ≤ length state.now }
    ensures { result ≡ front_numbers state.now }
{
    let mut numbers = [0; 9];
    for (i, n) in numbers.iter_mut().enumerate() {
        *n = raw::number::<8>(state, 8 * i);
    }
    numbers
}

impl Settings {
    // The settings in front of a state that has them.
    pub fn at(state: &[u8]) -> Settings
        requires { is_some (settings_in state.now) ≡ true }
        ensures { some (settings_of result) ≡ settings_in state.now }
    {
        let [
            mode,
            transactions,
            overlay,
            reads,
            writes,
            entries,
            hashes,
            active,
            area,
        ] = front_numbers(state);
        Settings {
            serializable: mode == 1,
            transactions,
            overlay,
            reads,
            writes,
            entries,
            hashes,
            active,
            area,
        }
    }

    // The settings in front of any buffer, if they are in their ranges and the buffer is long enough for them.
    pub fn read(state: &[u8]) -> Option<Settings>
        ensures { answered result ≡ good_in state.now }
    {
        if state.len() < 72 || 1 < raw::number::<8>(state, 0) {
            return None;
        }
        let st = Settings::at(state);
        let good = st.in_ranges() && st.state_length() <= state.len() as u64;
        good.then_some(st)
    }

    // The nine numbers as they stand in a state; the mode's is 1 where it is serializable.
    fn numbers(self) -> [u64; 9]
        ensures { result ≡ setting_numbers (settings_of self) }
    {
        [
            u64::from(self.serializable),
            self.transactions,
            self.overlay,
            self.reads,
            self.writes,
            self.entries,
            self.hashes,
            self.active,
            self.area,
        ]
    }

    // Writes the settings in front of a buffer; its other bytes stay.
    pub fn write(self, state: &mut [u8])
        requires { 72 ≤ length state.old }
        ensures { state.new ≡ over state.old 0 (settings_stream.put (settings_of self)) }
    {
        for (i, n) in self.numbers().iter().enumerate() {
            raw::put_number::<8>(state, 8 * i, *n);
        }
    }
}
