// What each call of the host answers: the call's values, or the refusal. A refusal names its cause; `number` gives document 01's number for it.
#![tactic(auto)]

ghost use Rattle.std.specs.Prelude.{◌≡◌};
ghost use Rattle.paper.specs.Refusals.{room_number, refusal_number};
ghost use Rattle.reply.specs.Told.{room_of, refusal_of, number_of};

// 'No room means exactly': each kind of room.
#[derive(Clone, Copy, Debug, PartialEq, Eq)]
pub enum Room {
    Places,
    Overlay,
    ReadSet,
    WriteSet,
    OutBuffer,
    History,
    ActiveRun,
    RunArea,
    ReaderTable,
    StateBuffer,
}

impl Room {
    // The number for a kind of room. Each kind has an arm, as in the document's table, which gives all of them one number.
    #[tactic(auto, unfolding(paper::specs::Refusals::room_number))]
    pub fn number(self) -> u64
        ensures { result ≡ room_number (room_of self) }
    {
        match self {
            Room::Places => 5,
            Room::Overlay => 5,
            Room::ReadSet => 5,
            Room::WriteSet => 5,
            Room::OutBuffer => 5,
            Room::History => 5,
            Room::ActiveRun => 5,
            Room::RunArea => 5,
            Room::ReaderTable => 5,
            Room::StateBuffer => 5,
        }
    }
}

// Why a call is refused. A conflict names its opponent: the commit's number, and the smallest hash shared with it. An opening run is told by its place,
// from 1.
#[derive(Clone, Copy, Debug, PartialEq, Eq)]
pub enum Refusal {
    EmptyKey,
    TooLong,
    NoHandle,
    Closed,
    NoRoom { room: Room },
    Conflict { number: u64, hash: u64 },
    CounterFull,
    Unsound,
    BadRun { place: usize },
    ForeignRun { place: usize },
    BadSetting,
}

impl Refusal {
    // The number for a refusal. The document has no 8 here, and one number for all rooms, so these are no discriminants.
    #[tactic(auto, unfolding(paper::specs::Refusals::refusal_number))]
    pub fn number(self) -> u64
        ensures { result ≡ refusal_number (refusal_of self) }
    {
        match self {
            Refusal::EmptyKey => 1,
            Refusal::TooLong => 2,
            Refusal::NoHandle => 3,
            Refusal::Closed => 4,
            Refusal::NoRoom { room } => room.number(),
            Refusal::Conflict { number: _, hash: _ } => 6,
            Refusal::CounterFull => 7,
            Refusal::Unsound => 9,
            Refusal::BadRun { place: _ } => 10,
            Refusal::ForeignRun { place: _ } => 11,
            Refusal::BadSetting => 12,
        }
    }
}

// ---- what is answered. An opening, a put, a delete, an end and a freeze answer nothing.

// A begin: the handle, and the number at which it reads.
#[derive(Clone, Copy, Debug, PartialEq, Eq)]
pub struct Begun {
    pub handle: u64,
    pub read: u64,
}

// A scan's pair: how many bytes key and value have that stand in the out buffers. A scan at its end answers `None`. So does a get where the key is
// absent, which else answers the length of the value in the out buffer; and a commit without writes, which else answers the number under which they are
// stored.
#[derive(Clone, Copy, Debug, PartialEq, Eq)]
pub struct PairLengths {
    pub key: usize,
    pub value: usize,
}

// The number for a reply: 0 for each answer.
pub fn number<T: Drop>(reply: Result<T, Refusal>) -> u64
    ensures { result ≡ number_of reply }
{
    match reply {
        Ok(_) => 0,
        Err(why) => why.number(),
    }
}
