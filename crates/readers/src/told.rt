// The numbers that document 01 gives the replies.
ghost use Rattle.std.specs.Prelude.{◌≡◌, MatchResult};
ghost use Rattle.paper.specs.Refusals.{Refusal, unsound, refusal_number};
ghost use Rattle.watermark.specs.Table.{add_refused, remove_refused};

use watermark::reply::{AddRefusal, RemoveRefusal, Unsound};

// What a call may refuse, with its number.
pub trait Numbered {
    ghost refusal: { Self → Refusal };

    fn number(self) -> u64
        ensures { result ≡ refusal_number (refusal self) };
}

impl Numbered for AddRefusal {
    ghost refusal = { add_refused };

    #[tactic(auto, unfolding(paper::specs::Refusals::refusal_number, paper::specs::Refusals::room_number))]
    fn number(self) -> u64 {
        match self {
            AddRefusal::Unsound => 9,
            AddRefusal::Full => 5,
            AddRefusal::CountFull => 7,
        }
    }
}

impl Numbered for RemoveRefusal {
    ghost refusal = { remove_refused };

    #[tactic(auto, unfolding(paper::specs::Refusals::refusal_number))]
    fn number(self) -> u64 {
        match self {
            RemoveRefusal::Unsound => 9,
            RemoveRefusal::Missing => 8,
        }
    }
}

impl Numbered for Unsound {
    ghost refusal = { λ _. unsound };

    #[tactic(auto, unfolding(paper::specs::Refusals::refusal_number))]
    fn number(self) -> u64 {
        9
    }
}

// 0, or the number of the refusal.
pub fn number<T: Copy, E: Numbered + Copy>(reply: Result<T, E>) -> u64
    ensures { MatchResult reply (λ _. result ≡ 0) (λ why. result ≡ refusal_number (E.refusal why)) }
{
    match reply {
        Ok(_) => 0,
        Err(why) => why.number(),
    }
}
