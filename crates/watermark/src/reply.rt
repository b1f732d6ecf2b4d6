// What the calls of the reader table refuse. `specs/Table.antt` gives each refusal what it is in the paper, and so its number.
ghost use Rattle.std.specs.Prelude.{◌≡◌};
ghost use Rattle.watermark.specs.declared.reply.AddRefusal.TheVariants as add;
ghost use Rattle.watermark.specs.declared.reply.RemoveRefusal.TheVariants as remove;

// The table is not sound: timestamps that do not strictly rise, a count of 0, rows past the end.
#[derive(Clone, Copy, Debug, PartialEq, Eq)]
pub struct Unsound;

#[derive(Clone, Copy, Debug, PartialEq, Eq)]
pub enum AddRefusal {
    Unsound,
    // There is no room for a row more.
    Full,
    // The row counts as many readers as it can.
    CountFull,
}

impl From<Unsound> for AddRefusal {
    ghost from_gives = { λ _ r. r ≡ add.Unsound };

    fn from(_u: Unsound) -> Self {
        AddRefusal::Unsound
    }
}

#[derive(Clone, Copy, Debug, PartialEq, Eq)]
pub enum RemoveRefusal {
    Unsound,
    // Nobody reads there.
    Missing,
}

impl From<Unsound> for RemoveRefusal {
    ghost from_gives = { λ _ r. r ≡ remove.Unsound };

    fn from(_u: Unsound) -> Self {
        RemoveRefusal::Unsound
    }
}
