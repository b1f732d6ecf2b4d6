// Output lines in a lent buffer: texts and decimal numbers, one behind the other. What does not fit is left out, so that no function here asks for room.
#![tactic(auto)]

ghost use Rattle.std.specs.Prelude.{◌≡◌, ◌∷◌};
ghost use Rattle.paper.specs.Replay.{decimal_of};
ghost use Rattle.printing.specs.Shows.{Shows};

// The lent buffer, and the index behind what is shown in it.
#[derive(Drop)]
pub struct Page<'a> {
    pub out: &'a mut [u8],
    pub at: usize,
}

impl Page<'_> {
    // Shows x.
    pub fn text(&mut self, x: &[u8])
        ensures { Shows self.old self.new x.now }
    {
        let at = self.at;
        if self.out.len() <= at {
            return;
        }
        let n = x.len().min(self.out.len() - at);
        raw::copy_at(self.out, at, &x[..n]);
        self.at = at + n;
    }

    // Shows the decimal digits of n.
    pub fn decimal(&mut self, n: u64)
        ensures { Shows self.old self.new (decimal_of n) }
    {
        self.text(itoa::Buffer::new().format(n).as_bytes());
    }

    // Shows one field more: 'One space between fields'.
    pub fn word(&mut self, x: &[u8])
        ensures { Shows self.old self.new (32 ∷ x.now) }
    {
        self.text(b" ");
        self.text(x);
    }

    // Shows one field more, a number.
    pub fn number(&mut self, n: u64)
        ensures { Shows self.old self.new (32 ∷ decimal_of n) }
    {
        self.text(b" ");
        self.decimal(n);
    }
}
