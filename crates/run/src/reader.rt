// A run reader that holds the run's bytes and its place, and steps through the records.
ghost use Rattle.std.specs.Prelude.{◌≡◌, ◌-◌, length};
ghost use Rattle.std.specs.Iterator.{at_most};
ghost use Rattle.run.specs.Stepping.{step_at, after_at, Stepped};

use key::Place;

// The error of bytes that are no whole record.
#[derive(Clone, Copy, Debug, PartialEq, Eq)]
pub struct Cut;

#[derive(Clone, Copy)]
pub struct Reader<'a> {
    pub src: &'a [u8],
    pub at: usize,
}

impl<'a> Reader<'a> {
    // A reader of the run's bytes at a place.
    pub fn new(src: &'a [u8], at: usize) -> Self
        ensures { (result.src ≡ src.entry) × (result.at ≡ at) }
    {
        Self { src, at }
    }

    pub fn place(self) -> usize
        ensures { result ≡ self.entry.at }
    {
        self.at
    }

    // What stands at the reader's place: a version; nothing, because the bytes end there; or bytes that are no whole record.
    pub fn current(self) -> Option<Result<Place, Cut>>
        ensures { result ≡ step_at self.entry.src.now self.entry.at }
    {
        if self.src.len() <= self.at {
            return None;
        }
        Some(crate::record::record_at(self.src, self.at).ok_or(Cut))
    }

    // The place behind the version that stands there, or the end of the bytes where none does.
    pub fn after(self) -> usize
        ensures { result ≡ after_at self.entry.src.now self.entry.at }
    {
        // `_` would say too little of what stands there.
        match self.current() {
            Some(Ok(place)) => place.ve,
            Some(Err(Cut)) => self.src.len(),
            None => self.src.len(),
        }
    }

    // What follows the version that stands there.
    pub fn following(self) -> Option<Result<Place, Cut>>
        ensures { result ≡ step_at self.entry.src.now (after_at self.entry.src.now self.entry.at) }
    {
        Self::new(self.src, self.after()).current()
    }
}

// What stands at the reader's place, which goes one version further on.
impl<'a> Iterator for Reader<'a> {
    type Item = Result<Place, Cut>;

    ghost next_gives = { Stepped };

    ghost remaining = { λ r. at_most (length r.src.now - r.at) };

    fn next(&mut self) -> Option<Result<Place, Cut>> {
        let current = self.current();
        self.at = self.after();
        current
    }
}
