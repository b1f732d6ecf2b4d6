// Where an answer lies.
ghost use Rattle.std.specs.Prelude.{◌≡◌};
ghost use Rattle.paper.specs.Lists.{is_lt};
ghost use Rattle.paper.specs.Keys.{cmp_key, same_key};
ghost use Rattle.lsm.specs.Pairs.{pair_at, InBytes};
ghost use Rattle.lsm.specs.Newest.{span_of, present_of};

use key::Place;

// A pair's place: its key from ks to ke, its value from vs to ve.
#[derive(Clone, Copy)]
pub struct Span {
    pub ks: usize,
    pub ke: usize,
    pub vs: usize,
    pub ve: usize,
}

impl Span {
    // The key that lies there.
    pub fn key(self, s: &[u8]) -> &[u8]
        requires { InBytes s.now self }
        ensures { result.now ≡ (pair_at s.now self).key }
    {
        &s[self.ks..self.ke]
    }

    // The value.
    pub fn value(self, s: &[u8]) -> &[u8]
        requires { InBytes s.now self }
        ensures { result.now ≡ (pair_at s.now self).value }
    {
        &s[self.vs..self.ve]
    }

    // Whether the pair has a key.
    pub fn has_key(self, s: &[u8], key: &[u8]) -> bool
        requires { InBytes s.now self }
        ensures { result ≡ same_key key.now (pair_at s.now self).key }
    {
        key == self.key(s)
    }

    // Whether the pair's key comes before another key.
    pub fn is_before(self, s: &[u8], key: &[u8]) -> bool
        requires { InBytes s.now self }
        ensures { result ≡ is_lt (cmp_key (pair_at s.now self).key key.now) }
    {
        raw::compare(self.key(s), key).is_lt()
    }

    // The pair, unless it is a deletion, whose value is empty.
    pub fn present(self) -> Option<Span>
        ensures { result ≡ present_of self }
    {
        (self.vs < self.ve).then_some(self)
    }
}

impl From<Place> for Span {
    ghost from_gives = { λ p r. r ≡ span_of p };

    fn from(p: Place) -> Span {
        Span {
            ks: p.ks,
            ke: p.ke,
            vs: p.vs,
            ve: p.ve,
        }
    }
}
