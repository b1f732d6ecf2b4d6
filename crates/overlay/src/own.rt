// The own writes that some bytes are.
ghost use Rattle.std.specs.Prelude.{◌≡◌, true};
ghost use Rattle.paper.specs.Keys.{octets};
ghost use Rattle.overlay.specs.Overlay.{is_overlay};

// One own write: a key, and the value that was written at it.
#[derive(Clone, Copy)]
pub struct Entry<'a> {
    pub key: &'a [u8],
    pub value: &'a [u8],
}

// The own writes that some bytes are: an iterator over them, from the first on. A lent slice says by itself that each of
// its numbers is below 256; here a ghost field says it.
#[derive(Clone, Copy)]
pub struct Own<'a> {
    pub bytes: &'a [u8],
    pub ghost octets: { octets bytes.now ≡ true },
    pub ghost whole: { is_overlay bytes.now ≡ true },
}

impl<'a> Own<'a> {
    // The own writes that the bytes are known to be.
    pub fn new(bytes: &'a [u8]) -> Own<'a>
        requires { is_overlay bytes.now ≡ true }
        ensures { result.bytes.now ≡ bytes.now }
    {
        Own { bytes }
    }
}
