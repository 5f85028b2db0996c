// A page of lent bytes, printed on from its first place on, as far as it goes (`Puts` in specs/Page.antt).
ghost use Rattle.std.specs.Prelude.{◌≡◌, [], ◌∷◌};
ghost use Rattle.text.specs.Decimal.{decimal, spaced};
ghost use Rattle.text.specs.Page.{Puts};

// The bytes, and the place after those that are printed.
#[derive(Drop)]
pub struct Page<'a> {
    bytes: &'a mut [u8],
    at: usize,
}

impl<'a> Page<'a> {
    // A page that is printed on from this place on, inside the bytes or past their end.
    pub fn at(bytes: &'a mut [u8], at: usize) -> Page<'a>
        ensures value { (result.at ≡ at) × (result.bytes.now ≡ bytes.old) }
        ensures same_bytes { result.bytes.ghost_name ≡ bytes.entry.ghost_name }
    {
        Page { bytes, at }
    }

    // A page on which nothing is printed yet.
    pub fn new(bytes: &'a mut [u8]) -> Page<'a>
        ensures value { (result.at ≡ 0) × (result.bytes.now ≡ bytes.old) }
        ensures same_bytes { result.bytes.ghost_name ≡ bytes.entry.ghost_name }
    {
        Page { bytes, at: 0 }
    }

    // How many bytes are printed: the place after them.
    pub fn place(&self) -> usize
        ensures { result ≡ self.now.at }
    {
        self.at
    }

    // One byte.
    pub fn byte(&mut self, b: u8)
        ensures { Puts (b ∷ []) self.old self.new }
    {
        if self.at < self.bytes.len() {
            self.bytes[self.at] = b;
            self.at += 1;
        }
    }

    // The bytes of a word.
    pub fn word(&mut self, w: &[u8])
        ensures { Puts w.now self.old self.new }
    {
        for &b in w {
            self.byte(b);
        }
    }

    // A number in decimal: the digits above the last one first. By hand: `write!` would need `fmt::Write` for the page, and a law from `Display` to
    // `decimal`, which is longer.
    pub fn number(&mut self, x: usize)
        ensures { Puts (decimal x) self.old self.new }
    {
        if 10 <= x {
            self.number(x / 10);
        }
        self.byte(48 + (x % 10) as u8);
    }

    // A space and a number.
    pub fn spaced(&mut self, x: usize)
        ensures { Puts (spaced x) self.old self.new }
    {
        self.byte(32);
        self.number(x);
    }
}
