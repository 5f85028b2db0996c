// A number that no reason has: 0, or one above 15.
ghost use Rattle.std.specs.Prelude.{◌≡◌, false};
ghost use Rattle.reason.specs.Named.{is_named};

#[derive(Clone, Copy, Debug, PartialEq, Eq, Hash)]
pub struct Unnamed {
    number: u8,
    ghost unnamed: { is_named number ≡ false },
}

impl Unnamed {
    // The number.
    pub fn number(self) -> u8
        ensures { result ≡ self.number }
    {
        self.number
    }

    // A number that names no reason.
    pub(crate) fn of(number: u8) -> Unnamed
        requires { is_named number ≡ false }
        ensures { result.number ≡ number }
    {
        Unnamed { number }
    }
}
