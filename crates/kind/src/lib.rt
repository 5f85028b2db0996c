// The kinds of barrier, by name. Their numbers are defined in specs/Numbers.antt: a caller gives a number, and code matches on the kind.
#![tactic(auto)]

ghost use Rattle.std.specs.Prelude.{◌≡◌, ◌<◌, MatchResult};
ghost use Rattle.kind.specs.Numbers.{kind_number};

use reason::{Reason, Refusal};

// The kinds, in the order of their numbers, 0 to 4.
#[derive(Clone, Copy, Debug, PartialEq, Eq, Hash)]
pub enum Kind {
    Symmetric,
    Increment,
    Ring,
    Tree,
    Centralized,
}

impl TryFrom<usize> for Kind {
    type Error = Refusal;

    // 2 where there is no such kind.
    ghost try_from_gives = { λ n r. MatchResult r (λ k. kind_number k ≡ n) (λ e. (e ≡ 2) × (4 < n)) };

    fn try_from(number: usize) -> Result<Kind, Refusal> {
        match number {
            0 => Ok(Kind::Symmetric),
            1 => Ok(Kind::Increment),
            2 => Ok(Kind::Ring),
            3 => Ok(Kind::Tree),
            4 => Ok(Kind::Centralized),
            _ => Err(Reason::Kind.into()),
        }
    }
}

impl Kind {
    // The kind's number; inlined, since the range of each task asks for several.
    #[inline(always)]
    pub fn number(self) -> usize
        ensures { result ≡ kind_number self }
    {
        self as usize
    }
}
