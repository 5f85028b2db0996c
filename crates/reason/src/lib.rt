// Why a call is refused: a reason, the refusal that names one, and for a list of turns its place. The reasons' numbers are defined in
// specs/Numbers.antt. A contract sees a refusal as its number.
#![tactic(auto)]

ghost use Rattle.std.specs.Prelude.{◌≡◌, eqb};
ghost use Rattle.reason.specs.Numbers.{number_of};
ghost use Rattle.reason.specs.Placed.{placed};

use std::error::Error;
use std::fmt;
use std::marker::Model;
use unnamed::Unnamed;

pub mod unnamed;

// The reasons, in the order of their numbers, 1 to 15; and what a refusal is for that has another number. No call of these libraries answers one, but a
// caller may hand one in.
#[derive(Clone, Copy, Debug, PartialEq, Eq, Hash)]
pub enum Reason {
    Text,
    Kind,
    Count,
    Modulus,
    TableLength,
    Parent,
    Range,
    ScheduleLength,
    Task,
    Room,
    CountLimit,
    Starts,
    TallyLimit,
    TraceLength,
    Works,
    Unnamed(Unnamed),
}

impl fmt::Display for Reason {
    fn fmt<W: fmt::Write>(&self, f: &mut fmt::Formatter<W>) -> fmt::Result {
        f.write_str(match self {
            Reason::Text => "the text cannot be read",
            Reason::Kind => "there is no such kind, or no such shape",
            Reason::Count => "there are not 1 to 64 tasks",
            Reason::Modulus => "R is not one that the kind takes",
            Reason::TableLength => "the table of parents has a wrong length",
            Reason::Parent => "an entry of the table of parents is not a lower task",
            Reason::Range => "a field of the state is out of range",
            Reason::ScheduleLength => "there are too many turns",
            Reason::Task => "there is no such task",
            Reason::Room => "a lent buffer is too short",
            Reason::CountLimit => "the count is at its limit",
            Reason::Starts => "the table of starts is wrong",
            Reason::TallyLimit => "the tally is at its limit",
            Reason::TraceLength => "the trace is not made of whole turns",
            Reason::Works => "the table of work lengths is wrong",
            Reason::Unnamed(_) => "no reason has this number",
        })
    }
}

impl Reason {
    // The number of the reason.
    pub fn number(self) -> u8
        ensures { result ≡ number_of self }
    {
        match self {
            Reason::Text => 1,
            Reason::Kind => 2,
            Reason::Count => 3,
            Reason::Modulus => 4,
            Reason::TableLength => 5,
            Reason::Parent => 6,
            Reason::Range => 7,
            Reason::ScheduleLength => 8,
            Reason::Task => 9,
            Reason::Room => 10,
            Reason::CountLimit => 11,
            Reason::Starts => 12,
            Reason::TallyLimit => 13,
            Reason::TraceLength => 14,
            Reason::Works => 15,
            Reason::Unnamed(other) => other.number(),
        }
    }
}

// A refusal, for the reason of a number. Kept as the number, which callers are told and may hand in.
#[derive(Clone, Copy, Debug, PartialEq, Eq, Hash)]
pub struct Refusal {
    number: u8,
}

impl Model for Refusal {
    ghost use Rattle.std.specs.Prelude.{ℕ, refl};

    ghost Value = { ℕ };

    ghost view = { λ a. a.number };

    ghost inverse = { λ k. record { number = k } };

    ghost inverse_ok = { λ a h. refl };
}

impl From<Reason> for Refusal {
    ghost from_gives = { λ reason refusal. refusal ≡ number_of reason };

    fn from(reason: Reason) -> Refusal {
        Refusal {
            number: reason.number(),
        }
    }
}

// Of any number, since a caller may hand one in.
impl From<u8> for Refusal {
    ghost from_gives = { λ number refusal. refusal ≡ number };

    fn from(number: u8) -> Refusal {
        Refusal { number }
    }
}

impl Refusal {
    // Why.
    pub fn reason(self) -> Reason
        ensures { number_of result ≡ self }
    {
        match self.number {
            1 => Reason::Text,
            2 => Reason::Kind,
            3 => Reason::Count,
            4 => Reason::Modulus,
            5 => Reason::TableLength,
            6 => Reason::Parent,
            7 => Reason::Range,
            8 => Reason::ScheduleLength,
            9 => Reason::Task,
            10 => Reason::Room,
            11 => Reason::CountLimit,
            12 => Reason::Starts,
            13 => Reason::TallyLimit,
            14 => Reason::TraceLength,
            15 => Reason::Works,
            number => Reason::Unnamed(Unnamed::of(number)),
        }
    }

    // The reason's number.
    pub fn number(self) -> u8
        ensures { result ≡ self }
    {
        self.number
    }

    // Whether it is for this reason.
    pub fn is_for(self, reason: Reason) -> bool
        ensures { result ≡ eqb self (number_of reason) }
    {
        reason.number() == self.number
    }
}

impl fmt::Display for Refusal {
    fn fmt<W: fmt::Write>(&self, f: &mut fmt::Formatter<W>) -> fmt::Result {
        write!(f, "{}", self.reason())
    }
}

impl Error for Refusal {}

// A refusal of a call with a list of turns: of one for `Reason::Task` the place of the first turn that is no task, of another 0.
// A place for each and not for that reason alone, since `placed` has one, and callers are told a place beside every reason.
#[derive(Clone, Copy, Debug, PartialEq, Eq, Hash)]
pub struct PlacedRefusal {
    pub refusal: Refusal,
    pub place: usize,
}

impl From<Refusal> for PlacedRefusal {
    ghost from_gives = { λ refusal r. r ≡ placed refusal 0 };

    fn from(refusal: Refusal) -> PlacedRefusal {
        PlacedRefusal { refusal, place: 0 }
    }
}

impl From<Reason> for PlacedRefusal {
    ghost from_gives = { λ reason r. r ≡ placed (number_of reason) 0 };

    fn from(reason: Reason) -> PlacedRefusal {
        Refusal::from(reason).into()
    }
}

impl PlacedRefusal {
    // The turn at this place is no task.
    pub fn of_turn(place: usize) -> PlacedRefusal
        ensures { result ≡ placed 9 place }
    {
        PlacedRefusal {
            refusal: Reason::Task.into(),
            place,
        }
    }
}

impl fmt::Display for PlacedRefusal {
    fn fmt<W: fmt::Write>(&self, f: &mut fmt::Formatter<W>) -> fmt::Result {
        write!(f, "{}, at {}", self.refusal, self.place)
    }
}

impl Error for PlacedRefusal {}
