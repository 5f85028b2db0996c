// Kinds, their lines, and the R that each takes. specs/Kinds.antt defines each. A state and a setup hold any number as their kind, so each is asked by number.
ghost use Rattle.std.specs.Prelude.{◌≡◌};
ghost use Rattle.setup.specs.Kinds as defs;

use kind::Kind;

// Whether there is such a kind.
pub fn is_kind(kind: usize) -> bool
    ensures { result ≡ defs.is_kind kind }
{
    Kind::try_from(kind).is_ok()
}

// Whether its tasks share arrivals and a sense.
pub fn has_sense(kind: usize) -> bool
    ensures { result ≡ defs.has_sense kind }
{
    matches!(
        Kind::try_from(kind),
        Ok(Kind::Increment | Kind::Centralized)
    )
}

// Whether the kind takes such a modulus.
pub fn modulus_ok(kind: usize, modulus: usize) -> bool
    ensures { result ≡ defs.modulus_ok kind modulus }
{
    match Kind::try_from(kind) {
        Ok(Kind::Symmetric) => (3 <= modulus) & (modulus <= 255),
        _ => modulus == 0,
    }
}

// The last line of a kind; 0 where there is no such kind.
pub fn last_line(kind: u8) -> u8
    ensures { result ≡ defs.last_line kind }
{
    match Kind::try_from(kind as usize) {
        Ok(Kind::Symmetric) => 14,
        Ok(Kind::Increment) => 16,
        Ok(Kind::Ring) => 15,
        Ok(Kind::Tree) => 18,
        Ok(Kind::Centralized) => 16,
        Err(_) => 0,
    }
}
