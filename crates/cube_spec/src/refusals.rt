// Why a request is refused. Each has a number, and a list of checks says which is due first.
ghost use Rattle.std.specs.Prelude.{◌≡◌};
ghost use Rattle.cube_spec.specs.Refusals.{number_of, refused_by};

use std::error::Error;
use std::fmt;

#[derive(Clone, Copy, Debug, PartialEq, Eq)]
pub enum Refusal {
    // A tape of more than 65,536 bytes.
    LongTape = 1,
    // A tape that departs from its form.
    Form = 2,
    // No axes, too many, or half a length.
    Axes = 3,
    // A length of 0 or over 65,535.
    Length = 4,
    // More points than 16,777,216.
    Points = 5,
    // A p over 10.
    Boards = 6,
    // An order that does not name each axis once, or a slot past the last axis that is not zero.
    Order = 8,
    // An exponent too large for its length, or a sum of exponents that is not p.
    Exponents = 9,
    // An array that has not as many points as the plan.
    Array = 10,
    // A work area or a slice for points that is too short.
    Memory = 11,
    // A position past the end, or one that finishes nothing, or a board that there is not.
    Position = 12,
    // A result of the wrong length.
    Result = 13,
    // A reading that is no number.
    NotANumber = 14,
    // A reading that is too large for a point.
    TooFar = 15,
    // A search that may price nothing.
    Budget = 18,
    // Link weights out of range, or not one for each axis.
    Links = 19,
    // An input that opens with no seed line.
    Seed = 22,
}

impl Refusal {
    // Its number in the list.
    pub fn number(self) -> u8
        ensures { result ≡ number_of self }
    {
        self as u8
    }
}

impl fmt::Display for Refusal {
    fn fmt<W: fmt::Write>(&self, f: &mut fmt::Formatter<W>) -> fmt::Result {
        write!(f, "refused {}", *self as u8)
    }
}

impl Error for Refusal {}

// The number that C is told: 0 where nothing is refused.
pub fn answer(found: Result<(), Refusal>) -> u8
    ensures { result ≡ refused_by found }
{
    match found {
        Ok(()) => 0,
        Err(refusal) => refusal.number(),
    }
}
