//! The numbers that stand for directions and refusals.
ghost use Rattle.std.specs.Prelude.{◌≡◌};
ghost use Rattle.frame.specs.Row.{flag, ReadsFlag};
ghost use Rattle.frame.specs.Refusals.{refusal_number};

use crate::message::{Direction, Refusal};

/// A load's flag: 1 if it comes from the gate, else 0.
impl From<Direction> for u64 {
    ghost from_gives = { λ direction n. n ≡ flag direction };

    fn from(direction: Direction) -> u64 {
        match direction {
            Direction::Up => 0,
            Direction::Down => 1,
        }
    }
}

impl TryFrom<u64> for Direction {
    type Error = Refusal;

    ghost try_from_gives = { ReadsFlag };

    fn try_from(flag: u64) -> Result<Direction, Refusal> {
        match flag {
            0 => Ok(Direction::Up),
            1 => Ok(Direction::Down),
            _ => Err(Refusal::NoMessage),
        }
    }
}

/// The refusal's number in a call's answer.
impl From<Refusal> for u32 {
    ghost from_gives = { λ refusal n. n ≡ refusal_number refusal };

    fn from(refusal: Refusal) -> u32 {
        match refusal {
            Refusal::NoMessage => 1,
            Refusal::NotForThisEnd => 2,
            Refusal::WrongTag => 3,
            Refusal::NoRow => 4,
        }
    }
}
