ghost use Rattle.std.specs.Prelude.{◌≡◌};
ghost use Rattle.codes.specs.Units.{letters, spelt, lengths, spacings};

use crate::unit::{Unit, Units};
use kinds::listed::{Codes, Listed};

impl Listed for Units {
    type Code = Unit;

    ghost span = { 1 };

    ghost letters = { letters };

    ghost spelt = { spelt };

    ghost every = { λ u. u.named.now };

    fn span(&self) -> usize {
        1
    }

    fn letters(&self, code: Unit) -> &'static [u8] {
        match code {
            Unit::Feet => b"f",
            Unit::Meters => b"m",
            Unit::Microradians => b"r",
            Unit::Unknown => b"u",
        }
    }

    fn every(&self) -> &[Unit] {
        self.named
    }
}

// Feet or meters.
#[tactic(auto, unfolding(crate::specs::Units::lengths))]
pub fn lengths() -> Codes<Units>
    ensures { result.list.named.now ≡ lengths }
{
    Codes {
        list: Units {
            named: &[Unit::Feet, Unit::Meters],
        },
    }
}

// Feet, meters, microradians or unknown.
#[tactic(auto, unfolding(crate::specs::Units::spacings))]
pub fn spacings() -> Codes<Units>
    ensures { result.list.named.now ≡ spacings }
{
    Codes {
        list: Units {
            named: &[Unit::Feet, Unit::Meters, Unit::Microradians, Unit::Unknown],
        },
    }
}
