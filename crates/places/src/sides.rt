ghost use Rattle.std.specs.Prelude.{◌≡◌, ℕ, ◌≤◌, List};
ghost use Rattle.std.proofs.Common.{lit≤};
ghost use Rattle.kinds.specs.Listing.{Spelt};
ghost use Rattle.places.specs.Sides.{pole_letters, poles, pole_spelt, side_letters, sides, side_spelt};

use crate::location::{EastWest, NorthSouth, Sides};
use kinds::listed::Listed;

// A side of a line: its letter, and how the degrees to that side are written.
pub trait Side: Copy + 'static {
    // how many digits the degrees have
    const WIDTH: usize;

    // the most of them
    const HIGH: u64;

    // what an angle to such a side is called where it is printed, and one to the fraction of a second
    const NAME: &'static str = "Angle";

    const FINE_NAME: &'static str = "FineAngle";

    ghost WIDTH: { ℕ };

    ghost HIGH: { ℕ };

    ghost some: { 1 ≤ WIDTH };

    ghost few: { WIDTH ≤ 18 };

    ghost letters: { Self → List ℕ };

    ghost spelt: { Spelt 1 letters };

    ghost both: { List Self };

    fn letters(self) -> &'static [u8]
        ensures { result.now ≡ letters self };

    // Both sides of the line.
    fn both() -> &'static [Self]
        ensures { result.now ≡ both };
}

impl Side for NorthSouth {
    const WIDTH: usize = 2;

    const HIGH: u64 = 89;

    const NAME: &'static str = "Latitude";

    const FINE_NAME: &'static str = "FineLatitude";

    ghost WIDTH = { 2 };

    ghost HIGH = { 89 };

    ghost some = { lit≤ tt };

    ghost few = { lit≤ tt };

    ghost letters = { pole_letters };

    ghost spelt = { pole_spelt };

    ghost both = { poles };

    fn letters(self) -> &'static [u8] {
        match self {
            NorthSouth::North => b"N",
            NorthSouth::South => b"S",
        }
    }

    fn both() -> &'static [NorthSouth] {
        &[NorthSouth::North, NorthSouth::South]
    }
}

impl Side for EastWest {
    const WIDTH: usize = 3;

    const HIGH: u64 = 179;

    const NAME: &'static str = "Longitude";

    const FINE_NAME: &'static str = "FineLongitude";

    ghost WIDTH = { 3 };

    ghost HIGH = { 179 };

    ghost some = { lit≤ tt };

    ghost few = { lit≤ tt };

    ghost letters = { side_letters };

    ghost spelt = { side_spelt };

    ghost both = { sides };

    fn letters(self) -> &'static [u8] {
        match self {
            EastWest::East => b"E",
            EastWest::West => b"W",
        }
    }

    fn both() -> &'static [EastWest] {
        &[EastWest::East, EastWest::West]
    }
}

impl<S: Side> Listed for Sides<S> {
    type Code = S;

    ghost span = { 1 };

    ghost letters = { S.letters };

    ghost spelt = { S.spelt };

    ghost every = { λ _. S.both };

    fn span(&self) -> usize {
        1
    }

    fn letters(&self, code: S) -> &'static [u8] {
        code.letters()
    }

    fn every(&self) -> &[S] {
        S::both()
    }
}
