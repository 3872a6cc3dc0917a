use crate::location::{EastWest, NorthSouth};
use crate::sides::Side;
use std::fmt;
use std::marker::PhantomData;

// Degrees to one side of a line, to the ten-thousandth of a second.
#[derive(Clone, Copy, PartialEq, Eq)]
pub struct FineAngle<S> {
    pub degrees: u64,
    pub minutes: u64,
    pub seconds: u64,
    pub fraction: u64,
    pub side: S,
}

// Printed under the name that it has for its side.
impl<S: Side + fmt::Debug> fmt::Debug for FineAngle<S> {
    fn fmt<W: fmt::Write>(&self, f: &mut fmt::Formatter<W>) -> fmt::Result {
        f.debug_struct(S::FINE_NAME)
            .field("degrees", &self.degrees)
            .field("minutes", &self.minutes)
            .field("seconds", &self.seconds)
            .field("fraction", &self.fraction)
            .field("side", &self.side)
            .finish()
    }
}

pub type FineLatitude = FineAngle<NorthSouth>;

pub type FineLongitude = FineAngle<EastWest>;

// Degrees, mmss.ssss and the side's letter.
#[derive(Clone, Copy)]
pub struct FineAngles<S> {
    pub of: PhantomData<S>,
}

// ddmmss.ssssX, below 90 degrees.
pub type FineLatitudes = FineAngles<NorthSouth>;

// dddmmss.ssssY, below 180 degrees.
pub type FineLongitudes = FineAngles<EastWest>;
