use crate::sides::Side;
use std::fmt;
use std::marker::PhantomData;

// A side of the equator.
#[derive(Clone, Copy, PartialEq, Eq, Debug)]
pub enum NorthSouth {
    North,
    South,
}

// A side of the prime meridian.
#[derive(Clone, Copy, PartialEq, Eq, Debug)]
pub enum EastWest {
    East,
    West,
}

// The letters of the two sides of a line.
#[derive(Clone, Copy)]
pub struct Sides<S> {
    pub of: PhantomData<S>,
}

// The letters N and S.
pub type Poleward = Sides<NorthSouth>;

// The letters E and W.
pub type Sideward = Sides<EastWest>;

// Degrees and minutes to one side of a line.
#[derive(Clone, Copy, PartialEq, Eq)]
pub struct Angle<S> {
    pub degrees: u64,
    pub minutes: u64,
    pub side: S,
}

// Printed under the name that it has for its side.
impl<S: Side + fmt::Debug> fmt::Debug for Angle<S> {
    fn fmt<W: fmt::Write>(&self, f: &mut fmt::Formatter<W>) -> fmt::Result {
        f.debug_struct(S::NAME)
            .field("degrees", &self.degrees)
            .field("minutes", &self.minutes)
            .field("side", &self.side)
            .finish()
    }
}

pub type Latitude = Angle<NorthSouth>;

pub type Longitude = Angle<EastWest>;

// A place on the earth to the minute; its sides count at zero too.
#[derive(Clone, Copy, PartialEq, Eq, Debug)]
pub struct Location {
    pub latitude: Latitude,
    pub longitude: Longitude,
}

// ddmmX and dddmmY, below 90 and 180 degrees.
#[derive(Clone, Copy)]
pub struct Locations;
