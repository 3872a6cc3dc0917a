use crate::fine::{FineLatitude, FineLongitude};
use crate::signed_point::SignedDecimal;

// A place on the earth, in one of two notations.
#[derive(Clone, Copy, PartialEq, Eq, Debug)]
pub enum Place {
    Seconds {
        latitude: FineLatitude,
        longitude: FineLongitude,
    },
    Degrees {
        latitude: SignedDecimal,
        longitude: SignedDecimal,
    },
}

// ddmmss.ssssXdddmmss.ssssY, or else two signed numbers of degrees with eight places, to 90 and 180.
#[derive(Clone, Copy)]
pub struct Places;
