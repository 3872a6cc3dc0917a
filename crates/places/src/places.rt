ghost use Rattle.std.specs.Prelude.{◌≡◌, Some, None, MatchOption};
ghost use Rattle.kind.specs.Compounds.{names_composed};
ghost use Rattle.places.specs.declared.place.Place.{Place};
ghost use Rattle.places.specs.Places.{Parts, in_parts, made, parts, place, names, parts_laws};

use crate::fine::{FineAngles, FineLatitude, FineLatitudes, FineLongitude, FineLongitudes};
use crate::place::{Place, Places};
use crate::signed_point::{SignedDecimal, SignedPoint};
use kind::compound::{Built, Compound};
use kinds::layers::{Both, Either, OrElse, Then};
use std::marker::PhantomData;

type Fine<'a> = Then<Built<'a, FineLatitudes>, Built<'a, FineLongitudes>>;

type Signed<'a> = Then<Built<'a, SignedPoint>, Built<'a, SignedPoint>>;

impl<'a> Compound<'a> for Places {
    type Parts = OrElse<Fine<'a>, Signed<'a>>;

    type Value = Place;

    ghost Val = { Place };

    ghost view = { λ v. v };

    ghost Pieces = { Parts };

    ghost seen = { λ p. p };

    ghost built = { λ p. Some (made p) };

    ghost pieces_of = { parts };

    ghost wide = { λ _. 25 };

    ghost in_pieces = { λ _. in_parts };

    ghost reads = { λ _. place };

    ghost composed = { λ _. names_composed names parts_laws };

    fn parts(&self) -> OrElse<Fine<'a>, Signed<'a>> {
        let north = SignedPoint {
            whole: 2,
            places: 8,
            high: 9000000000,
        };
        let east = SignedPoint {
            whole: 3,
            places: 8,
            high: 18000000000,
        };
        OrElse {
            first: Then {
                first: Built::of(FineAngles { of: PhantomData }),
                second: Built::of(FineAngles { of: PhantomData }),
            },
            second: Then {
                first: Built::of(north),
                second: Built::of(east),
            },
        }
    }

    fn build(
        &self,
        pieces: Either<Both<FineLatitude, FineLongitude>, Both<SignedDecimal, SignedDecimal>>,
    ) -> Option<Place>
        ensures { MatchOption result (Some (made pieces) ≡ None) (λ v. Some (made pieces) ≡ Some v) }
    {
        Some(match pieces {
            Either::First(Both { front, back }) => Place::Seconds {
                latitude: front,
                longitude: back,
            },
            Either::Second(Both { front, back }) => Place::Degrees {
                latitude: front,
                longitude: back,
            },
        })
    }

    fn split(
        &self,
        value: &Place,
    ) -> Either<Both<FineLatitude, FineLongitude>, Both<SignedDecimal, SignedDecimal>>
        ensures { result ≡ parts value.now }
    {
        match *value {
            Place::Seconds {
                latitude,
                longitude,
            } => Either::First(Both {
                front: latitude,
                back: longitude,
            }),
            Place::Degrees {
                latitude,
                longitude,
            } => Either::Second(Both {
                front: latitude,
                back: longitude,
            }),
        }
    }
}
