ghost use Rattle.std.specs.Prelude.{Some};
ghost use Rattle.kind.specs.Compounds.{names_composed};
ghost use Rattle.places.specs.declared.location.Location.{Location};
ghost use Rattle.places.specs.Locations.{Parts, in_parts, made, parts, location, names, parts_laws};

use crate::location::{
    Angle, EastWest, Location, Locations, NorthSouth, Poleward, Sides, Sideward,
};
use crate::sides::Side;
use kind::compound::Compound;
use kinds::layers::{Both, Then};
use kinds::listed::Codes;
use kinds::number::{Number, SIXTY};
use std::marker::PhantomData;

type East = Then<Number, Then<Number, Codes<Sideward>>>;

// Both halves in one chain, as the definition reads: a kind for each would need a law that regroups them, and is no plainer.
impl<'a> Compound<'a> for Locations {
    type Parts = Then<Number, Then<Number, Then<Codes<Poleward>, East>>>;

    type Value = Location;

    ghost Val = { Location };

    ghost view = { λ v. v };

    ghost Pieces = { Parts };

    ghost seen = { λ p. p };

    ghost built = { λ p. Some (made p) };

    ghost pieces_of = { parts };

    ghost wide = { λ _. 11 };

    ghost in_pieces = { λ _. in_parts };

    ghost reads = { λ _. location };

    ghost composed = { λ _. names_composed names parts_laws };

    fn parts(&self) -> Then<Number, Then<Number, Then<Codes<Poleward>, East>>> {
        let east = Then {
            first: Number {
                width: EastWest::WIDTH,
                low: 0,
                high: EastWest::HIGH,
            },
            second: Then {
                first: SIXTY,
                second: Codes {
                    list: Sides { of: PhantomData },
                },
            },
        };
        Then {
            first: Number {
                width: NorthSouth::WIDTH,
                low: 0,
                high: NorthSouth::HIGH,
            },
            second: Then {
                first: SIXTY,
                second: Then {
                    first: Codes {
                        list: Sides { of: PhantomData },
                    },
                    second: east,
                },
            },
        }
    }

    fn build(
        &self,
        pieces: Both<u64, Both<u64, Both<NorthSouth, Both<u64, Both<u64, EastWest>>>>>,
    ) -> Option<Location> {
        let east = pieces.back.back.back;
        Some(Location {
            latitude: Angle {
                degrees: pieces.front,
                minutes: pieces.back.front,
                side: pieces.back.back.front,
            },
            longitude: Angle {
                degrees: east.front,
                minutes: east.back.front,
                side: east.back.back,
            },
        })
    }

    fn split(
        &self,
        value: &Location,
    ) -> Both<u64, Both<u64, Both<NorthSouth, Both<u64, Both<u64, EastWest>>>>> {
        let north = &value.latitude;
        let east = &value.longitude;
        Both {
            front: north.degrees,
            back: Both {
                front: north.minutes,
                back: Both {
                    front: north.side,
                    back: Both {
                        front: east.degrees,
                        back: Both {
                            front: east.minutes,
                            back: east.side,
                        },
                    },
                },
            },
        }
    }
}
