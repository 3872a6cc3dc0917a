ghost use Rattle.std.specs.Prelude.{◌≡◌, Some, None, MatchOption};
ghost use Rattle.dates.specs.declared.moment.Moment.{Moment};
ghost use Rattle.dates.specs.Moments.{moment_of, Parts, in_range, make, parts, moment, composed};

use super::Moment;
use crate::clock::{HOURS, is_time};
use crate::date::Date;
use crate::date::dates::Dates;
use kind::compound::{Built, Compound};
use kinds::layers::{Both, Then};
use kinds::number::{Number, SIXTY};

impl Moment {
    // The moment of a date with these numbers, if there is one.
    pub fn new(date: Date, hour: u64, minute: u64, second: u64) -> Option<Moment>
        ensures { result ≡ moment_of date hour minute second }
    {
        // no `then`: its closure would need a contract of its own, and the proof gets longer
        if is_time(hour, minute, second) {
            Some(Moment {
                date,
                hour,
                minute,
                second,
            })
        } else {
            None
        }
    }

    pub fn date(&self) -> Date
        ensures { result ≡ self.now.date }
    {
        self.date
    }

    pub fn hour(&self) -> u64
        ensures { result ≡ self.now.hour }
    {
        self.hour
    }

    pub fn minute(&self) -> u64
        ensures { result ≡ self.now.minute }
    {
        self.minute
    }

    pub fn second(&self) -> u64
        ensures { result ≡ self.now.second }
    {
        self.second
    }
}

// CCYYMMDDhhmmss, a moment that there is.
#[derive(Clone, Copy)]
pub struct Moments;

impl<'a> Compound<'a> for Moments {
    type Parts = Then<Built<'a, Dates>, Then<Number, Then<Number, Number>>>;

    type Value = Moment;

    ghost Val = { Moment };

    ghost view = { λ v. v };

    ghost Pieces = { Parts };

    ghost seen = { λ p. p };

    ghost built = { make };

    ghost pieces_of = { parts };

    ghost wide = { λ _. 14 };

    ghost in_pieces = { λ _. in_range };

    ghost reads = { λ _. moment };

    ghost composed = { λ _. composed };

    fn parts(&self) -> Then<Built<'a, Dates>, Then<Number, Then<Number, Number>>> {
        Then {
            first: Built::of(Dates),
            second: Then {
                first: HOURS,
                second: Then {
                    first: SIXTY,
                    second: SIXTY,
                },
            },
        }
    }

    fn build(&self, pieces: Both<Date, Both<u64, Both<u64, u64>>>) -> Option<Moment>
        ensures { MatchOption result (make pieces ≡ None) (λ v. make pieces ≡ Some v) }
    {
        let time = pieces.back;
        Moment::new(pieces.front, time.front, time.back.front, time.back.back)
    }

    fn split(&self, value: &Moment) -> Both<Date, Both<u64, Both<u64, u64>>>
        ensures { result ≡ parts value.now }
    {
        Both {
            front: value.date,
            back: Both {
                front: value.hour,
                back: Both {
                    front: value.minute,
                    back: value.second,
                },
            },
        }
    }
}
