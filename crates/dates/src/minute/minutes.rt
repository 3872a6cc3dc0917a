ghost use Rattle.std.specs.Prelude.{◌≡◌, Some, None, MatchOption};
ghost use Rattle.dates.specs.declared.minute.Minute.{Minute};
ghost use Rattle.dates.specs.Minutes.{minute_of, Parts, in_range, make, parts, minute, composed};

use super::Minute;
use crate::clock::{HOURS, is_time};
use crate::date::Date;
use crate::date::dates::Dates;
use kind::compound::{Built, Compound};
use kinds::layers::{Both, Then};
use kinds::number::{Number, SIXTY};

impl Minute {
    // The minute of a date with these numbers, if there is one.
    pub fn new(date: Date, hour: u64, minute: u64) -> Option<Minute>
        ensures { result ≡ minute_of date hour minute }
    {
        // no `then`: its closure would need a contract of its own, and the proof gets longer
        if is_time(hour, minute, 0) {
            Some(Minute { date, hour, minute })
        } else {
            None
        }
    }

    pub fn date(&self) -> Date
        ensures { result ≡ self.now.date }
    {
        self.date
    }

    pub fn hour(&self) -> u64
        ensures { result ≡ self.now.hour }
    {
        self.hour
    }

    pub fn minute(&self) -> u64
        ensures { result ≡ self.now.minute }
    {
        self.minute
    }
}

// CCYYMMDDhhmm, a minute that there is.
#[derive(Clone, Copy)]
pub struct Minutes;

impl<'a> Compound<'a> for Minutes {
    type Parts = Then<Built<'a, Dates>, Then<Number, Number>>;

    type Value = Minute;

    ghost Val = { Minute };

    ghost view = { λ v. v };

    ghost Pieces = { Parts };

    ghost seen = { λ p. p };

    ghost built = { make };

    ghost pieces_of = { parts };

    ghost wide = { λ _. 12 };

    ghost in_pieces = { λ _. in_range };

    ghost reads = { λ _. minute };

    ghost composed = { λ _. composed };

    fn parts(&self) -> Then<Built<'a, Dates>, Then<Number, Number>> {
        Then {
            first: Built::of(Dates),
            second: Then {
                first: HOURS,
                second: SIXTY,
            },
        }
    }

    fn build(&self, pieces: Both<Date, Both<u64, u64>>) -> Option<Minute>
        ensures { MatchOption result (make pieces ≡ None) (λ v. make pieces ≡ Some v) }
    {
        Minute::new(pieces.front, pieces.back.front, pieces.back.back)
    }

    fn split(&self, value: &Minute) -> Both<Date, Both<u64, u64>>
        ensures { result ≡ parts value.now }
    {
        Both {
            front: value.date,
            back: Both {
                front: value.hour,
                back: value.minute,
            },
        }
    }
}
