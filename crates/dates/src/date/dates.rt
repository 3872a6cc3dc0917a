ghost use Rattle.std.specs.Prelude.{◌≡◌};
ghost use Rattle.dates.specs.Days.{is_day};
ghost use Rattle.dates.specs.declared.date.Date.{Date};
ghost use Rattle.dates.specs.Dates.{date_of, Parts, in_range, make, parts, date, composed};

use super::Date;
use kind::compound::Compound;
use kinds::layers::{Both, Then};
use kinds::number::Number;

#[tactic(auto, unfolding(crate::specs::Days::is_day))]
fn is_day(year: u64, month: u64, day: u64) -> bool
    ensures { result ≡ is_day year month day }
{
    year <= 9999 && (1..=12).contains(&month) && (1..=31).contains(&day)
}

impl Date {
    // The day with these numbers, if there is one.
    pub fn new(year: u64, month: u64, day: u64) -> Option<Date>
        ensures { result ≡ date_of year month day }
    {
        // no `then`: its closure would need a contract of its own, and the proof gets longer
        if is_day(year, month, day) {
            Some(Date { year, month, day })
        } else {
            None
        }
    }

    pub fn year(&self) -> u64
        ensures { result ≡ self.now.year }
    {
        self.year
    }

    pub fn month(&self) -> u64
        ensures { result ≡ self.now.month }
    {
        self.month
    }

    pub fn day(&self) -> u64
        ensures { result ≡ self.now.day }
    {
        self.day
    }
}

// CCYYMMDD, a day that there is.
#[derive(Clone, Copy)]
pub struct Dates;

impl<'a> Compound<'a> for Dates {
    type Parts = Then<Number, Then<Number, Number>>;

    type Value = Date;

    ghost Val = { Date };

    ghost view = { λ v. v };

    ghost Pieces = { Parts };

    ghost seen = { λ p. p };

    ghost built = { make };

    ghost pieces_of = { parts };

    ghost wide = { λ _. 8 };

    ghost in_pieces = { λ _. in_range };

    ghost reads = { λ _. date };

    ghost composed = { λ _. composed };

    fn parts(&self) -> Then<Number, Then<Number, Number>> {
        Then {
            first: Number {
                width: 4,
                low: 0,
                high: 9999,
            },
            second: Then {
                first: Number {
                    width: 2,
                    low: 1,
                    high: 12,
                },
                second: Number {
                    width: 2,
                    low: 1,
                    high: 31,
                },
            },
        }
    }

    fn build(&self, pieces: Both<u64, Both<u64, u64>>) -> Option<Date> {
        Date::new(pieces.front, pieces.back.front, pieces.back.back)
    }

    fn split(&self, value: &Date) -> Both<u64, Both<u64, u64>> {
        Both {
            front: value.year,
            back: Both {
                front: value.month,
                back: value.day,
            },
        }
    }
}
