ghost use Rattle.std.specs.Prelude.{◌≡◌, Some, None, MatchOption};
ghost use Rattle.kind.specs.Compounds.{names_composed};
ghost use Rattle.dates.specs.declared.calendar.CalendarDate.{CalendarDate};
ghost use Rattle.dates.specs.CalendarDates.{Parts, in_parts, made, parts, calendar_date, names, parts_laws};

use crate::calendar::{CalendarDate, CalendarDates};
use crate::date::Date;
use crate::date::dates::Dates;
use kind::compound::{Built, Compound};
use kinds::layers::{Both, Either, OrElse, Then};
use kinds::number::Number;
use kinds::word::Word;

impl<'a> Compound<'a> for CalendarDates {
    type Parts = OrElse<Built<'a, Dates>, Then<Number, Then<Number, Word<'static>>>>;

    type Value = CalendarDate;

    ghost Val = { CalendarDate };

    ghost view = { λ v. v };

    ghost Pieces = { Parts };

    ghost seen = { λ p. p };

    ghost built = { λ p. Some (made p) };

    ghost pieces_of = { parts };

    ghost wide = { λ _. 8 };

    ghost in_pieces = { λ _. in_parts };

    ghost reads = { λ _. calendar_date };

    ghost composed = { λ _. names_composed names parts_laws };

    fn parts(&self) -> OrElse<Built<'a, Dates>, Then<Number, Then<Number, Word<'static>>>> {
        OrElse {
            first: Built::of(Dates),
            second: Then {
                first: Number {
                    width: 4,
                    low: 0,
                    high: 9999,
                },
                second: Then {
                    first: Number {
                        width: 2,
                        low: 1,
                        high: 12,
                    },
                    second: Word { bytes: b"00" },
                },
            },
        }
    }

    fn build(&self, pieces: Either<Date, Both<u64, Both<u64, ()>>>) -> Option<CalendarDate>
        ensures { MatchOption result (Some (made pieces) ≡ None) (λ v. Some (made pieces) ≡ Some v) }
    {
        Some(match pieces {
            Either::First(day) => CalendarDate::Day(day),
            Either::Second(Both { front, back }) => CalendarDate::Month {
                year: front,
                month: back.front,
            },
        })
    }

    fn split(&self, value: &CalendarDate) -> Either<Date, Both<u64, Both<u64, ()>>>
        ensures { result ≡ parts value.now }
    {
        match *value {
            CalendarDate::Day(day) => Either::First(day),
            CalendarDate::Month { year, month } => Either::Second(Both {
                front: year,
                back: Both {
                    front: month,
                    back: (),
                },
            }),
        }
    }
}
