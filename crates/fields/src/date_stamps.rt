ghost use Rattle.std.specs.Prelude.{◌≡◌};
ghost use Rattle.kind.specs.Kinds.{Told, Checked, Spelled};
ghost use Rattle.fields.specs.declared.stamp.DateStamp.{DateStamp};
ghost use Rattle.fields.specs.Stamps.{date_stamp, date_at, stamped_date, stamped_date_laws};

use super::stamp::{DateStamp, DateStamps};
use dates::calendar::{CalendarDate, CalendarDates};
use dates::date::Date;
use kind::Kind;
use kind::compound::Built;
use kinds::refuse::no_reading;
use refusal::fault::Fault;

fn strip(value: &CalendarDate) -> DateStamp
    ensures { result ≡ date_stamp value.now }
{
    match *value {
        CalendarDate::Day(d) => DateStamp::Day {
            year: d.year(),
            month: d.month(),
            day: d.day(),
        },
        CalendarDate::Month { year, month } => DateStamp::Month { year, month },
    }
}

fn full(stamp: &DateStamp) -> Option<CalendarDate>
    ensures { result ≡ date_at stamp.now }
{
    match *stamp {
        DateStamp::Day { year, month, day } => Date::new(year, month, day).map(CalendarDate::Day),
        DateStamp::Month { year, month } => Some(CalendarDate::Month { year, month }),
    }
}

// No compound: numbers that are no date have no parts to be split into.
impl<'a> Kind<'a> for DateStamps {
    type Value = DateStamp;

    ghost Val = { DateStamp };

    ghost view = { λ v. v };

    ghost wide = { λ _. 8 };

    ghost reads = { λ _. stamped_date };

    ghost laws = { λ _. stamped_date_laws };

    fn width(&self) -> usize
        ensures { result ≡ 8 }
    {
        8
    }

    fn check(&self, s: &[u8]) -> Result<(), Fault>
        ensures { Checked stamped_date s.now result }
    {
        Built::<'a, _>::of(CalendarDates).check(s)
    }

    fn read(&self, s: &'a [u8]) -> Result<DateStamp, Fault>
        ensures { Told (λ v. v) stamped_date s.now result }
    {
        let date = Built::of(CalendarDates).read(s)?;
        Ok(strip(&date))
    }

    fn spell(&self, value: &DateStamp, out: &mut [u8]) -> Result<(), Fault>
        ensures { Spelled stamped_date value.now out.old out.new result }
    {
        let date = full(value).ok_or(no_reading())?;
        Built::<'a, _>::of(CalendarDates).spell(&date, out)
    }
}
