ghost use Rattle.std.specs.Prelude.{◌≡◌};
ghost use Rattle.kind.specs.Kinds.{Told, Checked, Spelled};
ghost use Rattle.fields.specs.declared.stamp.MinuteStamp.{MinuteStamp};
ghost use Rattle.fields.specs.Stamps.{minute_stamp, minute_at, stamped_minute, stamped_minute_laws};

use super::stamp::{MinuteStamp, MinuteStamps};
use dates::date::Date;
use dates::minute::Minute;
use dates::minute::minutes::Minutes;
use kind::Kind;
use kind::compound::Built;
use kinds::refuse::no_reading;
use refusal::fault::Fault;

fn strip(value: &Minute) -> MinuteStamp
    ensures { result ≡ minute_stamp value.now }
{
    let date = value.date();
    MinuteStamp {
        year: date.year(),
        month: date.month(),
        day: date.day(),
        hour: value.hour(),
        minute: value.minute(),
    }
}

fn full(stamp: &MinuteStamp) -> Option<Minute>
    ensures { result ≡ minute_at stamp.now }
{
    let date = Date::new(stamp.year, stamp.month, stamp.day)?;
    Minute::new(date, stamp.hour, stamp.minute)
}

// No compound: numbers that are no time have no parts to be split into.
impl<'a> Kind<'a> for MinuteStamps {
    type Value = MinuteStamp;

    ghost Val = { MinuteStamp };

    ghost view = { λ v. v };

    ghost wide = { λ _. 12 };

    ghost reads = { λ _. stamped_minute };

    ghost laws = { λ _. stamped_minute_laws };

    fn width(&self) -> usize
        ensures { result ≡ 12 }
    {
        12
    }

    fn check(&self, s: &[u8]) -> Result<(), Fault>
        ensures { Checked stamped_minute s.now result }
    {
        Built::<'a, _>::of(Minutes).check(s)
    }

    fn read(&self, s: &'a [u8]) -> Result<MinuteStamp, Fault>
        ensures { Told (λ v. v) stamped_minute s.now result }
    {
        let minute = Built::of(Minutes).read(s)?;
        Ok(strip(&minute))
    }

    fn spell(&self, value: &MinuteStamp, out: &mut [u8]) -> Result<(), Fault>
        ensures { Spelled stamped_minute value.now out.old out.new result }
    {
        let minute = full(value).ok_or(no_reading())?;
        Built::<'a, _>::of(Minutes).spell(&minute, out)
    }
}
