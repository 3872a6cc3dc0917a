ghost use Rattle.std.specs.Prelude.{◌≡◌};
ghost use Rattle.kind.specs.Kinds.{Told, Checked, Spelled};
ghost use Rattle.fields.specs.declared.stamp.MomentStamp.{MomentStamp};
ghost use Rattle.fields.specs.Stamps.{moment_stamp, moment_at, stamped_moment, stamped_moment_laws};

use super::stamp::{MomentStamp, MomentStamps};
use dates::date::Date;
use dates::moment::Moment;
use dates::moment::moments::Moments;
use kind::Kind;
use kind::compound::Built;
use kinds::refuse::no_reading;
use refusal::fault::Fault;

fn strip(value: &Moment) -> MomentStamp
    ensures { result ≡ moment_stamp value.now }
{
    let date = value.date();
    MomentStamp {
        year: date.year(),
        month: date.month(),
        day: date.day(),
        hour: value.hour(),
        minute: value.minute(),
        second: value.second(),
    }
}

fn full(stamp: &MomentStamp) -> Option<Moment>
    ensures { result ≡ moment_at stamp.now }
{
    let date = Date::new(stamp.year, stamp.month, stamp.day)?;
    Moment::new(date, stamp.hour, stamp.minute, stamp.second)
}

// No compound: numbers that are no time have no parts to be split into.
impl<'a> Kind<'a> for MomentStamps {
    type Value = MomentStamp;

    ghost Val = { MomentStamp };

    ghost view = { λ v. v };

    ghost wide = { λ _. 14 };

    ghost reads = { λ _. stamped_moment };

    ghost laws = { λ _. stamped_moment_laws };

    fn width(&self) -> usize
        ensures { result ≡ 14 }
    {
        14
    }

    fn check(&self, s: &[u8]) -> Result<(), Fault>
        ensures { Checked stamped_moment s.now result }
    {
        Built::<'a, _>::of(Moments).check(s)
    }

    fn read(&self, s: &'a [u8]) -> Result<MomentStamp, Fault>
        ensures { Told (λ v. v) stamped_moment s.now result }
    {
        let moment = Built::of(Moments).read(s)?;
        Ok(strip(&moment))
    }

    fn spell(&self, value: &MomentStamp, out: &mut [u8]) -> Result<(), Fault>
        ensures { Spelled stamped_moment value.now out.old out.new result }
    {
        let moment = full(value).ok_or(no_reading())?;
        Built::<'a, _>::of(Moments).spell(&moment, out)
    }
}
