ghost use Rattle.std.specs.Prelude.{◌≡◌};
ghost use Rattle.dates.specs.Days.{is_time};

use kinds::number::Number;

pub(crate) const HOURS: Number = Number {
    width: 2,
    low: 0,
    high: 23,
};

// Whether a day has such a second.
#[tactic(auto, unfolding(crate::specs::Days::is_time))]
pub(crate) fn is_time(hour: u64, minute: u64, second: u64) -> bool
    ensures { result ≡ is_time hour minute second }
{
    hour <= 23 && minute <= 59 && second <= 59
}
