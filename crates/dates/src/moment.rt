ghost use Rattle.std.specs.Prelude.{◌≡◌, true};
ghost use Rattle.dates.specs.Days.{is_time};

use crate::date::Date;

pub mod moments;

// A second of a day: no moment that there is not can be built. Beside Minute, since one type for both would have a second
// that a minute has not.
#[derive(Clone, Copy, PartialEq, Eq, Debug)]
pub struct Moment {
    date: Date,
    hour: u64,
    minute: u64,
    second: u64,
    ghost ok: { is_time hour minute second ≡ true },
}
