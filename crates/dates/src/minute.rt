ghost use Rattle.std.specs.Prelude.{◌≡◌, true};
ghost use Rattle.dates.specs.Days.{is_time};

use crate::date::Date;

pub mod minutes;

// A minute of a day: none that there is not can be built.
#[derive(Clone, Copy, PartialEq, Eq, Debug)]
pub struct Minute {
    date: Date,
    hour: u64,
    minute: u64,
    ghost ok: { is_time hour minute 0 ≡ true },
}
