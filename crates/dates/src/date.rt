ghost use Rattle.std.specs.Prelude.{◌≡◌, true};
ghost use Rattle.dates.specs.Days.{is_day};

pub mod dates;

// A day that there is: no other can be built.
#[derive(Clone, Copy, PartialEq, Eq, Debug)]
pub struct Date {
    year: u64,
    month: u64,
    day: u64,
    ghost ok: { is_day year month day ≡ true },
}
