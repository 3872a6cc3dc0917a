use crate::date::Date;

// A day, or a month with no day.
#[derive(Clone, Copy, PartialEq, Eq, Debug)]
pub enum CalendarDate {
    Day(Date),
    // day 00
    Month { year: u64, month: u64 },
}

// CCYYMMDD, a day that there is, or else day 00 of any month.
#[derive(Clone, Copy)]
pub struct CalendarDates;
