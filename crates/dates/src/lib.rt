#![tactic(auto)]

pub mod calendar;
pub mod calendar_dates;
mod clock;
pub mod date;
pub mod minute;
pub mod moment;
