// Dates and times as plain numbers, whatever numbers a caller has. Those that are no date or time have no spelling.

// A day, or a month with no day.
#[derive(Clone, Copy, PartialEq, Eq, Debug)]
pub enum DateStamp {
    Day { year: u64, month: u64, day: u64 },
    // day 00
    Month { year: u64, month: u64 },
}

// A minute of a day.
#[derive(Clone, Copy, PartialEq, Eq, Debug)]
pub struct MinuteStamp {
    pub year: u64,
    pub month: u64,
    pub day: u64,
    pub hour: u64,
    pub minute: u64,
}

// A second of a day.
#[derive(Clone, Copy, PartialEq, Eq, Debug)]
pub struct MomentStamp {
    pub year: u64,
    pub month: u64,
    pub day: u64,
    pub hour: u64,
    pub minute: u64,
    pub second: u64,
}

// Year, month, day, hour, minute and second.
#[derive(Clone, Copy)]
pub struct MomentStamps;

// Year, month, day, hour and minute.
#[derive(Clone, Copy)]
pub struct MinuteStamps;

// Year, month and day, the day 00 too.
#[derive(Clone, Copy)]
pub struct DateStamps;
