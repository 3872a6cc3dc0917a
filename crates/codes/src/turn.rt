// A number, or a capital letter with a digit.
#[derive(Clone, Copy, PartialEq, Eq, Debug)]
pub enum Turn {
    Number(u64),
    Lettered { letter: u8, digit: u64 },
}

// Two digits from `low` to `high`, or else a capital letter with a digit from 1 to 9.
#[derive(Clone, Copy)]
pub struct Turns {
    pub low: u64,
    pub high: u64,
}
