// Whether an image was made or sent again.
// No Option: a blank field is absent, and 000 is a word of its own that is spelled.
#[derive(Clone, Copy, PartialEq, Eq, Debug)]
pub enum Replay {
    // the word 000
    Original,
    Again { mode: Mode, number: u64 },
}

// What was done again: G and P made the image anew, T sent it anew.
#[derive(Clone, Copy, PartialEq, Eq, Debug)]
pub enum Mode {
    G,
    P,
    T,
}

// The letters of the modes.
#[derive(Clone, Copy)]
pub struct Modes;

// The word 000, or else a mode with a number from 01 to 99.
#[derive(Clone, Copy)]
pub struct Replays;
