// Which project a mission belongs to.
// No Option: a blank field is absent, and U0 is a word of its own that is spelled.
#[derive(Clone, Copy, PartialEq, Eq, Debug)]
pub enum Project {
    Letters { first: u8, second: u8 },
    // the word U0
    Unknown,
}

// Two capital letters, or else the word U0.
#[derive(Clone, Copy)]
pub struct Projects;
