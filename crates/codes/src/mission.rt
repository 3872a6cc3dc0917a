use crate::project::Project;

// A mission's number in its project, where it is known.
// No Option: a blank field is absent, and UNKN is a word of its own that is spelled.
#[derive(Clone, Copy, PartialEq, Eq, Debug)]
pub enum Mission {
    Numbered { project: Project, number: u64 },
    // the word UNKN
    Unknown,
}

// A project with a number from 00 to 99, or else the word UNKN.
#[derive(Clone, Copy)]
pub struct Missions;
