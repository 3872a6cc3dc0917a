use kinds::text::TextBytes;
use kinds::word::Word;

// A name, or that there is none.
// No Option: a blank field is absent, and the word for no name is spelled.
#[derive(Clone, Copy, PartialEq, Eq, Debug)]
pub enum Name<'a> {
    Unavailable,
    Given(TextBytes<'a>),
}

// A word that says there is no name, or else text of the word's width.
#[derive(Clone, Copy)]
pub struct Names {
    pub none: Word<'static>,
}
