use crate::search::Spanned;

// A field in its record: its number, its name number, where it begins in the data, and its width.
#[derive(Clone, Copy)]
pub struct Part {
    pub number: usize,
    pub name: u16,
    pub start: usize,
    pub width: usize,
}

impl Spanned for Part {
    ghost from = { λ p. p.start };

    ghost wide = { λ p. p.width };

    fn start(&self) -> usize {
        self.start
    }

    fn width(&self) -> usize {
        self.width
    }
}
