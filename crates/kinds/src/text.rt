ghost use Rattle.std.specs.Prelude.{◌≤◌};

// Printable bytes, not all spaces.
#[derive(Clone, Copy)]
pub struct Text {
    pub width: usize,
    ghost some: { 1 ≤ width },
    ghost few: { width ≤ 999 },
}

// The bytes of a text, as part of what was read.
#[derive(Clone, Copy, PartialEq, Eq, Debug)]
pub struct TextBytes<'a>(pub &'a [u8]);
