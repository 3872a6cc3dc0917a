ghost use Rattle.std.specs.Prelude.{◌≤◌};

// Capital letters A to Z.
#[derive(Clone, Copy)]
pub struct Capitals {
    pub width: usize,
    ghost some: { 1 ≤ width },
    ghost few: { width ≤ 999 },
}

// The letters, as part of what was read.
#[derive(Clone, Copy, PartialEq, Eq, Debug)]
pub struct Letters<'a>(pub &'a [u8]);
