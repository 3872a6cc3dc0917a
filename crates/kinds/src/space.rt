ghost use Rattle.std.specs.Prelude.{◌≤◌};

// Spaces only.
#[derive(Clone, Copy)]
pub struct Spaces {
    pub width: usize,
    ghost some: { 1 ≤ width },
    ghost few: { width ≤ 999 },
}
