ghost use Rattle.std.specs.Prelude.{◌<◌};

// The number of a row of the table.
#[derive(Clone, Copy)]
pub struct RowNumber {
    pub i: usize,
    ghost inside: { i < 64 },
}
