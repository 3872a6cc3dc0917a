ghost use Rattle.std.specs.Prelude.{◌≡◌, true};
ghost use Rattle.rows.specs.Fair.{fair};

use super::row::Row;

// The kind of a row, by whether SAR was read before.
#[derive(Clone, Copy)]
pub struct Cell {
    pub row: Row,
    pub sar: bool,
    ghost ok: { fair row ≡ true },
}
