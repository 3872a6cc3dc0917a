ghost use Rattle.std.specs.Prelude.{◌≡◌, ℕ, Bool, true};

use super::cell::Cell;

// A group of codes, and which widths each of them may have.
pub trait Group: Copy {
    ghost fair: { Self → ℕ → Bool };
}

// A cell with its code, which is one of a group. Each group names its kinds to check, to read and to spell: a function
// can't hand out now one type of kind and now another.
#[derive(Drop)]
pub struct Sort<C: Group> {
    pub code: C,
    pub cell: Cell,
    ghost ok: { C.Group.fair code cell.row.width ≡ true },
}
