#![tactic(auto)]

pub mod issued_book;
pub mod mark;
pub mod names;
mod row_number;
mod table;
mod tag;
pub mod widths;
