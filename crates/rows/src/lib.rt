#![tactic(auto)]

pub mod cell;
pub mod cells;
pub mod code;
mod figures;
mod labels;
pub mod row;
pub mod slot;
pub mod slots;
mod sort;
mod spots;
pub mod value;
mod writings;
