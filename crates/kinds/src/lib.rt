#![tactic(auto)]

pub mod blank;
pub mod capital;
pub mod capitals;
mod digits;
pub mod layers;
pub mod listed;
pub mod number;
pub mod numbers;
pub mod one_of;
pub mod or_else;
pub mod point;
pub mod points;
pub mod refuse;
pub mod scan;
pub mod sign;
pub mod signs;
pub mod space;
pub mod spaces;
pub mod text;
pub mod texts;
pub mod then;
pub mod via;
pub mod word;
pub mod words;
