#![tactic(auto)]

pub mod fine;
pub mod fine_angles;
pub mod location;
pub mod locations;
pub mod place;
pub mod places;
pub mod sides;
pub mod signed_point;
pub mod signed_points;
