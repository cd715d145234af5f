#![tactic(auto)]

pub mod data;
pub mod lengths;
pub mod load;
