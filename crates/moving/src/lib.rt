#![tactic(auto)]

pub mod moves;
