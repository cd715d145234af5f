#![tactic(auto)]

pub mod makes;
