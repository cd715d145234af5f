#![tactic(auto)]

pub mod writes;
