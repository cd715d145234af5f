#![tactic(auto)]

pub mod play;
