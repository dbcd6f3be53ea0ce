//! What a line can say, and that each step of it leaves a lawful state: a line's texts may have any length. Laws, without code.
#![tactic(auto)]

pub mod laws;
