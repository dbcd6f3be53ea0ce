//! Each step of a lawful state leaves a lawful state, whatever the language says: so the plays of the language lead through lawful states alone. Laws,
//! without code.
#![tactic(auto)]

pub mod laws;
