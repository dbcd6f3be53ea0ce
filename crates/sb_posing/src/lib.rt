//! What a line says may be carried out where no test refuses it.
#![tactic(auto)]

mod laws;

pub use laws::read_commands_are_posed;
