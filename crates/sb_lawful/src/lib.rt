//! Commands that build leave a lawful database lawful: a relation that is made or dropped, a rule that is attached or detached. Laws alone.
#![tactic(auto)]

pub mod laws;
