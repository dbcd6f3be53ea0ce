//! The grammar of commands: which lines spell which command, and at which column a line is bad that spells none.
#![tactic(auto)]
