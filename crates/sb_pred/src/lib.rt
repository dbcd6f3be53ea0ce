//! Predicates over an old and a new row: when they are well typed, when they hold, and how they are spelled in bytes.
#![tactic(auto)]

mod predicate;
mod reading;
mod tags;
mod truth;
mod typing;
mod writing;

pub use predicate::{Node, Op, Pred, Term, nodes};
pub use reading::{name_of, read_pred, term_of};
pub use truth::{column_value, eval, value_in, value_of, well_typed_sides_have_values};
pub use typing::{find_column, kind_of_column, kind_of_term, well_typed};
pub use writing::{append_name, append_term, write_pred};
