//! Laws of weight: the pages of a store that keeps a database are within what the definitions of room say that the database needs.
#![tactic(auto)]

mod laws;

pub use laws::{
    asking_is_within, change_is_within, coming_is_full, full_is_needed, lasting_are_meant,
    rest_is_within,
};
