//! The records of the log: how they are spelled, and what they make of the pages of a disk.
#![tactic(auto)]

mod counting;
mod geometry;
mod laws;
mod reading;
mod record;
mod tags;
mod writing;

pub use counting::{BadAt, count_records};
pub use geometry::Geometry;
pub use laws::{bad_in_one_place, one_record, one_row_of_records, own_changes_stand};
pub use reading::read_rec;
pub use record::Rec;
pub use writing::{rec_len, write_rec};
