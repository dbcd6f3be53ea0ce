//! A kernel at work: lines of the command language are answered over a store, each before the next, and a crash at any moment leaves the commits that were
//! acknowledged.
#![tactic(auto)]

mod answering;
mod dialogue;
mod ending;
mod laws;
mod serving;
mod starts;
mod writing;

pub use ending::{Ending, Stop};
pub use laws::{held_images_are_stored, rests_are_held};
pub use sb_opening::{Session, create, open};
pub use serving::serve;
pub use starts::Starts;
pub use writing::write_all;
