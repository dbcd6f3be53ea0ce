//! A run: commands from a source are answered to a sink, by any boxes, over a store on a disk.
#![tactic(auto)]

mod refusing;
mod report;
mod running;

pub use refusing::refuse_words;
pub use report::Report;
pub use running::run_boxes;
