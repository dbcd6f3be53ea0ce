//! What a run reports.

use sb_sound_plays::Starts;

/// How a run ended, and the disk's clock when each item began: a command, or a bad line.
#[derive(Drop)]
pub struct Report {
    pub status: u8,
    pub starts: Starts,
}
