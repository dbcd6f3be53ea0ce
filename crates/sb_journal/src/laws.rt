//! Laws of reading, for the layers above.

ghost use Rattle.sb_journal.specs.Chunks.{ReadsOneWay};
ghost use Rattle.sb_journal.specs.Opening.{PastIsUnread, PastIsOne};

/// An image reads as one list of chunks at most.
pub fn one_reading()
    ensures { ReadsOneWay }
{}

/// Where a chunk runs past the region, the contents read as no chunks: so `BadChunk` never comes where they read as some.
pub fn past_is_unread()
    ensures { PastIsUnread }
{}

/// The contents have one chunk that runs past the region at most: so the number of `BadChunk` is the only one that it could be.
pub fn past_is_one()
    ensures { PastIsOne }
{}
