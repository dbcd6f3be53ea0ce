//! Laws of fields, for every width.

ghost use Rattle.sb_bytes.specs.Field.{ReadsBack, WritesBack, LeavesOthers};

/// Reading a field gives the number that was written to it.
pub fn reads_back()
    ensures { ReadsBack }
{}

/// A field that was read and is written again leaves the bytes.
pub fn writes_back()
    ensures { WritesBack }
{}

/// A field that lies before or behind the one that is written is read as before.
pub fn leaves_others()
    ensures { LeavesOthers }
{}
