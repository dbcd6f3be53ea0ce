//! Laws of records and of the changes that stand.

ghost use Rattle.sb_log.specs.Laws.{OneRecord, OneRowOfRecords, BadInOnePlace, BadIsNoRow, OwnChangesStand};

/// No spelling begins another.
pub fn one_record()
    ensures { OneRecord }
{}

/// Chunks spell one row of records.
pub fn one_row_of_records()
    ensures { OneRowOfRecords }
{}

/// A chunk that is bad is bad in one place, and is no row of records.
pub fn bad_in_one_place()
    ensures place { BadInOnePlace }
    ensures no_row { BadIsNoRow }
{}

/// Of what stands of all transactions, the changes of each are those that its own records say.
pub fn own_changes_stand()
    ensures { OwnChangesStand }
{}
