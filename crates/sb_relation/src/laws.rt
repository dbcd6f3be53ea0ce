//! Laws of rules.

ghost use Rattle.sb_relation.specs.Laws.{MirrorsMirror, NoRowsNoImage, HoldsRowByRow};

/// The mirror of a rule says all that the rule says.
pub fn a_mirrors_mirror()
    ensures { MirrorsMirror }
{}

/// Over no rows an attachment contains nothing.
pub fn no_rows_no_image()
    ensures { NoRowsNoImage }
{}

/// A rule that is tested of each new row alone holds where all rows would be admitted one by one.
pub fn holds_row_by_row()
    ensures { HoldsRowByRow }
{}
