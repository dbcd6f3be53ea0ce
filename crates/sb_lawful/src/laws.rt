//! Laws of what building commands leave.

ghost use Rattle.sb_lawful.specs.Laws.{CreatedIsLawful, CreateLeavesLawful, DetachedIsLawful, DetachLeavesLawful};
ghost use Rattle.sb_lawful.specs.Laws.{DroppedIsLawful, DropLeavesLawful, AttachedIsLawful, AttachLeavesLawful};
ghost use Rattle.sb_lawful.specs.Laws.{DotlessIsNoMirror, DotlessIsMirrorFree, BuildingLeavesWellNamed};

/// A relation that may be made leaves a lawful database lawful. So does a step of the command, whether it is refused or not.
pub fn creating_leaves_lawful()
    ensures database { CreatedIsLawful }
    ensures step { CreateLeavesLawful }
{}

/// An attachment that is detached goes with its mirror, and leaves a lawful database lawful. A mirror's own name is no name of the language, since it has
/// a dot; without its mirror a main instance isn't lawful, so a step takes it that the name isn't that of a mirror.
pub fn detaching_leaves_lawful()
    ensures database { DetachedIsLawful }
    ensures step { DetachLeavesLawful }
{}

/// A relation that no other relation's attachment names goes with its attachments and their mirrors, and leaves a lawful database lawful. A step of the
/// command is refused where one names it.
pub fn dropping_leaves_lawful()
    ensures database { DroppedIsLawful }
    ensures step { DropLeavesLawful }
{}

/// A rule that may be attached leaves a lawful database lawful with its mirror, where no row that stands is too long for it, and no attachment of the
/// mirror's relation has the mirror's name. The language makes main instances alone, under names without a dot, so that a mirror's name is always free.
pub fn attaching_leaves_lawful()
    ensures database { AttachedIsLawful }
    ensures step { AttachLeavesLawful }
{}

/// Where names of relations and main instances have no dot, as the language makes them, those of mirrors are always free, and none of a mirror is named:
/// so a step of a building command leaves lawful databases with such names, without any other condition.
pub fn building_leaves_well_named()
    ensures no_mirror { DotlessIsNoMirror }
    ensures mirror_free { DotlessIsMirrorFree }
    ensures step { BuildingLeavesWellNamed }
{}
