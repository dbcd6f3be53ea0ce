//! Laws of steps.

ghost use Rattle.sb_plain.specs.Laws.{RefusedLeaves, OneCommitAtMost, OthersLeaveLawful, RefusedLeavesLawful, CommitLeavesLawful, ChangesLeaveLawful, ChangesKeepSound, RowsLeaveLawful};

/// A command that is refused leaves the state, but for what it spent. A commit that is refused ends its transaction.
pub fn refused_leaves()
    ensures { RefusedLeaves }
{}

/// A step adds the database of one commit, or none.
pub fn one_commit_at_most()
    ensures { OneCommitAtMost }
{}

/// Where all databases of a state are lawful and sound, they are so after a command that works on none, after one that is refused, after a commit for
/// which no action waits, and after one on rows of a relation that has no references and triggers.
pub fn lawful_states_lead_on()
    ensures others { OthersLeaveLawful }
    ensures refused { RefusedLeavesLawful }
    ensures commits { CommitLeavesLawful }
    ensures rows { RowsLeaveLawful }
{}

/// A change of a lawful database leaves a lawful one, where its new row fits the columns, isn't too long and has the record key that it should. What isn't
/// deferred stays sound, where no attachment vetoes the change and the relation has no references and triggers.
pub fn changes_keep_lawful()
    ensures lawful { ChangesLeaveLawful }
    ensures sound { ChangesKeepSound }
{}
