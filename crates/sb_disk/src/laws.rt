//! Laws of disks on which no byte is pending.

ghost use Rattle.sb_disk.specs.Laws.{WroteNoneIsSettled, FailedNoneIsSettled, SettledLeavesContents};

/// A write of no bytes leaves a settled disk settled, whether it succeeds or fails.
pub fn no_bytes_leave_none_pending()
    ensures wrote { WroteNoneIsSettled }
    ensures failed { FailedNoneIsSettled }
{}

/// A crash of a settled disk leaves what a read gives.
pub fn settled_leaves_contents()
    ensures { SettledLeavesContents }
{}
