//! How a source or a sink in memory goes from call to call.

ghost use Rattle.std.specs.Prelude.{◌≡◌, ◌+◌, ◌-◌, ◌^◌, ◌≤◌, min, is_err};
ghost use Rattle.sb_disk.specs.Causes.{HasCause};
ghost use Rattle.sb_memdisk.specs.Streams.{is_call, is_due, new_pace, GoesOn};

use sb_disk::Failed;

/// The most bytes of a call, the call that fails, and the calls and failures so far.
#[derive(Clone, Copy, Debug, Drop)]
pub struct Pace {
    pub piece: usize,
    pub fail_at: Option<u64>,
    pub calls: u64,
    pub faults: u64,
}

impl Pace {
    pub fn new(piece: usize, fail_at: Option<u64>) -> Pace
        ensures { result ≡ new_pace piece fail_at }
    {
        Pace {
            piece,
            fail_at,
            calls: 0,
            faults: 0,
        }
    }

    /// Counts a call, and fails where the call is to.
    pub fn count_call(&mut self) -> Result<(), Failed>
        ensures exactly { is_err result ≡ is_due self.old }
        ensures cause { HasCause self.old.faults self.new.faults result }
        ensures pace { GoesOn self.old self.new result }
    {
        let fails = is_named(self.fail_at, self.calls);
        self.calls = self.calls.saturating_add(1);
        if fails {
            return Err(self.fault());
        }
        Ok(())
    }

    /// Counts a failure.
    pub fn fault(&mut self) -> Failed
        ensures later { self.old.faults ≤ self.new.faults }
        ensures counted { self.new ≡ record self.old { faults = min (self.old.faults + 1) (2 ^ 64 - 1) } }
    {
        self.faults = self.faults.saturating_add(1);
        Failed
    }
}

// Whether the call with this number is to fail.
fn is_named(fail_at: Option<u64>, number: u64) -> bool
    ensures { result ≡ is_call fail_at number }
{
    match fail_at {
        Some(call) => call == number,
        None => false,
    }
}
