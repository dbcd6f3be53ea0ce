//! How often a device has failed.

ghost use Rattle.std.specs.Prelude.{◌≡◌, is_err, IfOk};
ghost use Rattle.sb_disk.specs.Causes.{HasCause};
ghost use Rattle.sb_filedisk.specs.Counts.{Counts};

use sb_disk::Failed;
use std::io;

/// A count of failures, up to the greatest u64.
#[derive(Clone, Copy, Debug, Drop)]
pub struct Faults {
    pub count: u64,
}

impl Faults {
    /// What a call came to, which is counted where it failed.
    pub fn note<T>(&mut self, outcome: io::Result<T>) -> Result<T, Failed>
        ensures ok { IfOk result (λ value. IfOk outcome (λ given. value ≡ given)) }
        ensures same { is_err result ≡ is_err outcome }
        ensures counted { Counts self.old.count self.new.count result }
        ensures cause { HasCause self.old.count self.new.count result }
    {
        match outcome {
            Ok(value) => Ok(value),
            Err(_) => {
                self.count = self.count.saturating_add(1);
                Err(Failed)
            }
        }
    }
}
