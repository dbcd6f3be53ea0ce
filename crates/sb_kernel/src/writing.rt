//! Writing to a sink.

ghost use Rattle.sb_disk.specs.Causes.{HasCause};
ghost use Rattle.sb_kernel.specs.Writing.{Wrote};

use sb_disk::{Failed, Sink};

/// Gives all of the bytes to the sink, in as many calls as it wants.
pub fn write_all<K: Sink>(sink: &mut K, bytes: &[u8]) -> Result<(), Failed>
    ensures wrote { Wrote (K.held sink.old) (K.held sink.new) bytes.now result }
    ensures cause { HasCause (K.faults sink.old) (K.faults sink.new) result }
{
    let mut rest = bytes;
    while !rest.is_empty() {
        let count = sink.write(rest)?;
        let (_, behind) = rest.split_at(count);
        rest = behind;
    }
    Ok(())
}
