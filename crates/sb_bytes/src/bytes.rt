//! Bytes over bytes.

ghost use Rattle.std.specs.Prelude.{◌≡◌, ◌+◌, ◌≤◌, length};
ghost use Rattle.sb_bytes.specs.Bytes.{splice};

/// Puts the new bytes over those that stand from a place on.
pub fn splice(bytes: &mut [u8], at: usize, new: &[u8])
    requires { at + length new.now ≤ length bytes.old }
    ensures { bytes.new ≡ splice at new.now bytes.old }
{
    bytes[at..at + new.len()].copy_from_slice(new);
}
