//! Numbers that look random, the same in each run.

ghost use Rattle.std.specs.Prelude.{◌<◌};

/// Each number is 1,103,515,245 times the one before it and 12,345 more, modulo 2^31: x' = (x * 1103515245 + 12345) mod 2^31.
/// The low bits of such numbers come round soon, so just the upper 15 of 31 are drawn from.
#[derive(Clone, Copy)]
pub struct Random(u32);

impl Random {
    pub fn new(seed: u32) -> Random {
        Random(seed)
    }

    /// A number below this one.
    pub fn below(&mut self, most: u16) -> u16
        requires { 0 < most }
        ensures { result < most }
    {
        let next = (u64::from(self.0) * 1_103_515_245 + 12_345) % (1 << 31);
        self.0 = next as u32;
        (next / 65_536) as u16 % most
    }
}
