//! Reading and writing of one field.

ghost use Rattle.std.specs.Prelude.{◌≡◌, ◌+◌, ◌≤◌, length};
ghost use Rattle.sb_bytes.specs.Field.{number_at, with_number};

use byteorder::{BigEndian, ByteOrder};

#[tactic(auto, unfolding(crate::specs::Field::number_at))]
pub fn get_u16(b: &[u8], at: usize) -> u16
    requires { at + 2 ≤ length b.now }
    ensures { result ≡ number_at 2 b.now at }
{
    BigEndian::read_u16(&b[at..])
}

#[tactic(auto, unfolding(crate::specs::Field::number_at))]
pub fn get_u32(b: &[u8], at: usize) -> u32
    requires { at + 4 ≤ length b.now }
    ensures { result ≡ number_at 4 b.now at }
{
    BigEndian::read_u32(&b[at..])
}

#[tactic(auto, unfolding(crate::specs::Field::number_at))]
pub fn get_u64(b: &[u8], at: usize) -> u64
    requires { at + 8 ≤ length b.now }
    ensures { result ≡ number_at 8 b.now at }
{
    BigEndian::read_u64(&b[at..])
}

#[tactic(auto, unfolding(crate::specs::Field::with_number))]
pub fn put_u16(b: &mut [u8], at: usize, v: u16)
    requires { at + 2 ≤ length b.old }
    ensures { b.new ≡ with_number 2 b.old at v }
{
    BigEndian::write_u16(&mut b[at..], v);
}

#[tactic(auto, unfolding(crate::specs::Field::with_number))]
pub fn put_u32(b: &mut [u8], at: usize, v: u32)
    requires { at + 4 ≤ length b.old }
    ensures { b.new ≡ with_number 4 b.old at v }
{
    BigEndian::write_u32(&mut b[at..], v);
}

#[tactic(auto, unfolding(crate::specs::Field::with_number))]
pub fn put_u64(b: &mut [u8], at: usize, v: u64)
    requires { at + 8 ≤ length b.old }
    ensures { b.new ≡ with_number 8 b.old at v }
{
    BigEndian::write_u64(&mut b[at..], v);
}
