//! Pages as bytes: how many they have, bytes written over others, and numbers in fields of fixed width, the highest
//! byte first.
#![tactic(auto)]

mod bytes;
mod field;
mod laws;
mod page;

pub use bytes::splice;
pub use field::{get_u16, get_u32, get_u64, put_u16, put_u32, put_u64};
pub use laws::{leaves_others, reads_back, writes_back};
pub use page::{MOST_PAGES, PAGE_LEN};
