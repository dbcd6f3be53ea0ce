//! The spelling of tuples, and the ordered code of their values.
#![tactic(auto)]

mod code;
mod key;
mod laws;
mod length;
mod tuple;

pub use key::{ordered_key, unordered_key};
pub use laws::{keeps_order, one_list, one_tuple};
pub use length::{key_len, tuple_len};
pub use tuple::{decode_tuple, encode_tuple};
