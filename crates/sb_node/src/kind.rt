//! Kinds of entry pages, as the first byte of a page has them.

pub const HEAP: u8 = 1;

pub const TREE_LEAF: u8 = 2;

pub const TREE_INNER: u8 = 3;

pub const HASH_ROOT: u8 = 4;

pub const HASH_DIRECTORY: u8 = 5;

pub const HASH_BUCKET: u8 = 6;
