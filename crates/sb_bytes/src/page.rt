//! The numbers of pages.

/// The bytes of a page: on the disk, in the log and in memory, of a store and of each instance.
pub const PAGE_LEN: usize = 4096;

/// The most pages that a store or an instance has. Their numbers are below.
pub const MOST_PAGES: u32 = 65536;
