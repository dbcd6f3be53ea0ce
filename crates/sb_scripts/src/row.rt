//! What a run gets, and what it comes to.

/// What a run gets, and what it comes to.
#[derive(Clone, Copy, Drop)]
pub struct Row<'a> {
    pub words: &'static [&'static str],
    /// The size of a new disk of zeros; None: the disk of the run before.
    pub disk: Option<u64>,
    pub checks: usize,
    pub triggers: usize,
    pub script: &'a [u8],
    /// The calls on the source and the sink that fail.
    pub source_fails: Option<u64>,
    pub sink_fails: Option<u64>,
    /// So many bytes are taken at most.
    pub most: u64,
    pub output: &'static [u8],
    pub status: u8,
    /// How many items have begun.
    pub begun: usize,
}

pub const OPENED: Row<'static> = Row {
    words: &["--store", "s"],
    disk: None,
    checks: 1,
    triggers: 1,
    script: b"",
    source_fails: None,
    sink_fails: None,
    most: 1 << 32,
    output: b"",
    status: 0,
    begun: 0,
};

/// The words of the smallest store, and the bytes that it takes of a disk.
pub const SMALLEST: [&str; 9] = [
    "--store", "s", "--create", "--pages", "64", "--log", "2097152", "--frames", "8",
];

pub const SIZE: u64 = 2_428_928;

// Rows that are passed by reference are statics: a constant is put together wherever it is named.

/// Makes the smallest store.
pub static MAKING: Row<'static> = Row {
    words: &SMALLEST,
    ..OPENED
};

/// A script with a line for each number from 0 on.
pub struct Numbered {
    pub front: &'static str,
    /// What stands in a line in front of its number, and behind it.
    pub before: &'static str,
    pub after: &'static str,
    pub count: u32,
    pub behind: &'static str,
}
