//! Tokens of a line.

use sb_value::{RecKey, Str};

#[derive(Clone, Copy, Debug, PartialEq, Eq)]
pub enum Sign {
    Open,
    Close,
    Comma,
    Dot,
    Equal,
    Unequal,
    Less,
    LessOrEqual,
    Greater,
    GreaterOrEqual,
}

/// A word is a keyword or a name: which of them, the grammar says.
#[derive(Drop)]
pub enum Token {
    Word(Str),
    Int(i64),
    /// Without its quotes, and with each doubled quote as one.
    Text(Str),
    Key(RecKey),
    Sign(Sign),
}

/// A token and the column of its first byte. Columns are counted in bytes, from 1.
#[derive(Drop)]
pub struct Placed {
    pub token: Token,
    pub column: u32,
}

/// Where the tokens of a line end: `Whole` behind its last byte, `Stuck` at the first place where no token can be read.
#[derive(Clone, Copy, Debug, PartialEq, Eq)]
pub enum Ending {
    Whole(u32),
    Stuck(u32),
}
