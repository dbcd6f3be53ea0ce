//! Why a command isn't carried out.

use sb_value::Str;

/// What is full: so much is used of a total. Pages are counted in data and temp, bytes in the log.
#[derive(Clone, Copy, Debug, PartialEq, Eq)]
pub enum Room {
    /// The pages of the store.
    Data { used: u32, total: u32 },
    /// The pages of the relations that end with the run.
    Temp { used: u32, total: u32 },
    /// The bytes of the log; so many more would be needed.
    Log { used: u64, need: u64, total: u64 },
    /// The gates of the log, one for each chunk.
    Gates { used: u32, total: u32 },
}

/// Why a command changes nothing. Up to `Limit`, and `TooLong` apart, they are tested in this order before anything changes.
#[derive(Drop)]
pub enum Refusal {
    /// The line isn't in the grammar. Columns are counted in bytes, from 1.
    Syntax { column: u32 },
    /// An earlier command met a fault or damage.
    Down,
    /// Of another place: inside a transaction, outside of one, or behind actions that wait for the commit.
    State,
    /// A relation that is named isn't there: the first in the order of the line.
    NoRelation { name: Str },
    /// The relation, the attachment or the savepoint is there already; or a column stands twice in one list.
    Exists { name: Str },
    /// An attachment, a savepoint or a column that is named isn't there: the first in the order of the line.
    NoName { name: Str },
    /// No live extension has the code, or no spare one that is to be registered.
    NoExtension { code: u16 },
    /// An attachment of another relation names the one that is to go, or an instance has the code that is to go. Of a method the name is `-`.
    InUse { relation: Str, name: Str },
    /// Values, columns or terms are of other kinds or of another number.
    Mistyped,
    /// A row has too long a text, spelling or ordered code.
    TooLong { relation: Str },
    /// A rule ties a relation that outlives the run to one that doesn't; or a join index ties a relation to itself.
    Mixed,
    /// Too many attachments or savepoints, too large a descriptor, or a rule that is too large.
    Limit,
    /// No row has the record key.
    NoRecord { relation: Str },
    /// Another row has the record key.
    Duplicate { relation: Str },
    /// An attachment doesn't admit a change, or a rule doesn't hold.
    Veto { relation: Str, name: Str },
    /// A sum is outside 64 bits, or no greater record key is left.
    Range { relation: Str },
    /// A change that follows from another is too deep.
    Depth,
    /// Too many actions waited for the commit.
    DeferLimit,
    /// There is no room.
    Room(Room),
    /// A page isn't of its form.
    Damaged { page: u32 },
    /// A device failed.
    Fault,
    /// Memory was wanting.
    NoMemory,
}
