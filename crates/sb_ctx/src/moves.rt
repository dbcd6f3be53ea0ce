//! What boxed calls answer.

use crate::{Actions, Checks, Keys};
use sb_forms::Sums;
use sb_value::{Names, RecKey, Str, Tuple};

/// A question, or the end of a call. After a question the driver gives what is asked for and makes the call again.
#[derive(Drop)]
pub enum Move {
    Done,
    /// The change is admitted: the actions that follow at once, those that wait for the commit, and the entries that are
    /// tested then.
    Acts {
        now: Actions,
        late: Actions,
        checks: Checks,
    },
    /// Asks for the page of this number.
    Need(u32),
    /// Asks for a fresh page.
    Fresh,
    /// Asks for the number of the instance's next page, or of its first one.
    After(Option<u32>),
    /// Asks for the record keys of the rows whose columns have these values.
    Find {
        relation: Str,
        columns: Names,
        values: Tuple,
    },
    Veto,
    NoRecord,
    Duplicate,
    Range,
    Key(RecKey),
    Row(RecKey, Tuple),
    Entry(RecKey, RecKey),
    Sums(Sums),
    /// The record keys of the rows that a search finds.
    Hits(Keys),
    End,
    /// A held page isn't of its form.
    Broken(u32),
    NoMemory,
}
