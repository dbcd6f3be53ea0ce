/// A record of the log. Its byte strings are borrowed.
///
/// An image has 4,096 bytes. The bytes of a change before and after it are of one length, at least 1, and lie within the page.
#[derive(Clone, Copy, Debug, PartialEq, Eq)]
pub enum Rec<'a> {
    /// A transaction begins.
    Begin {
        tx: u32,
    },
    /// A page as it stands before its first change since the last checkpoint.
    Image {
        page: u32,
        bytes: &'a [u8],
    },
    /// A transaction changes a range of a page that an owner has.
    Change {
        tx: u32,
        owner: u16,
        page: u32,
        offset: u16,
        before: &'a [u8],
        after: &'a [u8],
    },
    /// Of the changes of a transaction the first n stand.
    Back {
        tx: u32,
        n: u32,
    },
    /// A transaction is committed.
    Commit {
        tx: u32,
    },
}
