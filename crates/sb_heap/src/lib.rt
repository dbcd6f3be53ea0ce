//! The storage method heap: rows in entry pages, each under its page and its slot there.
//!
//! A page has the spellings of rows, each under a slot, a number of two bytes. Pages with 1,006 or more free bytes, room for
//! any row, are linked in a list through their heads: the root's field c names the first page, a page's a the next one and
//! its b the one before it, and 0 is none. A row goes to the first of them, or to a fresh page, which joins the list at its
//! front. So a change touches a fixed number of pages, whatever the size of the relation.
#![tactic(auto)]

mod insertion;
mod keys;
mod list;
mod lookup;
mod method;
mod page;
mod removal;
mod stop;
mod update;

pub use method::Heap;
