//! The entries of a page, one after the other.

ghost use Rattle.std.specs.Prelude.{◌≡◌, ◌+◌, None, true};
ghost use Rattle.sb_bytes.specs.Field.{number_at};
ghost use Rattle.sb_node.specs.Page.{has_form, is_filled, node_in};

use crate::entries::{after_of, key_of, value_of};
use crate::head::{COUNT_AT, HEAD_SIZE};
use sb_bytes::get_u16;

/// The entries of a page in the order of their keys, as pairs of key and value.
#[derive(Clone, Copy)]
pub struct Entries<'a> {
    page: &'a [u8],
    at: usize,
    left: u16,
    ghost form: { has_form page.now ≡ true },
    ghost filled: { is_filled page.now (24 + number_at 2 page.now 4) None left at ≡ true },
}

impl<'a> Entries<'a> {
    ghost use Rattle.sb_node.specs.Walk.{entries_left};

    /// All entries of a page, in one pass.
    pub fn new(page: &'a [u8]) -> Self
        requires { has_form page.now ≡ true }
        ensures { entries_left result ≡ (node_in page.now).entries }
    {
        Entries {
            page,
            at: HEAD_SIZE,
            left: get_u16(page, COUNT_AT),
        }
    }
}

impl<'a> Iterator for Entries<'a> {
    ghost use Rattle.std.specs.Iterator.{YieldsFirstBy, item_count};
    ghost use Rattle.sb_node.specs.Walk.{entries_left, entry_read};

    type Item = (&'a [u8], &'a [u8]);

    ghost next_gives = { YieldsFirstBy entry_read entries_left };

    ghost remaining = { item_count entries_left };

    fn next(&mut self) -> Option<(&'a [u8], &'a [u8])> {
        if self.left == 0 {
            return None;
        }
        let key = key_of(self.page, self.at);
        let value = value_of(self.page, self.at);
        let after = after_of(self.page, self.at);
        self.left -= 1;
        self.at = after;
        Some((key, value))
    }
}
