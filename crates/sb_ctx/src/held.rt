//! One page as a Ctx holds it.

ghost use Rattle.std.specs.Prelude.{◌≡◌, ◌+◌, ◌<◌, ◌≤◌, All, true, [], length, replicate, OnOk, OnErr, IfOk};
ghost use Rattle.sb_bytes.specs.Bytes.{splice};
ghost use Rattle.sb_ctx.specs.View.{HeldPage, given_page, fresh_page, as_given, is_edited, is_freed, is_answer_to};
ghost use Rattle.sb_ctx.specs.Sized.{IsSized};
ghost use Rattle.sb_forms.specs.Pages.{zeros};

use crate::Keys;
use sb_bytes::{PAGE_LEN, splice};
use sb_value::{Names, Str, Tuple};
use std::alloc::{AllocError, Global};
use std::marker::Model;

/// What was made of a page since it was given.
#[derive(Clone, Copy, Debug, PartialEq, Eq)]
pub enum Use {
    Given,
    Edited,
    Freed,
    Fresh,
    Taken,
}

/// A page with its number. `work` has the bytes of an edited or taken page, and the room for those of a fresh one.
#[derive(Drop)]
pub struct Held {
    number: u32,
    given: Vec<u8>,
    work: Vec<u8>,
    state: Use,
}

impl Model for Held {
    ghost use Rattle.std.specs.Prelude.{◌≡◌, ℕ, [], length};
    ghost use Rattle.sb_ctx.specs.View.{HeldPage};
    ghost use Rattle.sb_ctx.specs.Uses.{now_in, is_fresh_use, IsKept};

    ghost Value = { ℕ × HeldPage };

    ghost view = { λ h. (h.number, record { given = h.given.items; now = now_in h.state h.given.items h.work.items; fresh = is_fresh_use h.state }) };

    ghost invariant = { λ h. IsKept h.state h.given.items h.work.items };
}

impl Held {
    /// A page as the driver has it. Without bytes it isn't one of the instance's.
    pub fn given(number: u32, bytes: Vec<u8>) -> Held
        ensures page { result ≡ (number, given_page bytes.items) }
        ensures sized { IsSized result.1 }
    {
        let work = Vec::new(*bytes.allocator());
        Held {
            number,
            given: bytes,
            work,
            state: Use::Given,
        }
    }

    /// A fresh page, that isn't taken yet.
    pub fn fresh(alloc: Global, number: u32) -> Result<Held, AllocError>
        ensures page { IfOk result (λ h. h ≡ (number, fresh_page)) }
        ensures sized { IfOk result (λ h. IsSized h.1) }
    {
        Ok(Held {
            number,
            given: Vec::new(alloc),
            work: vec![in alloc; 0; PAGE_LEN]?,
            state: Use::Fresh,
        })
    }

    pub fn number(&self) -> u32
        ensures { result ≡ self.now.0 }
    {
        self.number
    }

    /// The bytes with the edits.
    pub fn bytes(&self) -> &[u8]
        ensures { result.now ≡ self.now.1.now }
    {
        match self.state {
            Use::Given => &self.given,
            Use::Edited | Use::Taken => &self.work,
            Use::Freed | Use::Fresh => &[],
        }
    }

    pub fn is_fresh(&self) -> bool
        ensures { result ≡ self.now.1.fresh }
    {
        matches!(self.state, Use::Fresh | Use::Taken)
    }

    /// Whether it has other bytes than it was given with.
    pub fn is_edited(&self) -> bool
        ensures { result ≡ is_edited self.now.1 }
    {
        let bytes = self.bytes();
        !bytes.is_empty() && bytes != self.given.as_slice()
    }

    /// Whether it was given with bytes and has none now.
    pub fn is_freed(&self) -> bool
        ensures { result ≡ is_freed self.now.1 }
    {
        self.bytes().is_empty() && !self.given.is_empty()
    }

    /// Writes the bytes over those from the offset on.
    pub fn edit(&mut self, offset: usize, bytes: &[u8]) -> Result<(), AllocError>
        requires { offset + length bytes.now ≤ length self.old.1.now }
        ensures ok { OnOk result (self.new ≡ (self.old.0, record self.old.1 { now = splice offset bytes.now self.old.1.now })) }
        ensures err { OnErr result (self.new ≡ self.old) }
        ensures bytes { All (λ b. b < 256) bytes.now }
    {
        match self.state {
            Use::Given => {
                let mut work = self.given.as_slice().to_vec(*self.given.allocator())?;
                splice(&mut work, offset, bytes);
                self.work = work;
                self.state = Use::Edited;
            }
            Use::Edited | Use::Taken => splice(&mut self.work, offset, bytes),
            Use::Freed | Use::Fresh => {}
        }
        Ok(())
    }

    /// The page isn't the instance's any more, or not taken any more.
    pub fn free(&mut self)
        ensures { self.new ≡ (self.old.0, record self.old.1 { now = [] }) }
    {
        self.state = match self.state {
            Use::Given | Use::Edited | Use::Freed => Use::Freed,
            Use::Fresh | Use::Taken => Use::Fresh,
        };
    }

    /// Takes a fresh page: its bytes are zeros.
    pub fn take(&mut self)
        requires { self.old.1.fresh ≡ true }
        ensures { self.new ≡ (self.old.0, record self.old.1 { now = zeros }) }
    {
        clear(&mut self.work);
        self.state = Use::Taken;
    }

    /// As it was given.
    pub fn drop_edits(&mut self)
        ensures { self.new ≡ (self.old.0, as_given self.old.1) }
    {
        self.state = match self.state {
            Use::Given | Use::Edited | Use::Freed => Use::Given,
            Use::Fresh | Use::Taken => Use::Fresh,
        };
    }
}

fn clear(page: &mut [u8])
    ensures { page.new ≡ replicate (length page.old) 0 }
{
    page.fill(0);
}

/// The answer to a find: the record keys of the rows of a relation whose columns have these values.
#[derive(Drop)]
pub struct Found {
    pub relation: Str,
    pub columns: Names,
    pub values: Tuple,
    pub keys: Keys,
}

impl Found {
    pub fn answers(&self, relation: &Str, columns: &Names, values: &Tuple) -> bool
        ensures { result ≡ is_answer_to relation.now columns.now values.now self.now }
    {
        self.relation == *relation
            && self.columns.as_slice() == columns.as_slice()
            && self.values == *values
    }
}
