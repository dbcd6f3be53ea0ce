//! What a boxed call sees.

ghost use Rattle.std.specs.Prelude.{◌≡◌, ◌≢◌, ◌+◌, ◌-◌, ◌^◌, min, ◌≤◌, [], ◌==◌, map, length, take_while, nat_lt, ◌&&◌, IsSome, IfSome, OnOk, OnErr, option_map, MatchOption};
ghost use Rattle.std.specs.List.{slice_get, position};
ghost use Rattle.std.specs.Ordering.{nat_cmp};
ghost use Rattle.std.specs.FinMap.Entries.{put};
ghost use Rattle.sb_forms.specs.Fits.{is_empty};
ghost use Rattle.sb_forms.specs.Pages.{zeros};
ghost use Rattle.sb_ctx.specs.Sized.{IsSized, IsCtx};
ghost use Rattle.sb_ctx.specs.Sound.{IsSound, MayBeHeld};
ghost use Rattle.sb_bytes.specs.Bytes.{splice};
ghost use Rattle.sb_ctx.specs.View.{nothing, page_of, next_of, found_of, with_page, free_page, as_given, dropped, edited_pages, fresh_pages, freed_pages, with_held, given_page, fresh_page, holds_fresh, with_next, with_found, room_of};

use crate::Keys;
use crate::held::{Found, Held};
use sb_value::{Names, Str, Tuple};
use std::alloc::{AllocError, Global};
use std::marker::Model;

/// The pages of one instance that a boxed call was given, with what it made of them, and the answers to its questions.
#[derive(Drop)]
pub struct Ctx {
    held: Vec<Held>,
    nexts: Vec<(Option<u32>, Option<u32>)>,
    found: Vec<Found>,
    asks: u32,
}

impl Model for Ctx {
    ghost use Rattle.sb_ctx.specs.Sized.{AreSized};
    ghost use Rattle.sb_ctx.specs.Sound.{AreSound};
    ghost use Rattle.sb_ctx.specs.View.{View};

    ghost Value = { View };

    ghost view = { λ c. record { held = c.held.items; nexts = c.nexts.items; found = c.found.items; asks = c.asks } };

    ghost invariant = { λ c. AreSound c.held.items × AreSized c.held.items };
}

/// The caller's side.
impl Ctx {
    pub fn new(alloc: Global) -> Ctx
        ensures { result ≡ nothing }
    {
        Ctx {
            held: Vec::new(alloc),
            nexts: Vec::new(alloc),
            found: Vec::new(alloc),
            asks: 0,
        }
    }

    /// The bytes of a page with the edits, where it is held. A page without bytes isn't the instance's.
    pub fn page(&self, n: u32) -> Option<&[u8]>
        ensures { option_map (λ bytes. bytes.now) result ≡ page_of self.now n }
    {
        let i = place_of(&self.held, n)?;
        Some(self.held[i].bytes())
    }

    /// Writes the bytes over those of a held page from the offset on.
    pub fn edit(&mut self, n: u32, offset: u16, bytes: &[u8]) -> Result<(), AllocError>
        requires held { IsSome (page_of self.old n) }
        requires room { offset + length bytes.now ≤ room_of self.old n }
        ensures ok { OnOk result (IfSome (page_of self.old n) (λ page. self.new ≡ with_page n (splice offset bytes.now page) self.old)) }
        ensures err { OnErr result (self.new ≡ self.old) }
    {
        match place_of(&self.held, n) {
            Some(i) => self.held[i].edit(offset as usize, bytes),
            None => unreachable!(),
        }
    }

    /// Takes the fresh page of the least number. None where no fresh page is left.
    pub fn fresh(&mut self) -> Option<u32>
        ensures sound { IsSound self.old }
        ensures number { result ≡ free_page self.old }
        ensures taken { MatchOption result (self.new ≡ self.old) (λ n. self.new ≡ with_page n zeros self.old) }
    {
        let i = free_place(&self.held)?;
        self.held[i].take();
        Some(self.held[i].number())
    }

    /// Gives a page back: the instance hasn't it any more.
    pub fn free(&mut self, n: u32) -> Result<(), AllocError>
        requires { room_of self.old n ≢ 0 }
        ensures ok { OnOk result (self.new ≡ with_page n [] self.old) }
        ensures err { OnErr result (self.new ≡ self.old) }
    {
        match place_of(&self.held, n) {
            Some(i) => self.held[i].free(),
            None => unreachable!(),
        }
        Ok(())
    }

    /// The number of the instance's next page behind this one, or of its first page, where that is known.
    pub fn after(&self, n: Option<u32>) -> Option<Option<u32>>
        ensures { result ≡ next_of self.now n }
    {
        let (_, next) = self.nexts.iter().find(|known| known.0 == n)?;
        Some(*next)
    }

    /// The record keys of the rows of the relation whose columns have these values, where that is known.
    pub fn found(&self, relation: &Str, columns: &Names, values: &Tuple) -> Option<&Keys>
        ensures { option_map (λ keys. keys.now) result ≡ found_of self.now relation.now columns.now values.now }
    {
        let found = self
            .found
            .iter()
            .find(|found| found.answers(relation, columns, values))?;
        Some(&found.keys)
    }

    /// How many finds are answered, or 2^32 - 1 where there are more. A call may ask for eight.
    pub fn finds(&self) -> u32
        ensures { result ≡ min (length self.now.found) (2 ^ 32 - 1) }
    {
        self.found.len().min(u32::MAX as usize) as u32
    }

    /// How often something was given to this Ctx, or 2^32 - 1 where it was oftener.
    pub fn asks(&self) -> u32
        ensures { result ≡ self.now.asks }
    {
        self.asks
    }

    /// A lemma: what is so of the pages of every Ctx.
    pub fn is_ctx(&self)
        ensures { IsCtx self.now }
    {
        let _ = &self.held;
    }
}

/// The driver's side.
impl Ctx {
    /// Gives a page of the instance, or, without bytes, says that the page isn't one.
    pub fn give_page(&mut self, n: u32, bytes: &[u8]) -> Result<(), AllocError>
        ensures ok { OnOk result (self.new ≡ with_held n (given_page bytes.now) self.old) }
        ensures err { OnErr result (self.new ≡ self.old) }
    {
        let bytes = bytes.to_vec(*self.held.allocator())?;
        self.hold(Held::given(n, bytes))
    }

    /// Gives a page that nobody has, for the call to take.
    pub fn give_fresh(&mut self, n: u32) -> Result<(), AllocError>
        ensures ok { OnOk result (self.new ≡ with_held n fresh_page self.old) }
        ensures err { OnErr result (self.new ≡ self.old) }
    {
        let page = Held::fresh(*self.held.allocator(), n)?;
        self.hold(page)
    }

    /// Says which page of the instance is the next one behind this page, or the first one.
    pub fn give_after(&mut self, n: Option<u32>, next: Option<u32>) -> Result<(), AllocError>
        ensures ok { OnOk result (self.new ≡ with_next n next self.old) }
        ensures err { OnErr result (self.new ≡ self.old) }
    {
        self.nexts.insert(0, (n, next))?;
        self.asks = self.asks.saturating_add(1);
        Ok(())
    }

    /// Answers a find.
    pub fn give_found(
        &mut self,
        relation: &Str,
        columns: &Names,
        values: &Tuple,
        keys: &Keys,
    ) -> Result<(), AllocError>
        ensures ok { OnOk result (self.new ≡ with_found (record { relation = relation.now; columns = columns.now; values = values.now; keys = keys.now }) self.old) }
        ensures err { OnErr result (self.new ≡ self.old) }
    {
        let found = Found {
            relation: relation.copy()?,
            columns: columns.copy()?,
            values: values.copy()?,
            keys: keys.copy()?,
        };
        self.found.insert(0, found)?;
        self.asks = self.asks.saturating_add(1);
        Ok(())
    }

    /// Whether the page is held as a fresh one, taken or not.
    pub fn holds_fresh(&self, n: u32) -> bool
        ensures { result ≡ holds_fresh self.now n }
    {
        match place_of(&self.held, n) {
            Some(i) => self.held[i].is_fresh(),
            None => false,
        }
    }

    /// Drops what the call made: taken pages are free again, and freed ones are back.
    pub fn drop_edits(&mut self)
        ensures { self.new ≡ dropped self.old }
    {
        drop_all_edits(&mut self.held);
    }

    /// The number of the i-th page that has other bytes than it was given with, by rising number.
    pub fn edited(&self, i: u32) -> Option<u32>
        ensures { result ≡ slice_get (edited_pages self.now) i }
    {
        self.held
            .iter()
            .filter(|held| held.is_edited())
            .map(|held| held.number())
            .nth(i as usize)
    }

    /// The number of the i-th fresh page that was given, by rising number, and whether it is taken.
    pub fn fresh_given(&self, i: u32) -> Option<(u32, bool)>
        ensures { result ≡ slice_get (fresh_pages self.now) i }
    {
        self.held
            .iter()
            .filter(|held| held.is_fresh())
            .map(|held| (held.number(), !held.bytes().is_empty()))
            .nth(i as usize)
    }

    /// The number of the i-th page that was freed, by rising number.
    pub fn freed(&self, i: u32) -> Option<u32>
        ensures { result ≡ slice_get (freed_pages self.now) i }
    {
        self.held
            .iter()
            .filter(|held| held.is_freed())
            .map(|held| held.number())
            .nth(i as usize)
    }

    fn hold(&mut self, page: Held) -> Result<(), AllocError>
        requires may { MayBeHeld page.1 }
        requires sized { IsSized page.1 }
        ensures ok { OnOk result (self.new ≡ with_held page.0 page.1 self.old) }
        ensures err { OnErr result (self.new ≡ self.old) }
    {
        put(&mut self.held, page)?;
        self.asks = self.asks.saturating_add(1);
        Ok(())
    }
}

/// Where the page of this number stands.
fn place_of(held: &[Held], n: u32) -> Option<usize>
    ensures { result ≡ position (λ e. e.0 == n) held.now }
{
    held.iter().position(|page| page.number() == n)
}

/// Where the first fresh page stands that isn't taken.
fn free_place(held: &[Held]) -> Option<usize>
    ensures { result ≡ position (λ e. e.1.fresh && is_empty e.1.now) held.now }
{
    held.iter()
        .position(|page| page.is_fresh() && page.bytes().is_empty())
}

/// How many pages at the front have lesser numbers.
fn lesser(held: &[Held], n: u32) -> usize
    ensures { result ≡ length (take_while (λ e. nat_lt e.0 n) held.now) }
{
    held.iter().take_while(|page| page.number() < n).count()
}

/// Puts the page to its place by its number.
fn put(held: &mut Vec<Held>, page: Held) -> Result<(), AllocError>
    ensures ok { OnOk result (held.new.items ≡ put nat_cmp page.0 page.1 held.old.items) }
    ensures err { OnErr result (held.new.items ≡ held.old.items) }
{
    let place = lesser(held, page.number());
    if place < held.len() && held[place].number() == page.number() {
        held[place] = page;
    } else {
        held.insert(place, page)?;
    }
    Ok(())
}

fn drop_all_edits(held: &mut [Held])
    ensures { held.new ≡ map (λ e. (e.0, as_given e.1)) held.old }
{
    for page in held.iter_mut() {
        page.drop_edits();
    }
}
