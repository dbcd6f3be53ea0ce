//! What is known of an open database without its rows.

ghost use Rattle.std.specs.Prelude.{◌≡◌, ◌<◌, ◌^◌, true, false, cond, length, T, ℕ, Option, option_copied, IfOk, IfErr};
ghost use Rattle.std.specs.List.{list_any};
ghost use Rattle.std.specs.FinMap.Entries.{is_sorted};
ghost use Rattle.sb_value.specs.Order.{bytes_cmp};
ghost use Rattle.sb_relation.specs.Db.{Name, relation_at};
ghost use Rattle.sb_relation.specs.Fits.{foreign_method_fits, foreign_rule_fits};
ghost use Rattle.sb_relation.specs.Foreign.{attach_rules};
ghost use Rattle.sb_fold.specs.declared.refusal.Refusal.{Refusal};
ghost use Rattle.sb_fold.specs.declared.refusal.Refusal.TheVariants.{NoMemory};
ghost use Rattle.sb_fold.specs.Extensions.{Extensions, method_of, is_durable_method};
ghost use Rattle.sb_plain.specs.State.{State, view, is_inside, points_of, is_point, has_waiting, codes_of, has_code};
ghost use Rattle.sb_refusals.specs.Catalogue.{Describes, IsFirst, above, is_damage, is_free};

use sb_catalog::Descriptor;
use sb_fold::Refusal;
use sb_value::{Bytes, Names, Schema, Str};
use std::alloc::Global;

/// What is known of an open database without its rows, of its transaction, and of the extensions.
pub trait Catalogue {
    /// It serves.
    ghost is_ready: { Self → Type 0 };

    ghost extensions: { Self → Extensions };

    /// It is of this state.
    ghost sees: { State → Self → Type 0 };

    /// What calls make of it, whatever they answer.
    ghost leads: { Self → Self → Type 0 };

    /// What a call leaves that it refuses so.
    ghost fails: { Refusal → Self → Self → Type 0 };

    /// The descriptor of a relation, or None where it isn't there.
    fn descriptor(&mut self, alloc: Global, name: &Str) -> Result<Option<Descriptor>, Refusal>
        requires ready { is_ready self.old }
        ensures found { IfOk result (λ d. (s : State) → sees s self.old → Describes (relation_at (view s) name.now) d × sees s self.new) }
        ensures free { IfErr result (λ r. is_free r ≡ true) }
        ensures undamaged { IfErr result (λ r. (s : State) → sees s self.old → is_damage r ≡ false) }
        ensures fails { IfErr result (λ r. fails r self.old self.new) }
        ensures leads { leads self.old self.new }
        ensures ready { is_ready self.new };

    /// The first relation by name behind this one, or of all.
    fn next(
        &mut self,
        alloc: Global,
        after: Option<&Str>,
    ) -> Result<Option<(Str, Descriptor)>, Refusal>
        requires ready { is_ready self.old }
        ensures found { IfOk result (λ x. (s : State) → sees s self.old → IsFirst (above (option_copied after.entry) (view s)) x × sees s self.new) }
        ensures free { IfErr result (λ r. is_free r ≡ true) }
        ensures undamaged { IfErr result (λ r. (s : State) → sees s self.old → is_damage r ≡ false) }
        ensures fails { IfErr result (λ r. fails r self.old self.new) }
        ensures leads { leads self.old self.new }
        ensures ready { is_ready self.new };

    fn is_down(&self) -> bool
        ensures { (s : State) → sees s self.now → result ≡ s.down };

    /// Whether a transaction is open.
    fn is_inside(&self) -> bool
        ensures { (s : State) → sees s self.now → result ≡ is_inside s };

    /// Whether actions wait for the commit.
    fn has_waiting(&self) -> bool
        ensures { (s : State) → sees s self.now → result ≡ has_waiting s };

    /// How many savepoints there are.
    fn points(&self) -> usize
        ensures { (s : State) → sees s self.now → result ≡ length (points_of s) };

    fn has_point(&self, name: &Str) -> bool
        ensures { (s : State) → sees s self.now → result ≡ list_any (is_point name.now) (points_of s) };

    /// Whether a method or an attachment of this code is live, or spare.
    fn has_code(&self, live: bool, method: bool, code: u16) -> bool
        ensures { (s : State) → sees s self.now → result ≡ has_code (codes_of method (cond live s.live s.spare)) code };

    /// Whether the foreign method of this code keeps relations of these columns and this key.
    fn method_fits(&self, code: u16, schema: &Schema, key: &Names) -> bool
        ensures { (s : State) → sees s self.now → result ≡ foreign_method_fits (method_of (extensions self.now) code) schema.now key.now };

    /// Whether the foreign attachment of this code may stand on these columns with this desc.
    fn rule_fits(&self, code: u16, schema: &Schema, desc: &Bytes) -> bool
        ensures { (s : State) → sees s self.now
            → result ≡ foreign_rule_fits (attach_rules code (extensions self.now).boxes.attachments) schema.now desc.now };

    /// Whether relations of this method outlive the run.
    fn is_durable(&self, method: u16) -> bool
        ensures { (s : State) → sees s self.now → result ≡ is_durable_method (extensions self.now) method };

    /// What no call changes.
    ghost stays: { (a : Self) → leads a a };

    ghost goes_on: { (a b c : Self) → leads a b → leads b c → leads a c };

    ghost fails_on: { (r : Refusal) (a b c : Self) → leads a b → fails r b c → fails r a c };

    /// Memory may be wanting at any time.
    ghost wants: { (a b : Self) → leads a b → fails NoMemory a b };

    ghost same: { (a b : Self) → leads a b → extensions b ≡ extensions a };

    /// Relations stand in the order of their names, and there are fewer than 2^64.
    ghost rising: { (s : State) (a : Self) → sees s a → T (is_sorted bytes_cmp (view s)) };

    ghost few: { (s : State) (a : Self) → sees s a → length (view s) < 2 ^ 64 };
}
