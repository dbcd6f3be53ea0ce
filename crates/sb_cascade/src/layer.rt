//! What work on relations stands on.

ghost use Rattle.std.specs.Prelude.{◌≡◌, ◌<◌, ℕ, false, List, [], IfOk, IfErr, IfSome, option_map};
ghost use Rattle.std.specs.List.{All, flat_map};
ghost use Rattle.sb_rule.specs.declared.action.Action.{Action};
ghost use Rattle.sb_rule.specs.declared.action.Action.TheVariants as action;
ghost use Rattle.sb_rule.specs.declared.change.Change.{Change};
ghost use Rattle.sb_pred.specs.declared.predicate.Term.{Term};
ghost use Rattle.sb_relation.specs.Db.{Name};
ghost use Rattle.sb_relation.specs.Fits.{relation_of};
ghost use Rattle.sb_fold.specs.declared.refusal.Refusal.{Refusal};
ghost use Rattle.sb_fold.specs.Extensions.{Extensions};
ghost use Rattle.sb_fold.specs.Finish.{first_failing};
ghost use Rattle.sb_fold.specs.Fold.{matching};
ghost use Rattle.sb_fold.specs.Outcome.{Going, Trail};
ghost use Rattle.sb_fold.specs.Wishes.{Wish, Put, const_of};
ghost use Rattle.sb_cascade.specs.Runs.{Asked, IsQuiet, LooksFrom, MadeFrom, NotAsked, OnFault, StopsFrom, Unqueued, is_room, row_change};
ghost use Rattle.sb_cascade.specs.Steps.{wish_there};
ghost use Rattle.sb_cascade.specs.Wishes.{wish_of};

use crate::wish::Wish;
use sb_fold::Refusal;
use sb_rule::{Action, Change};
use sb_value::{RecKey, Str};
use std::alloc::Global;

/// Relations with their attachments, wherever they are kept. It stands for work on a database, which it is told to go on with row by row.
pub trait Layer {
    /// It serves.
    ghost is_ready: { Self → Type 0 };

    /// The extensions that it has.
    ghost extensions: { Self → Extensions };

    /// It stands for work that has come so far. What picks the work has left doesn't matter.
    ghost stands: { Going → Self → Type 0 };

    /// So it does, but that this change of a relation was asked of so many of its attachments alone, the first of them; what these
    /// have late waits already.
    ghost asks: { Name → Change → ℕ → Going → Self → Type 0 };

    /// It was stopped by this refusal when the work had this trail.
    ghost stopped: { Refusal → Trail → Self → Type 0 };

    /// A call on the disk has failed.
    ghost failed: { Self → Type 0 };

    /// The action is of a relation that is there, and its terms are values of its columns.
    ghost may_do: { Action → Self → Type 0 };

    /// The relation is there, and a row that is wished fits it.
    ghost may_wish: { Name → Wish → Self → Type 0 };

    /// The relation is there, and the change is one of its rows, which fit it.
    ghost may_ask: { Name → Change → Self → Type 0 };

    /// What calls make of it, whatever they answer.
    ghost leads: { Self → Self → Type 0 };

    /// Changes one row by the relation's storage method. No attachment has been asked behind it.
    fn change_row(&mut self, alloc: Global, name: &Str, wish: &Wish) -> Result<Change, Refusal>
        requires ready { is_ready self.old }
        requires may { may_wish name.now (wish_of wish.now) self.old }
        ensures made { IfOk result (λ c. (g : Going) → stands g self.old
            → MadeFrom (asks name.now c 0) (row_change (extensions self.old) name.now (wish_of wish.now)) g c self.new) }
        ensures may { IfOk result (λ c. may_ask name.now c self.new) }
        ensures refused { IfErr result (λ r. (g : Going) → stands g self.old
            → StopsFrom stopped (row_change (extensions self.old) name.now (wish_of wish.now)) g r self.new) }
        ensures fault { IfErr result (λ r. OnFault r (failed self.new)) }
        ensures leads { leads self.old self.new }
        ensures ready { is_ready self.new };

    /// Asks the attachment of this number, in call order from 0, to follow a change. It gives the actions that follow at once, or
    /// None where there are no more attachments.
    fn ask(
        &mut self,
        alloc: Global,
        name: &Str,
        change: &Change,
        i: usize,
    ) -> Result<Option<Vec<Action>>, Refusal>
        requires ready { is_ready self.old }
        requires may { may_ask name.now change.now self.old }
        ensures asked { IfOk result (λ x. (g : Going) → asks name.now change.now i g self.old
            → Asked stands (asks name.now change.now) (extensions self.old) name.now change.now i g (option_map (λ v. v.items) x) self.new) }
        ensures few { IfOk result (λ x. IfSome x (λ v. i < 256)) }
        ensures may { IfOk result (λ x. IfSome x (λ v. All (λ a. may_do a self.new) v.items)) }
        ensures refused { IfErr result (λ r. (g : Going) → asks name.now change.now i g self.old
            → NotAsked stopped (extensions self.old) name.now change.now i g r self.new) }
        ensures fault { IfErr result (λ r. OnFault r (failed self.new)) }
        ensures leads { leads self.old self.new }
        ensures ready { is_ready self.new };

    /// The record keys of the rows that an action is of, in rising order.
    fn matching(&mut self, alloc: Global, action: &Action) -> Result<Vec<RecKey>, Refusal>
        requires ready { is_ready self.old }
        requires may { may_do action.now self.old }
        ensures keys { IfOk result (λ keys. (g : Going) → stands g self.old → (keys.items ≡ matching g.db action.now) × stands g self.new) }
        ensures refused { IfErr result (λ r. (g : Going) → stands g self.old → LooksFrom stopped g r self.new) }
        ensures fault { IfErr result (λ r. OnFault r (failed self.new)) }
        ensures leads { leads self.old self.new }
        ensures ready { is_ready self.new };

    /// What an action wishes of the row of a key, where it still stands and still matches.
    fn wish_at(
        &mut self,
        alloc: Global,
        action: &Action,
        key: &RecKey,
    ) -> Result<Option<Wish>, Refusal>
        requires ready { is_ready self.old }
        requires may { may_do action.now self.old }
        ensures wish { IfOk result (λ x. (g : Going) → stands g self.old
            → (option_map wish_of x ≡ wish_there g.db action.now key.now) × stands g self.new) }
        ensures may { IfOk result (λ x. IfSome x (λ wish. may_wish (relation_of action.now) (wish_of wish) self.new)) }
        ensures refused { IfErr result (λ r. (g : Going) → stands g self.old → LooksFrom stopped g r self.new) }
        ensures fault { IfErr result (λ r. OnFault r (failed self.new)) }
        ensures leads { leads self.old self.new }
        ensures ready { is_ready self.new };

    /// Takes out the action that waits first.
    fn next_waiting(&mut self, alloc: Global) -> Result<Option<Action>, Refusal>
        requires ready { is_ready self.old }
        ensures taken { IfOk result (λ x. (g : Going) → stands g self.old → Unqueued stands g x self.new) }
        ensures may { IfOk result (λ x. IfSome x (λ a. may_do a self.new)) }
        ensures refused { IfErr result (λ r. (g : Going) → stands g self.old → LooksFrom stopped g r self.new) }
        ensures fault { IfErr result (λ r. OnFault r (failed self.new)) }
        ensures room { IfErr result (λ r. is_room r ≡ false) }
        ensures leads { leads self.old self.new }
        ensures ready { is_ready self.new };

    /// The relation and the name of the first deferred rule that doesn't hold, where no action waits.
    fn first_failing(&mut self, alloc: Global) -> Result<Option<(Str, Str)>, Refusal>
        requires ready { is_ready self.old }
        ensures found { IfOk result (λ x. (g : Going) → stands g self.old → g.queue.actions ≡ []
            → (x ≡ first_failing (extensions self.old) g.db g.db) × stands g self.new) }
        ensures refused { IfErr result (λ r. (g : Going) → stands g self.old → LooksFrom stopped g r self.new) }
        ensures fault { IfErr result (λ r. OnFault r (failed self.new)) }
        ensures room { IfErr result (λ r. is_room r ≡ false) }
        ensures leads { leads self.old self.new }
        ensures ready { is_ready self.new };

    /// A refusal that says nothing of pages and of the disk may stop it wherever it stands.
    ghost stops: { (r : Refusal) (g : Going) (a : Self) → IsQuiet r → stands g a → stopped r g.trail a };

    ghost stops_asking: { (r : Refusal) (name : Name) (c : Change) (i : ℕ) (g : Going) (a : Self)
        → IsQuiet r → asks name c i g a → stopped r g.trail a };

    /// What no call changes.
    ghost stays: { (a : Self) → leads a a };

    ghost goes_on: { (a b c : Self) → leads a b → leads b c → leads a c };

    ghost same: { (a b : Self) → leads a b → extensions b ≡ extensions a };

    ghost still: { (x : Action) (a b : Self) → leads a b → may_do x a → may_do x b };

    ghost still_asks: { (name : Name) (c : Change) (a b : Self) → leads a b → may_ask name c a → may_ask name c b };

    /// An insert that may be done puts a row that fits.
    ghost puts: { (relation : Name) (terms : List Term) (a : Self) → may_do (action.Insert relation terms) a
        → may_wish relation (Put (flat_map const_of terms)) a };
}
