//! What no clause says: that calls succeed while memory lasts. A layer that answers from a script logs the relations whose rows
//! are changed, in order.

ghost use Rattle.std.specs.Prelude.{◌≡◌, ◌<◌, [], false, refl, IfErr, IfOk, IfSome};
ghost use Rattle.sb_cascade.specs.Runs.{OnFault, is_room};

use sb_cascade::{Layer, Wish, act, change, finish};
use sb_fold::Refusal;
use sb_rule::{Action, Change, Pairs, Terms};
use sb_value::{RecKey, Str, Tuple};
use std::alloc::{AllocError, Global};
use std::process::Abort;
use std::test::*;

/// What follows from changes.
#[derive(Clone, Copy)]
enum Rules {
    None,
    Tree,
    Endless,
    Vetoed,
}

/// The relation that the attachment of this number inserts into; `!` where it vetoes.
fn follows(rules: Rules, relation: &str, i: usize) -> Option<&'static str>
    ensures { IfSome result (λ into. i < 256) }
{
    match (rules, relation, i) {
        (Rules::Tree, "a", 0) => Some("b"),
        (Rules::Tree, "a", 1) => Some("c"),
        (Rules::Tree, "b", 0) => Some("d"),
        (Rules::Endless, "a", 0) => Some("a"),
        (Rules::Vetoed, "a", 0) => Some("b"),
        (Rules::Vetoed, "a", 1) => Some("!"),
        _ => None,
    }
}

/// A layer with these rules, so many actions that wait, and maybe a deferred rule that doesn't hold.
#[derive(Drop)]
struct Script {
    rules: Rules,
    waiting: u32,
    fails: bool,
    log: String,
}

impl Layer for Script {
    ghost is_ready = { λ s. Unit {0} };

    ghost extensions = { λ s. record { boxes = record { methods = []; attachments = [] }; methods = []; attachments = [] } };

    ghost stands = { λ g s. ⊥ };

    ghost asks = { λ name c i g s. ⊥ };

    ghost stopped = { λ r trail s. Unit {0} };

    ghost failed = { λ s. ⊥ };

    ghost may_do = { λ a s. Unit {0} };

    ghost may_wish = { λ name wish s. Unit {0} };

    ghost may_ask = { λ name c s. Unit {0} };

    ghost leads = { λ a b. Unit {0} };

    fn change_row(&mut self, alloc: Global, name: &Str, _wish: &Wish) -> Result<Change, Refusal> {
        kept(self.log.push_str(name.as_str()))?;
        Ok(Change::Insert {
            key: kept(key(alloc, b"k"))?,
            new: Tuple::from_vec(Vec::new(alloc)),
        })
    }

    fn ask(
        &mut self,
        alloc: Global,
        name: &Str,
        _change: &Change,
        i: usize,
    ) -> Result<Option<Vec<Action>>, Refusal> {
        match follows(self.rules, name.as_str(), i) {
            None => Ok(None),
            Some("!") => match veto(alloc) {
                Ok(refusal) => Err(refusal),
                Err(_) => Err(Refusal::NoMemory),
            },
            Some(into) => Ok(Some(kept(one_insert(alloc, into))?)),
        }
    }

    fn matching(&mut self, alloc: Global, _action: &Action) -> Result<Vec<RecKey>, Refusal> {
        kept(two_keys(alloc))
    }

    fn wish_at(
        &mut self,
        alloc: Global,
        _action: &Action,
        at: &RecKey,
    ) -> Result<Option<Wish>, Refusal> {
        match at.as_slice() {
            b"gone" => Ok(None),
            _ => Ok(Some(Wish::Remove(kept(key(alloc, b"k"))?))),
        }
    }

    fn next_waiting(&mut self, alloc: Global) -> Result<Option<Action>, Refusal> {
        if self.waiting == 0 {
            return Ok(None);
        }
        self.waiting -= 1;
        Ok(Some(kept(insert(alloc, "w"))?))
    }

    fn first_failing(&mut self, alloc: Global) -> Result<Option<(Str, Str)>, Refusal> {
        if self.fails {
            return Ok(Some((kept(text(alloc, "a"))?, kept(text(alloc, "late"))?)));
        }
        Ok(None)
    }

    ghost stops = { λ r g a quiet stands. tt };

    ghost stops_asking = { λ r name c i g a quiet asks. tt };

    ghost stays = { λ a. tt };

    ghost goes_on = { λ a b c first second. tt };

    ghost same = { λ a b leads. refl };

    ghost still = { λ x a b leads may. tt };

    ghost still_asks = { λ name c a b leads may. tt };

    ghost puts = { λ relation terms a may. tt };
}

fn kept<T>(made: Result<T, AllocError>) -> Result<T, Refusal>
    ensures fault { IfErr result (λ r. OnFault r ⊥) }
    ensures room { IfErr result (λ r. is_room r ≡ false) }
{
    match made {
        Ok(value) => Ok(value),
        Err(_) => Err(Refusal::NoMemory),
    }
}

fn text(alloc: Global, text: &str) -> Result<Str, AllocError> {
    Ok(Str::from_string(String::from_str(alloc, text)?))
}

fn key(alloc: Global, bytes: &[u8]) -> Result<RecKey, AllocError> {
    Ok(RecKey::from_vec(Vec::from_slice(alloc, bytes)?))
}

fn two_keys(alloc: Global) -> Result<Vec<RecKey>, AllocError> {
    Ok(vec![in alloc; key(alloc, b"gone")?, key(alloc, b"there")?]?)
}

fn veto(alloc: Global) -> Result<Refusal, AllocError>
    ensures { IfOk result (λ r. OnFault r ⊥) }
{
    Ok(Refusal::Veto {
        relation: text(alloc, "a")?,
        name: text(alloc, "check")?,
    })
}

fn insert(alloc: Global, into: &str) -> Result<Action, AllocError> {
    Ok(Action::Insert {
        relation: text(alloc, into)?,
        terms: Terms::from_vec(Vec::new(alloc)),
    })
}

fn one_insert(alloc: Global, into: &str) -> Result<Vec<Action>, AllocError> {
    Ok(vec![in alloc; insert(alloc, into)?]?)
}

fn scripted(alloc: Global, rules: Rules, waiting: u32, fails: bool) -> Script {
    Script {
        rules,
        waiting,
        fails,
        log: String::new(alloc),
    }
}

/// What came of it, in short.
fn told<T>(outcome: &Result<T, Refusal>) -> &'static str {
    match outcome {
        Ok(_) => "made",
        Err(Refusal::Depth) => "depth",
        Err(Refusal::DeferLimit) => "limit",
        Err(Refusal::Veto { .. }) => "veto",
        Err(_) => "another",
    }
}

/// Whether this comes of a change of a row of `a`, with this log.
fn is_changed(rt: &impl Abort, alloc: Global, rules: Rules, end: &str, log: &str) -> bool {
    let mut layer = scripted(alloc, rules, 0, false);
    let wish = Wish::Put(Tuple::from_vec(Vec::new(alloc)));
    let name = text(alloc, "a").expect(rt, "memory");
    let outcome = change(&mut layer, alloc, 16, &name, &wish);
    let is_changed = told(&outcome) == end && layer.log.as_str() == log;
    drop(outcome);
    drop(name);
    drop(wish);
    drop(layer);
    is_changed
}

const FOLLOWS: [(Rules, &str, &str); 4] = [
    (Rules::None, "made", "a"),
    (Rules::Tree, "made", "abdc"),
    (Rules::Endless, "depth", "aaaaaaaaaaaaaaaa"),
    (Rules::Vetoed, "veto", "a"),
];

#[test]
fn what_follows_is_done_in_order(rt: HostRuntime) {
    for (number, (rules, end, log)) in FOLLOWS.iter().enumerate() {
        assert!(rt;
            is_changed(&rt, rt.alloc(), *rules, end, log),
            "row {number}"
        );
    }
}

/// Whether the action changes one row.
fn changes_one(layer: &mut Script, alloc: Global, action: &Action) -> bool {
    let made = act(layer, alloc, 16, action);
    let is_one = matches!(&made, Ok(1));
    drop(made);
    is_one
}

#[test]
fn an_action_counts_the_rows_that_still_match(rt: HostRuntime) {
    let alloc = rt.alloc();
    let mut layer = scripted(alloc, Rules::None, 0, false);
    let inserts = insert(alloc, "i").expect(&rt, "memory");
    assert!(rt; changes_one(&mut layer, alloc, &inserts));
    let deletes = Action::Delete {
        relation: text(alloc, "d").expect(&rt, "memory"),
        pairs: Pairs::from_vec(Vec::new(alloc)),
    };
    assert!(rt; changes_one(&mut layer, alloc, &deletes));
    assert!(rt; layer.log.as_str() == "id");
    drop(deletes);
    drop(inserts);
    drop(layer);
}

/// Whether so many actions are done where so many wait, and what comes of it.
fn is_finished(alloc: Global, waiting: u32, fails: bool, end: &str, done: usize) -> bool {
    let mut layer = scripted(alloc, Rules::None, waiting, fails);
    let outcome = finish(&mut layer, alloc);
    let is_finished = told(&outcome) == end && layer.log.len() == done;
    drop(outcome);
    drop(layer);
    is_finished
}

const WAITING: [(u32, bool, &str, usize); 4] = [
    (0, false, "made", 0),
    (0, true, "veto", 0),
    (1000, false, "made", 1000),
    (1001, false, "limit", 1000),
];

#[test]
fn a_thousand_actions_may_wait(rt: HostRuntime) {
    for (waiting, fails, end, done) in WAITING.iter() {
        assert!(rt;
            is_finished(rt.alloc(), *waiting, *fails, end, *done),
            "{waiting}"
        );
    }
}
