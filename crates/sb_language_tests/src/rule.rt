ghost use Rattle.std.specs.Prelude.{◌≤◌, length};
ghost use Rattle.sb_pred.specs.Spelling.{IsShortPred, IsShortTerm};
ghost use Rattle.sb_rule.specs.Spelling.{IsShortName, IsShortList, IsShortPair, IsShortAction, IsShortRule};

use sb_pred::{Op, Pred, Term};
use sb_rule::{Action, Change, Event, Mode, Pairs, Rule, Side, Terms, bind, read_rule, write_rule};
use sb_value::{Bytes, Column, Kind, Names, RecKey, Schema, Str, Tuple, Value};
use std::alloc::Global;
use std::process::Abort;
use std::test::*;

fn text(rt: &impl Abort, alloc: Global, text: &str) -> Str
    requires { length text.now ≤ 255 }
    ensures { IsShortName result }
{
    Str::from_string(String::from_str(alloc, text).expect(rt, "memory"))
}

/// The rule is written as these bytes.
fn is_written(rt: &impl Abort, alloc: Global, rule: Rule, spelling: &[u8]) -> bool
    requires { IsShortRule rule }
{
    let mut out = Bytes::new(alloc);
    write_rule(&rule, &mut out).expect(rt, "memory");
    drop(rule);
    out.as_slice() == spelling
}

/// `salary >= 0`
fn paid(rt: &impl Abort, alloc: Global) -> Pred
    ensures { IsShortPred result }
{
    let salary = Term::New(text(rt, alloc, "salary"));
    Pred::cmp(Op::Ge, salary, Term::Const(Value::Int(0)))
}

const CHECK: &[u8] = b"\x00\x01\x06\x01\x06salary\x00\x01\x00\x00\x00\x00\x00\x00\x00\x00";

fn check(rt: &impl Abort, alloc: Global) -> Rule
    ensures { IsShortRule result }
{
    Rule::Check {
        pred: paid(rt, alloc),
        deferred: false,
    }
}

fn one_name(rt: &impl Abort, alloc: Global) -> Names
    ensures { IsShortList IsShortName result }
{
    let name = text(rt, alloc, "a");
    Names::from_vec(vec![in alloc; name].expect(rt, "memory"))
}

fn index(rt: &impl Abort, alloc: Global) -> Rule
    ensures { IsShortRule result }
{
    Rule::TreeIndex {
        columns: one_name(rt, alloc),
        unique: true,
    }
}

/// The column `k` with the column `n` of the old row.
fn one_pair(rt: &impl Abort, alloc: Global) -> Pairs
    ensures { IsShortList IsShortPair result }
{
    let column = text(rt, alloc, "k");
    let term = Term::Old(text(rt, alloc, "n"));
    Pairs::from_vec(vec![in alloc; (column, term)].expect(rt, "memory"))
}

fn deletion(rt: &impl Abort, alloc: Global) -> Action
    ensures { IsShortAction result }
{
    let relation = text(rt, alloc, "r");
    let pairs = one_pair(rt, alloc);
    Action::Delete { relation, pairs }
}

const DELETION: &[u8] = b"\x02\x00\x00\x02\x01r\x01\x01k\x02\x01n";

fn trigger(rt: &impl Abort, alloc: Global) -> Rule
    ensures { IsShortRule result }
{
    Rule::Trigger {
        event: Event::Delete,
        pred: Pred::always(),
        action: deletion(rt, alloc),
        deferred: false,
    }
}

#[test]
fn rules_written(rt: HostRuntime) {
    let alloc = rt.alloc();
    assert!(rt; is_written(&rt, alloc, check(&rt, alloc), CHECK));
    assert!(rt; is_written(&rt, alloc, index(&rt, alloc), b"\x01\x01\x01a"));
    assert!(rt; is_written(&rt, alloc, trigger(&rt, alloc), DELETION));
}

/// A hash index on the columns `dept` and `id`.
const HASH_INDEX: &[u8] = b"\x02\x04dept\x02id";

/// The mirror of a join index on `dept`, with `id` of `emp`.
const JOIN_INDEX: &[u8] = b"\x01\x01\x04dept\x03emp\x01\x02id";

/// Statistics on `salary`, low -1, width 1000.
const STATS: &[u8] = b"\x06salary\xff\xff\xff\xff\xff\xff\xff\xff\x00\x00\x00\x00\x00\x00\x03\xe8";

/// `dept` refers to `id` of `unit`, cascade, deferred.
const REFERS: &[u8] = b"\x00\x01\x01\x01\x04dept\x04unit\x01\x02id";

/// After each update, deferred: insert `'ab'` and `new.id` into `log`.
const INSERTION: &[u8] = b"\x03\x01\x00\x01\x03log\x02\x00\x02\x02ab\x01\x02id";

/// After each insert: set `n` of `unit` to `new.m` where `id` is `new.dept`.
const SETTING: &[u8] = b"\x01\x00\x00\x03\x04unit\x01n\x01\x01m\x01\x02id\x01\x04dept";

/// After each delete: add -1 to `n` of each row of `unit`.
const ADDITION: &[u8] =
    b"\x02\x00\x00\x04\x04unit\x01n\x00\x01\xff\xff\xff\xff\xff\xff\xff\xff\x00";

/// `always` under so many `not` as 32 nodes allow.
const LONGEST: &[u8] = b"\x00\
    \x04\x04\x04\x04\x04\x04\x04\x04\x04\x04\x04\x04\x04\x04\x04\x04\
    \x04\x04\x04\x04\x04\x04\x04\x04\x04\x04\x04\x04\x04\x04\x04\x00";

/// `(always and always) or always`: the left side of the `or` is compound.
const EITHER: &[u8] = b"\x00\x03\x02\x00\x00\x00";

/// One node more than 32.
const TOO_LONG: &[u8] = b"\x00\
    \x04\x04\x04\x04\x04\x04\x04\x04\x04\x04\x04\x04\x04\x04\x04\x04\
    \x04\x04\x04\x04\x04\x04\x04\x04\x04\x04\x04\x04\x04\x04\x04\x04\x00";

/// A check with a byte behind it.
const TRAILING: &[u8] = b"\x00\x01\x06\x01\x06salary\x00\x01\x00\x00\x00\x00\x00\x00\x00\x00\x00";

/// Statistics of width 0.
const NO_WIDTH: &[u8] = b"\x01n\x00\x00\x00\x00\x00\x00\x00\x00\x00\x00\x00\x00\x00\x00\x00\x00";

/// The names are these two, or the first alone where the second is empty.
fn are_named(names: &Names, first: &str, second: &str) -> bool {
    match names.as_slice() {
        [one] => one.as_str() == first && second.is_empty(),
        [one, two] => one.as_str() == first && two.as_str() == second,
        _ => false,
    }
}

/// The terms are `'ab'` and `new.id`.
fn are_inserted(terms: &Terms) -> bool {
    match terms.as_slice() {
        [Term::Const(Value::Text(text)), Term::New(name)] => {
            text.as_str() == "ab" && name.as_str() == "id"
        }
        _ => false,
    }
}

/// The one pair is `id` with `new.dept`.
fn is_id_the_dept(pairs: &Pairs) -> bool {
    match pairs.as_slice() {
        [(column, Term::New(name))] => column.as_str() == "id" && name.as_str() == "dept",
        _ => false,
    }
}

/// The term is `new.m`.
fn is_new_m(term: &Term) -> bool {
    match term {
        Term::New(name) => name.as_str() == "m",
        _ => false,
    }
}

/// The relation is `unit` and the column `n`.
fn is_n_of_unit(relation: &Str, column: &Str) -> bool {
    relation.as_str() == "unit" && column.as_str() == "n"
}

/// What the tests call this action.
fn action_name(action: &Action) -> &'static str {
    match action {
        Action::Insert { relation, terms } => {
            if relation.as_str() == "log" && are_inserted(terms) {
                "insertion"
            } else {
                "other"
            }
        }
        Action::Delete { relation, pairs } => {
            if relation.as_str() == "r" && pairs.len() == 1 {
                "deletion"
            } else {
                "other"
            }
        }
        Action::Set {
            relation,
            column,
            term,
            pairs,
        } => {
            let is_set = is_n_of_unit(relation, column) && is_new_m(term) && is_id_the_dept(pairs);
            if is_set { "setting" } else { "other" }
        }
        Action::Add {
            relation,
            column,
            term,
            pairs,
        } => {
            let less_one = matches!(term, Term::Const(Value::Int(-1)));
            let is_added = is_n_of_unit(relation, column) && less_one && pairs.is_empty();
            if is_added { "addition" } else { "other" }
        }
    }
}

/// What the tests call this rule.
fn rule_name(rule: &Rule) -> &'static str {
    match rule {
        Rule::TreeIndex { columns, unique } => {
            if are_named(columns, "a", "") && *unique {
                "tree index"
            } else {
                "other"
            }
        }
        Rule::HashIndex { columns } => {
            if are_named(columns, "dept", "id") {
                "hash index"
            } else {
                "other hash index"
            }
        }
        Rule::JoinIndex {
            side,
            columns,
            other,
            others,
        } => {
            let is_mirror = *side == Side::Mirror && other.as_str() == "emp";
            let are_columns = are_named(columns, "dept", "") && are_named(others, "id", "");
            if is_mirror && are_columns {
                "join index"
            } else {
                "other"
            }
        }
        Rule::Stats { column, low, width } => {
            let is_salary = column.as_str() == "salary" && *low == -1 && *width == 1000;
            if is_salary { "statistics" } else { "other" }
        }
        Rule::Check { .. } => "check",
        Rule::Refers {
            side,
            columns,
            other,
            others,
            mode,
            deferred,
        } => {
            let is_main = *side == Side::Main && *mode == Mode::Cascade && *deferred;
            let are_columns = are_named(columns, "dept", "") && are_named(others, "id", "");
            if is_main && are_columns && other.as_str() == "unit" {
                "reference"
            } else {
                "other"
            }
        }
        Rule::Trigger { action, .. } => action_name(action),
        Rule::Foreign { .. } => "foreign",
    }
}

/// The name of the rule of this code that the bytes are read as, and that is written as them.
#[tactic(auto, using(sb_rule::proofs::StorableRules::IsShortRule_from_storable))]
fn name_read(rt: &impl Abort, alloc: Global, code: u16, spelling: &[u8]) -> &'static str {
    match read_rule(alloc, code, spelling).expect(rt, "memory") {
        Some(rule) => {
            let name = rule_name(&rule);
            if is_written(rt, alloc, rule, spelling) {
                name
            } else {
                "other bytes"
            }
        }
        None => "none",
    }
}

/// Codes with bytes, and the name of the rule that they spell.
const RULES: [(u16, &[u8], &str); 30] = [
    (1, b"\x01\x01\x01a", "tree index"),
    (2, HASH_INDEX, "hash index"),
    (2, b"\x00", "other hash index"),
    (3, JOIN_INDEX, "join index"),
    (4, STATS, "statistics"),
    (5, CHECK, "check"),
    (5, LONGEST, "check"),
    (5, EITHER, "check"),
    (6, REFERS, "reference"),
    (7, DELETION, "deletion"),
    (7, INSERTION, "insertion"),
    (7, SETTING, "setting"),
    (7, ADDITION, "addition"),
    (1000, b"", "foreign"),
    (65535, b"\x07\x08", "foreign"),
    (0, b"", "none"),
    (1, b"", "none"),
    (1, b"\x02\x01\x01a", "none"),
    (1, b"\x00\x02\x01a", "none"),
    (2, b"\x01\x01\xff", "none"),
    (2, b"\x01\x01aa", "none"),
    (3, b"\x02\x00\x01a\x00", "none"),
    (4, NO_WIDTH, "none"),
    (4, b"\x01n\x00\x00\x00\x00\x00\x00\x00\x00", "none"),
    (5, TRAILING, "none"),
    (5, TOO_LONG, "none"),
    (6, b"\x00\x02\x00\x00\x01a\x00", "none"),
    (7, b"\x00\x00\x00\x01\x01r\x00", "none"),
    (7, b"\x01\x00\x00\x05\x01r\x00", "none"),
    (999, b"", "none"),
];

#[test]
fn rules_read(rt: HostRuntime) {
    for (number, (code, spelling, name)) in RULES.iter().enumerate() {
        assert!(rt;
            name_read(&rt, rt.alloc(), *code, spelling) == *name,
            "at {number}"
        );
    }
}

fn key(rt: &impl Abort, alloc: Global, byte: u8) -> RecKey {
    RecKey::from_vec(vec![in alloc; byte].expect(rt, "memory"))
}

fn row(rt: &impl Abort, alloc: Global, number: i64) -> Tuple {
    Tuple::from_vec(vec![in alloc; Value::Int(number)].expect(rt, "memory"))
}

fn schema(rt: &impl Abort, alloc: Global) -> Schema {
    let number = Column {
        name: text(rt, alloc, "n"),
        kind: Kind::Int,
        limit: 0,
    };
    Schema::from_vec(vec![in alloc; number].expect(rt, "memory"))
}

/// An update of the column `n` from 7 to 9.
fn update(rt: &impl Abort, alloc: Global) -> Change {
    Change::Update {
        from: key(rt, alloc, 1),
        old: row(rt, alloc, 7),
        to: key(rt, alloc, 2),
        new: row(rt, alloc, 9),
    }
}

/// The column `n` of the old row and of the new one.
fn two_terms(rt: &impl Abort, alloc: Global) -> Terms {
    let old = Term::Old(text(rt, alloc, "n"));
    let new = Term::New(text(rt, alloc, "n"));
    Terms::from_vec(vec![in alloc; old, new].expect(rt, "memory"))
}

fn insertion(rt: &impl Abort, alloc: Global) -> Action {
    Action::Insert {
        relation: text(rt, alloc, "r"),
        terms: two_terms(rt, alloc),
    }
}

/// Sets the column `n` to that of the new row, where `k` is `n` of the old row.
fn setting(rt: &impl Abort, alloc: Global) -> Action {
    Action::Set {
        relation: text(rt, alloc, "r"),
        column: text(rt, alloc, "n"),
        term: Term::New(text(rt, alloc, "n")),
        pairs: one_pair(rt, alloc),
    }
}

/// The one pair has the 7 of the old row.
fn is_paired(pairs: &Pairs) -> bool {
    matches!(pairs.as_slice(), [(_, Term::Const(Value::Int(7)))])
}

/// The action inserts the row of 7 and 9, deletes the rows with 7, or sets them to 9.
fn is_bound(action: &Action) -> bool {
    match action {
        Action::Insert { terms, .. } => matches!(
            terms.as_slice(),
            [Term::Const(Value::Int(7)), Term::Const(Value::Int(9))]
        ),
        Action::Delete { pairs, .. } => is_paired(pairs),
        Action::Set { term, pairs, .. } => {
            matches!(term, Term::Const(Value::Int(9))) && is_paired(pairs)
        }
        Action::Add { .. } => false,
    }
}

/// The action is bound to the update.
fn binds(rt: &impl Abort, alloc: Global, action: Action) -> bool {
    let schema = schema(rt, alloc);
    let change = update(rt, alloc);
    let bound = bind(alloc, &action, &schema, &change).expect(rt, "memory");
    let is = is_bound(&bound);
    drop(bound);
    drop(change);
    drop(schema);
    drop(action);
    is
}

#[test]
fn terms_bound(rt: HostRuntime) {
    let alloc = rt.alloc();
    assert!(rt; binds(&rt, alloc, insertion(&rt, alloc)));
    assert!(rt; binds(&rt, alloc, deletion(&rt, alloc)));
    assert!(rt; binds(&rt, alloc, setting(&rt, alloc)));
}

/// The check of this spelling is copied, and the copy is written as it was.
#[tactic(auto, using(sb_rule::proofs::StorableRules::IsShortRule_from_storable))]
fn is_copied(rt: &impl Abort, alloc: Global, spelling: &[u8]) -> bool {
    match read_rule(alloc, 5, spelling).expect(rt, "memory") {
        Some(rule) => {
            let copy = rule.copy(alloc).expect(rt, "memory");
            drop(rule);
            is_written(rt, alloc, copy, spelling)
        }
        None => false,
    }
}

#[test]
fn checks_copied(rt: HostRuntime) {
    assert!(rt; is_copied(&rt, rt.alloc(), EITHER));
    assert!(rt; is_copied(&rt, rt.alloc(), CHECK));
}

#[test]
fn lists(rt: HostRuntime) {
    let terms = two_terms(&rt, rt.alloc());
    assert!(rt; terms.len() == 2 && !terms.is_empty());
    assert!(rt; terms.into_vec().len() == 2);
    let pairs = one_pair(&rt, rt.alloc());
    assert!(rt; pairs.len() == 1 && !pairs.is_empty());
    assert!(rt; pairs.into_vec().len() == 1);
}
