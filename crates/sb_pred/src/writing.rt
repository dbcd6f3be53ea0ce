//! Predicates written to bytes.

ghost use Rattle.std.specs.Prelude.{◌≡◌, ◌≤◌, ◌∷◌, ◌++◌, [], OnOk, OnErr, length};
ghost use Rattle.sb_pred.specs.Bytes.{Extends};
ghost use Rattle.sb_pred.specs.Op.{op_code};
ghost use Rattle.sb_pred.specs.Spelling.{name_spelling, term_spelling, pred_spelling, IsShortTerm, IsShortPred, IsStorableName, IsStorableTerm, IsStorablePred};

use crate::predicate::{Node, Op, Pred, Term};
use crate::tags;
use sb_value::{Bytes, Str, put_value};
use std::alloc::AllocError;

/// Adds the name's spelling. Where memory runs out a part of it may be left.
pub fn append_name(name: &Str, out: &mut Bytes) -> Result<(), AllocError>
    requires { length name.now ≤ 255 }
    ensures ok { OnOk result (out.new ≡ out.old ++ name_spelling name.now) }
    ensures err { OnErr result (Extends out.old out.new) }
    ensures storable { OnOk result (IsStorableName name.now) }
{
    let text = name.as_str();
    out.push(text.len() as u8)?;
    out.extend(text.as_bytes())
}

/// Adds the term's spelling. Where memory runs out a part of it may be left.
pub fn append_term(term: &Term, out: &mut Bytes) -> Result<(), AllocError>
    requires { IsShortTerm term.now }
    ensures ok { OnOk result (out.new ≡ out.old ++ term_spelling term.now) }
    ensures err { OnErr result (Extends out.old out.new) }
    ensures storable { OnOk result (IsStorableTerm term.now) }
{
    match term {
        Term::Const(value) => {
            out.push(tags::CONST)?;
            put_value(value, out)
        }
        Term::New(name) => {
            out.push(tags::NEW)?;
            append_name(name, out)
        }
        Term::Old(name) => {
            out.push(tags::OLD)?;
            append_name(name, out)
        }
    }
}

fn code_of(op: Op) -> u8
    ensures { result ≡ op_code op }
{
    match op {
        Op::Eq => 1,
        Op::Ne => 2,
        Op::Lt => 3,
        Op::Le => 4,
        Op::Gt => 5,
        Op::Ge => 6,
    }
}

fn append_pred(pred: &Pred, out: &mut Bytes) -> Result<(), AllocError>
    requires { IsShortPred pred.now }
    ensures ok { OnOk result (out.new ≡ out.old ++ pred_spelling pred.now) }
    ensures err { OnErr result (Extends out.old out.new) }
    ensures storable { OnOk result (IsStorablePred pred.now) }
{
    match &pred.node {
        Node::Always => out.push(tags::ALWAYS),
        Node::Cmp(op, left, right) => {
            out.push(tags::CMP)?;
            out.push(code_of(*op))?;
            append_term(left, out)?;
            append_term(right, out)
        }
        Node::And(left, right) => {
            out.push(tags::AND)?;
            append_pred(left, out)?;
            append_pred(right, out)
        }
        Node::Or(left, right) => {
            out.push(tags::OR)?;
            append_pred(left, out)?;
            append_pred(right, out)
        }
        Node::Not(inner) => {
            out.push(tags::NOT)?;
            append_pred(inner, out)
        }
    }
}

/// Adds the predicate's spelling. Where memory runs out all stays as it was.
pub fn write_pred(pred: &Pred, out: &mut Bytes) -> Result<(), AllocError>
    requires { IsShortPred pred.now }
    ensures ok { OnOk result (out.new ≡ out.old ++ pred_spelling pred.now) }
    ensures err { OnErr result (out.new ≡ out.old) }
    ensures storable { OnOk result (IsStorablePred pred.now) }
{
    let start = out.len();
    let written = append_pred(pred, out);
    if written.is_err() {
        out.truncate(start);
    }
    written
}
