//! Terms and predicates.

ghost use Rattle.std.specs.Prelude.{◌≡◌, ◌++◌, codes, OnOk, OnErr};
ghost use Rattle.sb_pred.specs.Bytes.{Extends};
ghost use Rattle.sb_pred.specs.Tree.{Compare};
ghost use Rattle.sb_plain.specs.Printing as spec;
ghost use Rattle.sb_plain.specs.Printing.{op_text, bare_term, full_term, in_brackets_if, pred_text};
ghost use Rattle.sb_printer.specs.Scope.{term_text};

use crate::pieces::{append_named, append_value};
use sb_pred::{Node, Op, Pred, Term};
use sb_value::Bytes;
use std::alloc::AllocError;

/// How the columns of a predicate are written.
#[derive(Clone, Copy, Debug, PartialEq, Eq)]
pub enum Scope {
    /// By their names alone, as in a check.
    Check,
    /// With the row that each belongs to, as in a trigger.
    Trigger,
}

fn append_bare_term(term: &Term, out: &mut Bytes) -> Result<(), AllocError>
    ensures ok { OnOk result (out.new ≡ out.old ++ bare_term term.now) }
    ensures err { OnErr result (Extends out.old out.new) }
{
    match term {
        Term::Const(value) => append_value(value, out),
        Term::New(name) => out.extend(name.as_bytes()),
        Term::Old(name) => append_named(b"old.", name, out),
    }
}

/// A value, or a column behind the row to which it belongs.
pub fn append_full_term(term: &Term, out: &mut Bytes) -> Result<(), AllocError>
    ensures ok { OnOk result (out.new ≡ out.old ++ full_term term.now) }
    ensures err { OnErr result (Extends out.old out.new) }
{
    match term {
        Term::Const(value) => append_value(value, out),
        Term::New(name) => append_named(b"new.", name, out),
        Term::Old(name) => append_named(b"old.", name, out),
    }
}

fn append_term(scope: Scope, term: &Term, out: &mut Bytes) -> Result<(), AllocError>
    ensures ok { OnOk result (out.new ≡ out.old ++ term_text scope term.now) }
    ensures err { OnErr result (Extends out.old out.new) }
{
    match scope {
        Scope::Check => append_bare_term(term, out),
        Scope::Trigger => append_full_term(term, out),
    }
}

fn append_op(op: Op, out: &mut Bytes) -> Result<(), AllocError>
    ensures ok { OnOk result (out.new ≡ out.old ++ (codes " " ++ op_text op ++ codes " ")) }
    ensures err { OnErr result (Extends out.old out.new) }
{
    match op {
        Op::Eq => out.extend(b" = "),
        Op::Ne => out.extend(b" <> "),
        Op::Lt => out.extend(b" < "),
        Op::Le => out.extend(b" <= "),
        Op::Gt => out.extend(b" > "),
        Op::Ge => out.extend(b" >= "),
    }
}

fn append_comparison(
    scope: Scope,
    op: Op,
    left: &Term,
    right: &Term,
    out: &mut Bytes,
) -> Result<(), AllocError>
    ensures ok { OnOk result (out.new ≡ out.old ++ pred_text (term_text scope) (Compare op left.now right.now)) }
    ensures err { OnErr result (Extends out.old out.new) }
{
    append_term(scope, left, out)?;
    append_op(op, out)?;
    append_term(scope, right, out)
}

fn is_either(pred: &Pred) -> bool
    ensures { result ≡ spec.is_either pred.now }
{
    matches!(pred.node(), Node::Or(_, _))
}

fn is_grouped(pred: &Pred) -> bool
    ensures { result ≡ spec.is_grouped pred.now }
{
    matches!(pred.node(), Node::And(_, _) | Node::Or(_, _))
}

/// A predicate, in brackets where they are wanted.
#[cycle(predicates)]
fn append_operand(
    scope: Scope,
    in_brackets: bool,
    pred: &Pred,
    out: &mut Bytes,
) -> Result<(), AllocError>
    ensures ok { OnOk result (out.new ≡ out.old ++ in_brackets_if in_brackets (pred_text (term_text scope) pred.now)) }
    ensures err { OnErr result (Extends out.old out.new) }
{
    if !in_brackets {
        return append_pred(scope, pred, out);
    }
    out.push(b'(')?;
    append_pred(scope, pred, out)?;
    out.push(b')')
}

/// A predicate, with no more brackets than it needs.
#[cycle(predicates)]
pub fn append_pred(scope: Scope, pred: &Pred, out: &mut Bytes) -> Result<(), AllocError>
    ensures ok { OnOk result (out.new ≡ out.old ++ pred_text (term_text scope) pred.now) }
    ensures err { OnErr result (Extends out.old out.new) }
{
    match pred.node() {
        Node::Always => out.extend(b"always"),
        Node::Cmp(op, left, right) => append_comparison(scope, *op, left, right, out),
        Node::And(left, right) => {
            append_operand(scope, is_either(left), left, out)?;
            out.extend(b" and ")?;
            append_operand(scope, is_grouped(right), right, out)
        }
        Node::Or(left, right) => {
            append_pred(scope, left, out)?;
            out.extend(b" or ")?;
            append_operand(scope, is_either(right), right, out)
        }
        Node::Not(inner) => {
            out.extend(b"not ")?;
            append_operand(scope, is_grouped(inner), inner, out)
        }
    }
}
