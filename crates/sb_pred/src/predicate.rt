//! Predicates and their parts.

ghost use Rattle.std.specs.Prelude.{◌≡◌, ◌-◌, ◌^◌, min, IfOk};
ghost use Rattle.sb_pred.specs.Tree.{Always, Compare, Both, Either, Fails, node_count};
ghost use Rattle.sb_pred.specs.Pred.{tree_of};

use sb_value::{Str, Value};
use std::alloc::{AllocError, Global};
use std::marker::Model;

/// How two values are compared.
#[derive(Clone, Copy, Debug, PartialEq, Eq)]
pub enum Op {
    Eq,
    Ne,
    Lt,
    Le,
    Gt,
    Ge,
}

/// One side of a comparison: a value, or a column of the new or the old row.
#[derive(Drop)]
pub enum Term {
    Const(Value),
    New(Str),
    Old(Str),
}

impl Term {
    pub fn copy(&self) -> Result<Term, AllocError>
        ensures { IfOk result (λ t. t ≡ self.now) }
    {
        match self {
            Term::Const(value) => Ok(Term::Const(value.copy()?)),
            Term::New(name) => Ok(Term::New(name.copy()?)),
            Term::Old(name) => Ok(Term::Old(name.copy()?)),
        }
    }
}

/// A predicate. Clauses see its tree, without where it lies in memory.
#[cycle(predicate)]
pub struct Pred {
    pub(crate) node: Node,
}

/// What stands at the top of a predicate.
#[cycle(predicate)]
#[derive(Drop)]
pub enum Node {
    Always,
    Cmp(Op, Term, Term),
    And(Box<Pred>, Box<Pred>),
    Or(Box<Pred>, Box<Pred>),
    Not(Box<Pred>),
}

impl Model for Pred {
    ghost use Rattle.sb_pred.specs.Tree.{Tree};
    ghost use Rattle.sb_pred.specs.TreeCode.{tree_code};

    ghost Value = { Tree };

    ghost coded = { tree_code };

    ghost use Rattle.sb_pred.specs.Pred.{tree_of};
    ghost use Rattle.sb_pred.specs.Tree.{node_count};

    ghost view = { λ p. tree_of p.node };

    ghost size = { node_count };

    ghost use Rattle.sb_pred.specs.TreeFalls.{depth_le-node_count};

    ghost size_decreases = { λ p h. depth_le-node_count p.node };
}

// By hand, so that each drop of a predicate is one call and no match over its nodes.
impl Drop for Pred {
    fn drop(self) {
        let Pred { node: _ } = self;
    }
}

impl Pred {
    /// The predicate that holds of each row.
    pub fn always() -> Pred
        ensures { result ≡ Always }
    {
        Pred { node: Node::Always }
    }

    pub fn cmp(op: Op, left: Term, right: Term) -> Pred
        ensures { result ≡ Compare op left right }
    {
        Pred {
            node: Node::Cmp(op, left, right),
        }
    }

    pub fn and(alloc: Global, left: Pred, right: Pred) -> Result<Pred, AllocError>
        ensures { IfOk result (λ p. p ≡ Both left right) }
    {
        Ok(Pred {
            node: Node::And(Box::new(alloc, left)?, Box::new(alloc, right)?),
        })
    }

    pub fn or(alloc: Global, left: Pred, right: Pred) -> Result<Pred, AllocError>
        ensures { IfOk result (λ p. p ≡ Either left right) }
    {
        Ok(Pred {
            node: Node::Or(Box::new(alloc, left)?, Box::new(alloc, right)?),
        })
    }

    pub fn not(alloc: Global, inner: Pred) -> Result<Pred, AllocError>
        ensures { IfOk result (λ p. p ≡ Fails inner) }
    {
        Ok(Pred {
            node: Node::Not(Box::new(alloc, inner)?),
        })
    }

    pub fn copy(&self) -> Result<Pred, AllocError>
        ensures { IfOk result (λ p. p ≡ self.now) }
    {
        match &self.node {
            Node::Always => Ok(Pred::always()),
            Node::Cmp(op, left, right) => Ok(Pred::cmp(*op, left.copy()?, right.copy()?)),
            Node::And(left, right) => {
                Pred::and(*Box::allocator(left), left.copy()?, right.copy()?)
            }
            Node::Or(left, right) => {
                Pred::or(*Box::allocator(left), left.copy()?, right.copy()?)
            }
            Node::Not(inner) => Pred::not(*Box::allocator(inner), inner.copy()?),
        }
    }

    /// What stands at the top.
    pub fn node(&self) -> &Node
        ensures { tree_of result.now ≡ self.now }
    {
        &self.node
    }
}

/// How many nodes a predicate has, or 2^32 - 1 where there are more. Its terms are no nodes.
pub fn nodes(pred: &Pred) -> u32
    ensures { result ≡ min (node_count pred.now) (2 ^ 32 - 1) }
{
    match &pred.node {
        Node::Always | Node::Cmp(_, _, _) => 1,
        Node::And(left, right) | Node::Or(left, right) => {
            nodes(left).saturating_add(nodes(right)).saturating_add(1)
        }
        Node::Not(inner) => nodes(inner).saturating_add(1),
    }
}
