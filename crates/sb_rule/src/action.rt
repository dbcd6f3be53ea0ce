//! What a trigger does.

ghost use Rattle.std.specs.Prelude.{◌≡◌, ◌==◌, length};

use sb_pred::Term;
use sb_value::Str;
use std::marker::Model;

/// The terms of a new row.
#[derive(Drop)]
pub struct Terms {
    terms: Vec<Term>,
}

impl Model for Terms {
    ghost use Rattle.std.specs.Prelude.{List};
    ghost use Rattle.sb_pred.specs.declared.predicate.Term.{Term};

    ghost Value = { List Term };

    ghost view = { λ t. t.terms.items };
}

impl Terms {
    pub fn from_vec(terms: Vec<Term>) -> Terms
        ensures { result ≡ terms.items }
    {
        Terms { terms }
    }

    pub fn into_vec(self) -> Vec<Term>
        ensures { result.items ≡ self }
    {
        self.terms
    }

    pub fn as_slice(&self) -> &[Term]
        ensures { result.now ≡ self.now }
    {
        &self.terms
    }

    pub fn len(&self) -> usize
        ensures { result ≡ length self.now }
    {
        self.terms.len()
    }

    pub fn is_empty(&self) -> bool
        ensures { result ≡ (length self.now == 0) }
    {
        self.terms.is_empty()
    }
}

/// Columns, each with the term that it equals.
#[derive(Drop)]
pub struct Pairs {
    pairs: Vec<(Str, Term)>,
}

impl Model for Pairs {
    ghost use Rattle.std.specs.Prelude.{List, ℕ};
    ghost use Rattle.sb_pred.specs.declared.predicate.Term.{Term};

    ghost Value = { List (List ℕ × Term) };

    ghost view = { λ p. p.pairs.items };
}

impl Pairs {
    pub fn from_vec(pairs: Vec<(Str, Term)>) -> Pairs
        ensures { result ≡ pairs.items }
    {
        Pairs { pairs }
    }

    pub fn into_vec(self) -> Vec<(Str, Term)>
        ensures { result.items ≡ self }
    {
        self.pairs
    }

    pub fn as_slice(&self) -> &[(Str, Term)]
        ensures { result.now ≡ self.now }
    {
        &self.pairs
    }

    pub fn len(&self) -> usize
        ensures { result ≡ length self.now }
    {
        self.pairs.len()
    }

    pub fn is_empty(&self) -> bool
        ensures { result ≡ (length self.now == 0) }
    {
        self.pairs.is_empty()
    }
}

/// A change of rows of a relation; all but the first are of those rows that match the pairs.
#[derive(Drop)]
pub enum Action {
    Insert {
        relation: Str,
        terms: Terms,
    },
    Delete {
        relation: Str,
        pairs: Pairs,
    },
    Set {
        relation: Str,
        column: Str,
        term: Term,
        pairs: Pairs,
    },
    Add {
        relation: Str,
        column: Str,
        term: Term,
        pairs: Pairs,
    },
}
