//! What commands are made of, read from tokens: words, names, numbers, texts, keys, terms, predicates, lists and columns.
#![tactic(auto)]

mod fault;
mod form;
mod lists;
mod phrases;
mod pieces;
mod predicates;
mod relations;
mod terms;
mod words;

pub use fault::Fault;
pub use form::Form;
pub use lists::{Item, read_constants, read_listed, read_names};
pub use phrases::{read_flag, read_foreign_code, read_place};
pub use pieces::{
    behind_word, is_key_next, is_word_next, read_int, read_key, read_mark, read_name, read_number,
    read_positive, read_word,
};
pub use predicates::read_predicate;
pub use relations::{read_key_columns, read_method, read_schema};
pub use terms::read_term;
