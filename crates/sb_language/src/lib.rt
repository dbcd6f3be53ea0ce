//! Languages: which rows of tokens spell a value, how a row is read from the left, and that such a reader takes the longest
//! front that begins a sentence. The keywords of the command language stand here too.
#![tactic(auto)]
