//! The definitions of relations, of the fold and of the plain database, pinned: small examples by hand, each of which computes, so that another
//! case of a definition, or one case less, makes one of them fail. A crate without code.
#![tactic(auto)]
