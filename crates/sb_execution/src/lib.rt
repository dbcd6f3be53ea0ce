//! Commands carried out in a session: each is a step of the plain database.
#![tactic(auto)]

mod executing;
mod inside;
mod outside;
mod reading;
mod replies;
mod seeing;
mod seen;
mod serving;

pub use executing::exec;
