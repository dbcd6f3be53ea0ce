//! The first bytes of terms and predicates.

pub(crate) const CONST: u8 = 0;

pub(crate) const NEW: u8 = 1;

pub(crate) const OLD: u8 = 2;

pub(crate) const ALWAYS: u8 = 0;

pub(crate) const CMP: u8 = 1;

pub(crate) const AND: u8 = 2;

pub(crate) const OR: u8 = 3;

pub(crate) const NOT: u8 = 4;
