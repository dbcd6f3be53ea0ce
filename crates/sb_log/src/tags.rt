//! The first bytes of records.

pub(crate) const BEGIN: u8 = 1;

pub(crate) const IMAGE: u8 = 2;

pub(crate) const CHANGE: u8 = 3;

pub(crate) const BACK: u8 = 4;

pub(crate) const COMMIT: u8 = 5;
