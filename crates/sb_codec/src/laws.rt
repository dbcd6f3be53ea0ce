//! Laws of the spelling and of the ordered code.

ghost use Rattle.sb_codec.specs.Laws.{OneTuple, KeepsOrder, OneList};

/// No two tuples have one spelling.
pub fn one_tuple()
    ensures { OneTuple }
{}

/// The codes of two lists with the same kinds compare as the lists do.
pub fn keeps_order()
    ensures { KeepsOrder }
{}

/// For values of the same kinds, no two lists have one code.
pub fn one_list()
    ensures { OneList }
{}
