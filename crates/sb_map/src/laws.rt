//! What is so of all maps.

ghost use Rattle.sb_map.specs.Maps.{MapsAreSmall};

/// A map has at most two pages for each entry, and three more, and the owner has no other.
pub fn maps_are_small()
    ensures { MapsAreSmall }
{}
