//! Laws of descriptors.

ghost use Rattle.sb_catalog.specs.Laws.{OneDescriptor, IsAsLong};

/// No two descriptors that can be stored have one spelling.
pub fn one_descriptor()
    ensures { OneDescriptor }
{}

/// A relation's descriptor is as long as the limit on descriptors counts it.
pub fn is_as_long()
    ensures { IsAsLong }
{}
