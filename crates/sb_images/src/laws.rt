//! Laws of images.

ghost use Rattle.sb_images.specs.Laws.{HasOneGeometry, RestoresOneWay};

/// An image is one of a store of one geometry.
pub fn one_geometry()
    ensures { HasOneGeometry }
{}

/// The pages of an image are restored in one way.
pub fn restores_one_way()
    ensures { RestoresOneWay }
{}
