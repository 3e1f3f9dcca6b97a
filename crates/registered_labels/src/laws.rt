//! Laws of the definitions that the contracts of this crate use. Each function is empty, and its contract is
//! the law.
ghost use Rattle.registered_labels.specs.Examples.{ExamplesOfCollisions, ExamplesOfLines};
ghost use Rattle.registered_labels.specs.Laws.{Utf8KeepsOrder, CollisionsAreListed, CollisionsOfParts};

/// The byte order of UTF-8 is label order.
pub fn utf8_keeps_order()
    ensures { Utf8KeepsOrder }
{}

/// What a search meets is the one rising list of the registered labels that are spelled, and exactly those of the
/// registrable ones that are registered.
pub fn collisions_are_listed()
    ensures { CollisionsAreListed }
{}

/// Registered labels that are cut into parts have together the collisions of the parts, in the order of the parts.
pub fn collisions_of_parts()
    ensures { CollisionsOfParts }
{}

/// Worked examples hold of the definitions themselves.
pub fn examples_hold()
    ensures collisions { ExamplesOfCollisions }
    ensures lines { ExamplesOfLines }
{}
