//! A law of the places, the contract of a call that does nothing.

ghost use Rattle.pas_tree.specs.Begins.{PlacesBegin};

/// The first token of a construct is the one with which the text that its tree spells begins.
pub fn places_begin()
    ensures { PlacesBegin }
{}
