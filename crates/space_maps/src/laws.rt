//! What holds of maps: each function's contract is a law, and its body does nothing.

ghost use Rattle.space_maps.specs.Laws.{FirmMapsStand, MapsFollow, OtherSidesAreSpare};

/// The bits after a sync are those before it, with what was freed, without what was taken.
pub fn maps_follow()
    ensures { MapsFollow }
{}

/// The side that a node is written to lies past the area, and no node has it as its live one.
pub fn other_sides_are_spare()
    ensures { OtherSidesAreSpare }
{}

/// What is fixed of a view's map on a disk stands in each image that a crash leaves: a read of a node takes its block, and
/// the payload is the one that the view tells.
pub fn firm_maps_stand()
    ensures { FirmMapsStand }
{}
