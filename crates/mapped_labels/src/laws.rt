//! What holds of sizes, slots, uberblocks and arrays: each function's contract is a law, and its body does nothing.

ghost use Rattle.mapped_labels.specs.Laws.{ActivesAgree, MappedIsNotPlain, ReadingsAgree, RingActivesAgree, RingsShowActives, RingsShowNone, SlotsDiffer, SlotsReadBack};

/// No device has a size of both kinds, so that of a pool with a map is refused by `labels::Geometry::of`.
pub fn mapped_is_not_plain()
    ensures { MappedIsNotPlain }
{}

/// What is encoded of fields within their limits is an uberblock of these fields.
pub fn slots_read_back()
    ensures { SlotsReadBack }
{}

/// Bytes are an uberblock of one list of fields at most, so two readings of them agree.
pub fn readings_agree()
    ensures { ReadingsAgree }
{}

/// An image has one active uberblock at most, and so have the arrays of one.
pub fn actives_agree()
    ensures image { ActivesAgree }
    ensures ring { RingActivesAgree }
{}

/// The uberblock of a later group, up to 31 groups on, never lies in the slot of the earlier one. So that of a sync or
/// an import, one or four groups on, has another slot than the active one.
pub fn slots_differ()
    ensures { SlotsDiffer }
{}

/// The active uberblock of an image is that of its arrays; if the one has none, so does the other.
pub fn rings_show_images()
    ensures active { RingsShowActives }
    ensures none { RingsShowNone }
{}
