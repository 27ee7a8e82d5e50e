//! What holds of the commands by number, which open a pool for one handle: each function's contract is a law, and its
//! body does nothing.
//!
//! 1. All of a command is done by the only handle of its pool. So groups rise, and a power failure leaves the first of
//!    its transactions.
//! 2. A command that ended well is durable. So a later one on the same device begins with all that it made.

ghost use Rattle.command_fronts.specs.CommandFronts.{PutsFollowCommands, PutsSurviveInOrder, RemovalsFollowCommands, RemovalsSurviveInOrder};

use device_model::SectorDevice;

/// At each moment of a put from the open of its pool on, whatever a crash leaves has the first of its transactions and
/// no others, upon what an import would have found. So it has the first pieces of the bytes, also if the put is refused.
pub fn puts_survive_in_order<D: SectorDevice>()
    ensures { PutsSurviveInOrder D.SectorDevice }
{}

/// So it is of a removal, which has one transaction at most.
pub fn removals_survive_in_order<D: SectorDevice>()
    ensures { RemovalsSurviveInOrder D.SectorDevice }
{}

/// At each moment of a put on a device that an earlier command gave back, from the open on, whatever a crash leaves has
/// all that the earlier one made, and then the first transactions of this one. The earlier one has to have ended well.
pub fn puts_follow_commands<D: SectorDevice>()
    ensures { PutsFollowCommands D.SectorDevice }
{}

/// So it is of a removal.
pub fn removals_follow_commands<D: SectorDevice>()
    ensures { RemovalsFollowCommands D.SectorDevice }
{}
