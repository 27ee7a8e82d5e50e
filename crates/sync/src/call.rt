//! The device calls of a sync by their places in its order. Labels are changed in two stages (On-Disk Specification,
//! chapter 1).

ghost use Rattle.std.specs.Prelude.{◌≡◌, ◌<◌, Some, slice_get};
ghost use Rattle.sync.specs.CallOrder.{call_said, calls_behind_blocks, calls_behind_staged_blocks, stage_after};

use labels::Stage;

/// A device call of a sync.
#[derive(Clone, Copy)]
pub(crate) enum Call {
    /// The write of the block of this number.
    Block(usize),
    /// The write of the config of this label.
    Config(usize),
    /// The write of the uberblock of this label.
    Uberblock(usize),
    /// A flush.
    Flush,
}

/// The stage that comes after this one.
fn other(stage: Stage) -> Stage
    ensures { result ≡ stage_after stage }
{
    match stage {
        Stage::Even => Stage::Odd,
        Stage::Odd => Stage::Even,
    }
}

/// The calls after the blocks of a sync that leaves the labels' configs: a flush, four uberblocks, a flush.
pub(crate) fn plain_call(position: usize) -> Call
    requires { position < 6 }
    ensures { slice_get calls_behind_blocks position ≡ Some (call_said result) }
{
    match position {
        0 | 5 => Call::Flush,
        _ => Call::Uberblock(position - 1),
    }
}

/// The calls after the blocks of a sync that changes the labels' configs: a flush, two configs and a flush, four
/// uberblocks and a flush, two configs and a flush.
pub(crate) fn staged_call(first: Stage, position: usize) -> Call
    requires { position < 12 }
    ensures { slice_get (calls_behind_staged_blocks first) position ≡ Some (call_said result) }
{
    match position {
        0 | 3 | 8 | 11 => Call::Flush,
        1 => Call::Config(first.labels()[0]),
        2 => Call::Config(first.labels()[1]),
        9 => Call::Config(other(first).labels()[0]),
        10 => Call::Config(other(first).labels()[1]),
        _ => Call::Uberblock(position - 4),
    }
}
