//! The order in which labels are written: the even ones, a flush, and then the odd ones, or the other way round.

/// One of the two stages in which labels are written, so that a failure in one leaves the other pair unchanged
/// (On-Disk Specification, chapter 1).
#[derive(Clone, Copy)]
pub enum Stage {
    /// Labels 0 and 2.
    Even,
    /// Labels 1 and 3.
    Odd,
}

impl Stage {
    ghost use Rattle.std.specs.Prelude.{◌≡◌};
    ghost use Rattle.labels.specs.Stages.{labels_of};

    /// The two labels of the stage, in the order in which they are written.
    pub fn labels(self) -> [usize; 2]
        ensures { result ≡ labels_of self }
    {
        match self {
            Stage::Even => [0, 2],
            Stage::Odd => [1, 3],
        }
    }
}
