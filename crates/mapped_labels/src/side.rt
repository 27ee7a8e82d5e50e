//! The two places that a node of a map may stand in.

ghost use Rattle.std.specs.Prelude.{◌≡◌};
ghost use Rattle.mapped_labels.specs.Shapes.{other_side, side_number};

/// One of the two blocks that a node of a map may stand in.
#[derive(Clone, Copy, PartialEq, Eq)]
pub enum Side {
    /// The one with the lower address.
    First,
    /// The one after it.
    Second,
}

impl Side {
    /// The other one.
    pub fn other(self) -> Side
        ensures { result ≡ other_side self }
    {
        match self {
            Side::First => Side::Second,
            Side::Second => Side::First,
        }
    }

    /// 0 or 1.
    pub fn number(self) -> u64
        ensures { result ≡ side_number self }
    {
        match self {
            Side::First => 0,
            Side::Second => 1,
        }
    }
}
