//! What a transaction may do and what it does, each a list in one allocation: `Plan` of shapes, `Ops` of operations.

use crate::operation::{Op, Shape};
use std::alloc::{AllocError, Global};
use std::marker::Model;

/// What a transaction may do: the shapes of its operations, in order. Contracts see it as a list.
///
/// It is made from a `Vec` and gives it back without taking memory.
#[derive(Debug, Drop)]
pub struct Plan {
    items: Vec<Shape>,
}

impl Model for Plan {
    ghost use Rattle.std.specs.Prelude.{List};
    ghost use Rattle.base.specs.declared.operation.Shape.{Shape};

    ghost Value = { List Shape };

    ghost view = { λ p. p.items.items };
}

impl PartialEq for Plan {
    ghost use Rattle.std.specs.Cmp.Lexicographic.{lists_per, pointwise};
    ghost use Rattle.base.specs.contracts.operation.ShapePartialEq.TheImpl.{ghosts};
    ghost use Rattle.base.specs.contracts.operation.ShapePartialEq.TheImpl.Laws.{laws-law};

    ghost eq = { λ a b. pointwise ghosts.eq a b };

    ghost laws = { lists_per laws-law };

    fn eq(&self, other: &Self) -> bool {
        self.as_slice() == other.as_slice()
    }
}

impl Eq for Plan {
    ghost use Rattle.std.specs.Cmp.Lexicographic.{lists_equiv};
    ghost use Rattle.base.specs.contracts.operation.ShapeEq.TheImpl.Laws.{laws-law};

    ghost laws = { lists_equiv laws-law };
}

impl Plan {
    ghost use Rattle.std.specs.Prelude.{◌≡◌, IfOk, map};
    ghost use Rattle.base.specs.history.Plans.{shape_of};

    /// The plan of these shapes.
    pub fn new(items: Vec<Shape>) -> Self
        ensures { result ≡ items.items }
    {
        Plan { items }
    }

    /// The plan of these operations: their shapes, in order. Refused if there is no memory for it.
    pub fn of(alloc: Global, ops: &Ops) -> Result<Self, AllocError>
        ensures { IfOk result (λ plan. plan ≡ map shape_of ops.now) }
    {
        let items = ops.as_slice().iter().map(|op| op.shape()).collect(alloc)?;
        Ok(Plan { items })
    }

    /// A copy of it. Refused if there is no memory for it.
    pub fn try_clone(&self, alloc: Global) -> Result<Self, AllocError>
        ensures { IfOk result (λ copy. copy ≡ self.now) }
    {
        Ok(Plan {
            items: Vec::from_slice(alloc, self.items.as_slice())?,
        })
    }

    /// The `Vec` that holds the shapes.
    pub fn into_vec(self) -> Vec<Shape>
        ensures { result.items ≡ self }
    {
        self.items
    }

    /// The shapes, in order.
    pub fn as_slice(&self) -> &[Shape]
        ensures { result.now ≡ self.now }
    {
        self.items.as_slice()
    }
}

/// What a transaction does, in order. Contracts see it as a list.
///
/// It is made from a `Vec` and gives it back without taking memory.
#[derive(Debug, Drop)]
pub struct Ops {
    items: Vec<Op>,
}

impl Model for Ops {
    ghost use Rattle.std.specs.Prelude.{List};
    ghost use Rattle.base.specs.declared.operation.Op.{Op};

    ghost Value = { List Op };

    ghost view = { λ p. p.items.items };
}

impl PartialEq for Ops {
    ghost use Rattle.std.specs.Cmp.Lexicographic.{lists_per, pointwise};
    ghost use Rattle.base.specs.contracts.operation.OpPartialEq.TheImpl.{ghosts};
    ghost use Rattle.base.specs.contracts.operation.OpPartialEq.TheImpl.Laws.{laws-law};

    ghost eq = { λ a b. pointwise ghosts.eq a b };

    ghost laws = { lists_per laws-law };

    fn eq(&self, other: &Self) -> bool {
        self.as_slice() == other.as_slice()
    }
}

impl Eq for Ops {
    ghost use Rattle.std.specs.Cmp.Lexicographic.{lists_equiv};
    ghost use Rattle.base.specs.contracts.operation.OpEq.TheImpl.Laws.{laws-law};

    ghost laws = { lists_equiv laws-law };
}

impl Ops {
    ghost use Rattle.std.specs.Prelude.{◌≡◌};

    /// These operations.
    pub fn new(items: Vec<Op>) -> Self
        ensures { result ≡ items.items }
    {
        Ops { items }
    }

    /// The `Vec` that holds the operations.
    pub fn into_vec(self) -> Vec<Op>
        ensures { result.items ≡ self }
    {
        self.items
    }

    /// The operations, in order.
    pub fn as_slice(&self) -> &[Op]
        ensures { result.now ≡ self.now }
    {
        self.items.as_slice()
    }
}
