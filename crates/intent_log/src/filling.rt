//! What the next block of a log has of its records, and the block that holds it.

ghost use Rattle.std.specs.Prelude.{◌≡◌, IfErr, IfOk, map};
ghost use Rattle.intent_log.specs.Fillings.{receipt_of};

use crate::ahead::Ahead;
use crate::begun::BegunRecord;
use base::{PoolError, Receipt};
use checked_blocks::Block;
use records::Record;
use std::alloc::Global;

/// What the next block has of records.
#[derive(Drop)]
pub enum Filling {
    /// Whole records with these receipts, in order.
    Whole(Vec<Receipt>),
    /// The first part of this record.
    First(BegunRecord),
    /// The next part of the record that is begun.
    Part,
}

/// The block that is written next.
#[derive(Drop)]
pub struct NextLogBlock {
    /// The block, with its check.
    pub block: Block,
    /// What it has of records.
    pub filling: Filling,
    /// The blocks that were sealed beside it, if there are some.
    pub ahead: Option<Ahead>,
}

/// The receipts of records, in order.
///
/// # Errors
/// `NoMemory`.
pub(crate) fn receipts_of(alloc: Global, records: &[Record]) -> Result<Vec<Receipt>, PoolError>
    ensures receipts { IfOk result
        (λ receipts. receipts.items ≡ map receipt_of records.now) }
    ensures refused { IfErr result (λ e. e ≡ PoolError.NoMemory) }
{
    let receipts = records
        .iter()
        .map(|record| Receipt {
            ordinal: record.ordinal,
            group: record.group,
        })
        .collect(alloc)?;
    Ok(receipts)
}
