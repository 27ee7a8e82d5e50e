//! The name of a pool as an import would mount it, by what leads to its objects.

ghost use Rattle.std.specs.Prelude.{◌≡◌, ◌∷◌, []};
ghost use Rattle.base.specs.tree.Mount.{records_above};
ghost use Rattle.object_views.specs.PoolNames.{name_after, name_by, ops_above, ops_in};

use crate::paths::PoolPaths;
use base::{Group, Op, PoolName};
use intent_log::LoggedPiece;
use records::Record;

impl PoolPaths {
    ghost use Rattle.std.specs.Prelude.{◌≡◌, ℕ, List};
    ghost use Rattle.base.specs.history.Contents.{Contents};
    ghost use Rattle.base.specs.tree.Mount.{MountsTo};
    ghost use Rattle.log_replay.specs.Replays.{IsChainAllowed};
    ghost use Rattle.object_views.specs.PoolNames.{name_of};
    ghost use Rattle.object_views.specs.PoolPaths.{ArePathsOf};

    /// The name of the pool: that of its labels, or the last one that a log record gives it that an import would apply.
    /// It reads nothing and takes no memory. Of paths of an image that mounts it is the name that is mounted.
    pub fn name(&self) -> PoolName
        ensures name { result ≡ name_of self.now }
        ensures mounted { IsChainAllowed self.now.logged.items → (image : List ℕ)
            → ArePathsOf image self.now → (contents : Contents) → MountsTo image contents
            → result ≡ contents.name }
    {
        let mut name = self.found.name.copy();
        rename_by_chain(&mut name, self.found.uberblock.group, &self.logged);
        name
    }
}

// The name after the records of these pieces that are of groups above this one.
fn rename_by_chain(name: &mut PoolName, group: Group, pieces: &[LoggedPiece])
    ensures { name.new ≡ name_after (ops_in (records_above group.0 pieces.now)) name.old }
{
    for piece in pieces {
        rename_by_piece(name, group, piece);
    }
}

fn rename_by_piece(name: &mut PoolName, group: Group, piece: &LoggedPiece)
    ensures { name.new ≡ name_after (ops_in (records_above group.0 (piece.now ∷ []))) name.old }
{
    let records = piece.records();
    for logged in records {
        rename_by_record(name, group, logged);
    }
}

fn rename_by_record(name: &mut PoolName, group: Group, logged: &Record)
    ensures { name.new ≡ name_after (ops_above group.0 logged.now) name.old }
{
    if group.0 < logged.group.0 {
        rename(name, logged.ops.as_slice());
    }
}

// The name after these operations.
fn rename(name: &mut PoolName, ops: &[Op])
    ensures { name.new ≡ name_after ops.now name.old }
{
    for op in ops {
        rename_by(name, op);
    }
}

fn rename_by(name: &mut PoolName, op: &Op)
    ensures { name.new ≡ name_by op.now name.old }
{
    if let Op::SetName(bytes) = op {
        if let Some(given) = PoolName::new(bytes.as_slice()) {
            *name = given;
        }
    }
}
