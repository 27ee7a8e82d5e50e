//! The import of a pool that is to be mounted.

ghost use Rattle.std.specs.Prelude.{◌≡◌, IfErr, IfOk, IsTrue, MatchResult};
ghost use Rattle.base.specs.history.Past.{Past};
ghost use Rattle.base.specs.kept.CrashRule.{KeepsOwn};
ghost use Rattle.base.specs.kept.LeftDisks.{IsLeft};
ghost use Rattle.import_replay.specs.RunStarts.{StartsRun};
ghost use Rattle.mounted.specs.ShownMounted.{shown_of_import};
ghost use Rattle.script_lines.specs.Answers.{imported_answer};
ghost use Rattle.scripts.specs.Devices.{IsImportRun, IsLeftByImport};

use base::PoolError;
use device_model::SectorDevice;
use import_replay::{Imported, Limits, import};
use script_lines::Answer;
use std::alloc::Global;

/// Imports the pool on a device, as `import_replay::import` does, and says what was imported.
///
/// # Errors
/// Those of that call. The device comes back as the import left it.
pub fn import_for_mount<D: SectorDevice>(
    alloc: Global,
    device: D,
    dirty_max: u64,
    cache_blocks: u64,
    moment: u64,
) -> Result<(Imported<D>, Answer), (PoolError, D)>
    ensures run { IfOk result (λ p.
        IsImportRun D.SectorDevice dirty_max moment device p.0.device p.0.mounted) }
    ensures answer { IfOk result (λ p.
        p.1 ≡ imported_answer p.0.mounted.group p.0.mounted.records) }
    ensures cache { IfOk result (λ p. p.0.cache.cap ≡ cache_blocks) }
    ensures starts { IsTrue D.keeps_model → IfOk result (λ p. StartsRun (D.disk device)
        (shown_of_import p.0.mounted).dirty_max (D.disk p.0.device) p.0.mounted) }
    ensures own { IsTrue D.keeps_model → IfOk result (λ p.
        KeepsOwn (D.disk device) (D.disk p.0.device)) }
    ensures refused { IfErr result (λ e.
        IsLeftByImport D.SectorDevice dirty_max cache_blocks moment device e.0 e.1) }
    ensures still { IsTrue D.keeps_model → MatchResult result
        (λ p. (past : Past) → IsLeft past (D.disk device) → IsLeft past (D.disk p.0.device))
        (λ e. (past : Past) → IsLeft past (D.disk device) → IsLeft past (D.disk e.1)) }
{
    let limits = Limits {
        dirty_max,
        cache_blocks,
    };
    match import(alloc, device, limits, moment) {
        Ok(imported) => {
            let answer = Answer::imported(imported.group(), imported.records());
            Ok((imported, answer))
        }
        Err(refused) => Err(refused),
    }
}
