//! Which of the configs that were read belongs to the active uberblock, and whether it outlives the next change.
//!
//! A config of a later group than the uberblock's was written by a sync that did not end, and does not count.

ghost use Rattle.std.specs.Prelude.{◌≡◌, ◌<◌, ◌↔◌, IsTrue, IfOk, IfErr, IfSome, OnErr};
ghost use Rattle.base.specs.formats.Labels.{IsChoice, HasNoCandidate};
ghost use Rattle.labels.specs.Choices.{IsKeptIn};

use crate::config::LabelConfig;
use base::{Group, PoolError};

/// The config that belongs to an active uberblock of this pool and group.
///
/// It is the one of the highest group among the valid configs of the four labels with this guid and a group not above
/// this one. If several labels have that group, it is the lowest label's.
///
/// # Errors
/// `NoPool` exactly if no label has such a config.
pub fn choose(
    configs: &[Option<LabelConfig>; 4],
    guid: u64,
    group: Group,
) -> Result<&LabelConfig, PoolError>
    ensures chosen { IfOk result (λ config. IsChoice configs.now guid group.0 config.now) }
    ensures none { OnErr result (HasNoCandidate configs.now guid group.0) }
    ensures refused { IfErr result (λ e. e ≡ PoolError.NoPool) }
{
    let mut best: Option<&LabelConfig> = None;
    for config in configs {
        if let Some(config) = config {
            if config.is_candidate(guid, group) && is_higher(config, best) {
                best = Some(config);
            }
        }
    }
    best.ok_or(PoolError::NoPool)
}

/// Whether one of the odd labels, 1 and 3, holds this very config: the same guid, group, size and name.
pub fn is_kept_in_odd(configs: &[Option<LabelConfig>; 4], chosen: &LabelConfig) -> bool
    ensures { IsTrue result ↔ IsKeptIn configs.now chosen.now }
{
    is_kept(&configs[1], chosen) || is_kept(&configs[3], chosen)
}

fn is_kept(config: &Option<LabelConfig>, chosen: &LabelConfig) -> bool
    ensures { IsTrue result ↔ (config.now ≡ Some chosen.now) }
{
    match config {
        Some(config) => config == chosen,
        None => false,
    }
}

fn is_higher(config: &LabelConfig, best: Option<&LabelConfig>) -> bool
    ensures { IsTrue result ↔ IfSome best.entry (λ b. b.now.group < config.now.group) }
{
    match best {
        Some(best) => best.group() < config.group(),
        None => true,
    }
}
