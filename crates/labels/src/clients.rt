//! What callers rest on: one function for each promise of this crate's calls, proved from the contract of the call
//! alone. So it is refused as soon as that contract says less.

ghost use Rattle.std.specs.Prelude.{◌≡◌, ◌≤◌, ◌∷◌, [], IfOk, IfSome, IsErrOf, IsOk, Some, slice_get};
ghost use Rattle.base.specs.formats.Labels.{HasNoCandidate};

use crate::choice::{choose, is_kept_in_odd};
use crate::config::LabelConfig;
use crate::geometry::Geometry;
use crate::laws::configs_are_told_apart;
use crate::stage::Stage;
use base::{Group, PoolError, PoolName};

// The least device: 6 MiB, of which labels 0 and 1 and the boot area are the first 4 MiB, and labels 2 and 3 the last
// 512 KiB.
fn a_device_of_6_mib_has_384_blocks() -> Result<(), PoolError>
    ensures { IsOk result }
{
    let geometry = Geometry::of(12_288)?;
    let size = geometry.size();
    let blocks = geometry.blocks();
    prove!(size == 6_291_456 && blocks == 384);
    let address = geometry.block_address(383);
    prove!(address == 5_763_072);
    Ok(())
}

fn block_addresses_end_before_label_2(geometry: Geometry) -> u64
    requires { geometry ≡ 6291456 }
    ensures { result ≡ 1 }
{
    let last = geometry.is_block_address(5_763_072);
    let past = geometry.is_block_address(5_767_168);
    prove!(last);
    prove!(!past);
    geometry.block_index(4_198_400)
}

fn labels_lie_at_both_ends(geometry: Geometry)
    requires { geometry ≡ 6291456 }
{
    let first = geometry.label_place(0);
    let second = geometry.label_place(1);
    let third = geometry.label_place(2);
    let last = geometry.label_place(3);
    prove!(first == 0 && second == 262_144);
    prove!(third == 5_767_168 && last == 6_029_312);
}

fn configs_and_slots_lie_in_their_label(geometry: Geometry)
    requires { geometry ≡ 6291456 }
{
    let config = geometry.config_place(1);
    let slot = geometry.slot_place(1, 2);
    prove!(config == 278_528);
    prove!(slot == 395_264);
}

fn a_part_of_256_kib_is_no_size() -> Result<Geometry, PoolError>
    ensures { IsErrOf result PoolError.BadGeometry }
{
    Geometry::of(12_289)
}

fn the_stages_share_no_label() {
    let even = Stage::Even.labels();
    let odd = Stage::Odd.labels();
    prove!(even == [0, 2]);
    prove!(odd == [1, 3]);
}

fn a_config_has_the_fields_that_it_was_made_of(name: PoolName) {
    let config = LabelConfig::new(77, Group(5), 6_291_456, name);
    let guid = config.guid();
    let group = config.group();
    let size = config.size();
    prove!(guid == 77 && group.0 == 5 && size == 6_291_456);
}

fn a_config_shows_its_name(config: &LabelConfig) -> usize
    requires { config.now.name ≡ 116 ∷ 97 ∷ 110 ∷ 107 ∷ [] }
    ensures { result ≡ 4 }
{
    config.name().as_slice().len()
}

fn a_config_that_is_written_reads_back(config: &LabelConfig) -> Option<LabelConfig>
    requires { config.now.size ≡ 6291456 }
    ensures { result ≡ Some config.now }
{
    configs_are_told_apart();
    let block = config.encode();
    LabelConfig::decode(block.as_bytes(), 6_291_456)
}

fn a_config_of_another_size_is_none(block: &[u8; 4096]) -> Option<LabelConfig>
    ensures { IfSome result (λ config. config.size ≡ 6291456) }
{
    LabelConfig::decode(block, 6_291_456)
}

fn a_config_of_a_later_group_does_not_count(
    configs: &[Option<LabelConfig>; 4],
) -> Result<&LabelConfig, PoolError>
    ensures { IfOk result (λ config. config.now.group ≤ 9) }
{
    choose(configs, 77, Group(9))
}

fn one_config_of_the_pool_is_enough<'a>(
    configs: &'a [Option<LabelConfig>; 4],
    only: &LabelConfig,
) -> Result<&'a LabelConfig, PoolError>
    requires stands { slice_get configs.now 3 ≡ Some (Some only.now) }
    requires guid { only.now.guid ≡ 77 }
    requires group { only.now.group ≡ 9 }
    ensures { IsOk result }
{
    choose(configs, 77, Group(9))
}

// If the config of label 0 is one of the latest, it is chosen and none of another label.
fn the_lowest_label_wins_ties<'a>(
    configs: &'a [Option<LabelConfig>; 4],
    lowest: &LabelConfig,
) -> Result<&'a LabelConfig, PoolError>
    requires stands { slice_get configs.now 0 ≡ Some (Some lowest.now) }
    requires guid { lowest.now.guid ≡ 77 }
    requires group { lowest.now.group ≡ 9 }
    ensures { IfOk result (λ config. config.now ≡ lowest.now) }
{
    choose(configs, 77, Group(9))
}

fn no_config_of_the_pool_is_no_pool(
    configs: &[Option<LabelConfig>; 4],
) -> Result<&LabelConfig, PoolError>
    requires { HasNoCandidate configs.now 77 9 }
    ensures { IsErrOf result PoolError.NoPool }
{
    choose(configs, 77, Group(9))
}

fn label_3_keeps_it(configs: &[Option<LabelConfig>; 4], chosen: &LabelConfig)
    requires { slice_get configs.now 3 ≡ Some (Some chosen.now) }
{
    let is_kept = is_kept_in_odd(configs, chosen);
    prove!(is_kept);
}

fn an_even_label_does_not_keep_it(configs: &[Option<LabelConfig>; 4], chosen: &LabelConfig)
    requires second { slice_get configs.now 1 ≡ Some (Some chosen.now) → ⊥ }
    requires last { slice_get configs.now 3 ≡ Some (Some chosen.now) → ⊥ }
{
    let is_kept = is_kept_in_odd(configs, chosen);
    prove!(!is_kept);
}
