//! What a check of all says of labels: which of them have no valid config, while others have one. An import of such a
//! pool goes well, and so such a label shows nowhere else.

ghost use Rattle.std.specs.Io.KnownBytes.{Appends};
ghost use Rattle.std.specs.Prelude.{◌≡◌, ◌<◌, IfErr, IfOk, IsTrue, OnOk};
ghost use Rattle.base.specs.disk.Disk.{bytes_of};
ghost use Rattle.base.specs.formats.Geometry.{IsGeometry};
ghost use Rattle.device_model.specs.Reading.{OnlyReads};
ghost use Rattle.read_commands.specs.Checks.{IsCheckRefusal};
ghost use Rattle.read_commands.specs.FoundLabels.{AreLabelStates, IsStateAt, is_whole, label_lines, some_whole, state_line, state_lines, state_of};

use crate::failure::Failure;
use crate::label_lines::{ConfigFound, read_config};
use base::PoolError;
use device_model::SectorDevice;
use labels::Geometry;
use std::io::{self, Write};

/// What stands in the place of a label's config.
#[derive(Clone, Copy)]
pub enum ConfigState {
    /// A valid config.
    Whole,
    /// A config of a device of this size.
    OtherSize(u64),
    /// Zeros.
    Zeroed,
    /// Anything else.
    Unchecked,
}

/// A label, and what stands in the place of its config.
#[derive(Clone, Copy)]
pub struct LabelState {
    /// Which of the four it is, from 0 on.
    pub label: usize,
    /// What stands in the place of its config.
    pub config: ConfigState,
}

/// What stands in the places of the four configs of a device. It makes no write and no flush.
///
/// # Errors
/// `BadGeometry`, before any device call. `Read` if the device refuses one.
pub fn read_states<D: SectorDevice>(device: &mut D) -> Result<[LabelState; 4], PoolError>
    ensures reads { OnlyReads D.SectorDevice result device.old device.new }
    ensures states { IsTrue D.keeps_model
        → IfOk result (AreLabelStates (bytes_of (D.disk device.old).now)) }
    ensures sized { OnOk result (IsGeometry (D.size device.old)) }
    ensures refused { IfErr result (IsCheckRefusal (D.size device.old)) }
{
    let geometry = Geometry::of(device.sectors())?;
    read_four(device, geometry)
}

fn read_four<D: SectorDevice>(
    device: &mut D,
    geometry: Geometry,
) -> Result<[LabelState; 4], PoolError>
    requires { D.size device.old ≡ geometry }
    ensures reads { OnlyReads D.SectorDevice result device.old device.new }
    ensures refused { IfErr result (λ e. e ≡ PoolError.Read) }
    ensures states { IsTrue D.keeps_model
        → IfOk result (AreLabelStates (bytes_of (D.disk device.old).now)) }
{
    Ok([
        read_state(device, geometry, 0)?,
        read_state(device, geometry, 1)?,
        read_state(device, geometry, 2)?,
        read_state(device, geometry, 3)?,
    ])
}

fn read_state<D: SectorDevice>(
    device: &mut D,
    geometry: Geometry,
    label: usize,
) -> Result<LabelState, PoolError>
    requires sized { D.size device.old ≡ geometry }
    requires label { label < 4 }
    ensures reads { OnlyReads D.SectorDevice result device.old device.new }
    ensures refused { IfErr result (λ e. e ≡ PoolError.Read) }
    ensures number { IfOk result (λ s. s.label ≡ label) }
    ensures state { IsTrue D.keeps_model
        → IfOk result (IsStateAt (bytes_of (D.disk device.old).now)) }
{
    let found = read_config(device, geometry, label)?;
    Ok(LabelState {
        label,
        config: state_of(&found),
    })
}

// What was found, without the config.
fn state_of(found: &ConfigFound) -> ConfigState
    ensures { result ≡ state_of found.now }
{
    match found {
        ConfigFound::Config(_) => ConfigState::Whole,
        ConfigFound::OfSize(size) => ConfigState::OtherSize(*size),
        ConfigFound::Zeros => ConfigState::Zeroed,
        ConfigFound::Unchecked => ConfigState::Unchecked,
    }
}

/// Writes a line for each label that has no valid config, if another one has.
pub(crate) fn write_states<W: Write>(states: &[LabelState; 4], out: &mut W) -> Result<(), Failure>
    ensures written { OnOk result (Appends (W.contents out.old) (W.contents out.new)
        (label_lines states.now)) }
    ensures failed { IfErr result (λ failure. failure ≡ Failure.Unwritten) }
{
    if is_some_whole(states) {
        write_all(states, out)
    } else {
        Ok(())
    }
}

// Writes a line for each label that has no valid config.
fn write_all<W: Write>(states: &[LabelState; 4], out: &mut W) -> Result<(), Failure>
    ensures written { OnOk result (Appends (W.contents out.old) (W.contents out.new)
        (state_lines states.now)) }
    ensures failed { IfErr result (λ failure. failure ≡ Failure.Unwritten) }
{
    for state in states {
        let Ok(()) = write_state(state, out) else {
            return Err(Failure::Unwritten);
        };
    }
    Ok(())
}

/// Whether some label has a valid config.
pub fn is_some_whole(states: &[LabelState; 4]) -> bool
    ensures { result ≡ some_whole states.now }
{
    states.iter().any(|state| is_whole(state))
}

/// Whether a label has a valid config.
pub fn is_whole(state: &LabelState) -> bool
    ensures { result ≡ is_whole state.now.config }
{
    matches!(state.config, ConfigState::Whole)
}

fn write_state<W: Write>(state: &LabelState, out: &mut W) -> io::Result<()>
    ensures { OnOk result (Appends (W.contents out.old) (W.contents out.new)
        (state_line state.now)) }
{
    let label = state.label;
    match state.config {
        ConfigState::Whole => Ok(()),
        ConfigState::OtherSize(size) => writeln!(out, "label {label} config none size {size}"),
        ConfigState::Zeroed => writeln!(out, "label {label} config none zeros"),
        ConfigState::Unchecked => writeln!(out, "label {label} config none check"),
    }
}
