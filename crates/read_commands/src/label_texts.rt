//! What `labels` tells of each label, and of the active uberblock, in lines.

ghost use Rattle.std.specs.Prelude.{◌<◌, OnOk};
ghost use Rattle.base.specs.formats.Geometry.{slot_count};
ghost use Rattle.read_commands.specs.LabelTexts.{WritesRead};
ghost use Rattle.read_commands.specs.ReadLabels.{AreCounted, IsActiveRead, arrays_of, slots_read};

use crate::label_lines::ConfigFound;
use crate::labels_read::Labels;
use base::Group;
use std::fmt;
use std::io::{self, Write};

/// Writes two lines for each label, and one for the active uberblock.
pub(crate) fn write_labels<W: Write>(labels: &Labels, out: &mut W) -> io::Result<()>
    ensures { OnOk result (WritesRead labels.now (W.contents out.old) (W.contents out.new)) }
{
    writeln!(
        out,
        "{}{}{}{}active {}",
        Label {
            number: 0,
            config: &labels.configs[0],
            ring: ring_of(labels, 0)
        },
        Label {
            number: 1,
            config: &labels.configs[1],
            ring: ring_of(labels, 1)
        },
        Label {
            number: 2,
            config: &labels.configs[2],
            ring: ring_of(labels, 2)
        },
        Label {
            number: 3,
            config: &labels.configs[3],
            ring: ring_of(labels, 3)
        },
        active_of(labels)
    )
}

/// How many uberblocks a label has, and the highest group of these.
pub(crate) fn ring_of(labels: &Labels, label: usize) -> Ring
    requires { label < 4 }
    ensures { AreCounted (slots_read (arrays_of labels.now) label) slot_count result.count
        result.highest.0 }
{
    let (count, highest) = labels.count_uberblocks(label);
    Ring { count, highest }
}

/// The active uberblock, and the lowest label that has it.
pub(crate) fn active_of(labels: &Labels) -> Active
    ensures { IsActiveRead (arrays_of labels.now) result }
{
    let Some(group) = labels.active_group() else {
        return Active::Missing;
    };
    match labels.label_of(group) {
        Some(label) => Active::Found(group, label),
        None => Active::Unplaced(group),
    }
}

/// A label. As text it is two lines: its config, and its uberblocks.
#[derive(Clone, Copy)]
pub(crate) struct Label<'a> {
    /// Which of the four it is, from 0 on.
    pub number: usize,
    /// What stands in the place of its config.
    pub config: &'a ConfigFound,
    /// Its uberblocks.
    pub ring: Ring,
}

impl fmt::Display for Label<'_> {
    ghost use Rattle.std.specs.Prelude.{Some};
    ghost use Rattle.read_commands.specs.LabelTexts.{label_text};

    ghost output = { λ l. Some (label_text l.number l.config.now l.ring.count l.ring.highest.0) };

    fn fmt<W: fmt::Write>(&self, f: &mut fmt::Formatter<W>) -> fmt::Result {
        writeln!(
            f,
            "label {} config {}\nlabel {} uberblocks {}",
            self.number,
            Config(self.config),
            self.number,
            self.ring
        )
    }
}

/// The config of a label, or why there is none.
#[derive(Clone, Copy)]
struct Config<'a>(&'a ConfigFound);

impl fmt::Display for Config<'_> {
    ghost use Rattle.std.specs.Prelude.{Some};
    ghost use Rattle.read_commands.specs.LabelTexts.{config_text};

    ghost output = { λ c. Some (config_text c.0.now) };

    fn fmt<W: fmt::Write>(&self, f: &mut fmt::Formatter<W>) -> fmt::Result {
        match self.0 {
            ConfigFound::Config(config) => write!(
                f,
                "{} {} {} {}",
                config.name().as_str(),
                config.guid(),
                config.group().0,
                config.size()
            ),
            ConfigFound::OfSize(size) => write!(f, "none size {size}"),
            ConfigFound::Zeros => write!(f, "none zeros"),
            ConfigFound::Unchecked => write!(f, "none check"),
        }
    }
}

/// How many uberblocks a label has, and the highest group of these.
#[derive(Clone, Copy)]
pub(crate) struct Ring {
    /// How many there are.
    pub count: usize,
    /// The highest group, or 0.
    pub highest: Group,
}

impl fmt::Display for Ring {
    ghost use Rattle.std.specs.Prelude.{Some};
    ghost use Rattle.read_commands.specs.LabelTexts.{ring_text};

    ghost output = { λ r. Some (ring_text r.count r.highest.0) };

    fn fmt<W: fmt::Write>(&self, f: &mut fmt::Formatter<W>) -> fmt::Result {
        let count = self.count;
        if count == 0 {
            return write!(f, "0");
        }
        write!(f, "{count} highest {}", self.highest.0)
    }
}

/// The active uberblock.
#[derive(Clone, Copy)]
pub(crate) enum Active {
    /// There is none.
    Missing,
    /// That of this group, of which no label is known.
    Unplaced(Group),
    /// That of this group, and the lowest label that has it.
    Found(Group, usize),
}

impl fmt::Display for Active {
    ghost use Rattle.std.specs.Prelude.{Some};
    ghost use Rattle.read_commands.specs.LabelTexts.{active_text};

    ghost output = { λ a. Some (active_text a) };

    fn fmt<W: fmt::Write>(&self, f: &mut fmt::Formatter<W>) -> fmt::Result {
        match self {
            Active::Missing => write!(f, "none"),
            Active::Unplaced(group) => write!(f, "{}", group.0),
            Active::Found(group, label) => write!(f, "{} of label {label}", group.0),
        }
    }
}
