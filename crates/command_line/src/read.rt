//! What the words matched, read as the arguments of a command.

use crate::bad_words::{Named, object, size};
use crate::request::Defaults;
use clap::ArgMatches;
use command_arguments::{
    Arguments, BenchArguments, BenchOrder, ChangeCommand, CheckArguments, CopyArguments,
    CreateArguments, GetArguments, GetNamedArguments, ListArguments, ListForm, LoadArguments,
    Options, Order, PutArguments, PutNamedArguments, ReadCommand, RemoveArguments,
    RemoveNamedArguments, ReportArguments, ReportForm, Scope, ScriptArguments, ScriptDevice,
    ServeArguments, ShowArguments, ShowForm, SizedArguments, SpaceArguments, SpaceUnit, Verbosity,
};

/// The arguments of the command that was named. `None` if a pool's guid is lacking: the words are there that each command
/// needs.
pub(crate) fn read_command<'a>(
    matches: &ArgMatches<'a>,
    defaults: &Defaults,
) -> Option<Arguments<'a>> {
    let (name, given) = matches.subcommand()?;
    match name {
        "create" => read_create(given, defaults),
        "show" => read_show(given),
        "check" => read_check(given),
        "ls" => read_list(given),
        "df" => read_space(given),
        "get" => read_get(given),
        "put" => read_put(given, defaults),
        "rm" => read_remove(given, defaults),
        "copy" => read_copy(given, defaults),
        "labels" => read_labels(given),
        "load" => read_load(given),
        "serve" => read_serve(given, defaults),
        "bench" => read_bench(given),
        "script" => read_script(given),
        _ => None,
    }
}

/// What the command is given whichever it is.
pub(crate) fn read_options(matches: &ArgMatches<'_>) -> Options {
    let verbosity = if matches.get_flag("quiet") {
        Verbosity::Quiet
    } else {
        Verbosity::WithCause
    };
    Options {
        verbosity,
        wait: small_number(matches, "wait").unwrap_or(0),
    }
}

fn read_create<'a>(given: &ArgMatches<'a>, defaults: &Defaults) -> Option<Arguments<'a>> {
    let command = if given.contains_id("size") {
        ChangeCommand::CreateSized(read_sized(given, defaults)?)
    } else {
        ChangeCommand::Create(read_four_words(given)?)
    };
    Some(Arguments::Change(command))
}

fn read_four_words<'a>(given: &ArgMatches<'a>) -> Option<CreateArguments<'a>> {
    Some(CreateArguments {
        file: text(given, "FILE")?,
        name: text(given, "NAME")?,
        guid: number(given, "GUID")?,
        size: size(given, "SIZE")?,
        only_new: given.get_flag("new"),
        moment: number(given, "moment").unwrap_or(0),
    })
}

fn read_sized<'a>(given: &ArgMatches<'a>, defaults: &Defaults) -> Option<SizedArguments<'a>> {
    Some(SizedArguments {
        file: text(given, "FILE")?,
        name: text(given, "name"),
        guid: number(given, "guid").or(defaults.guid)?,
        size: size(given, "size")?,
        only_new: given.get_flag("new"),
        force: given.get_flag("force"),
        moment: moment_or_now(given, defaults),
    })
}

fn read_show<'a>(given: &ArgMatches<'a>) -> Option<Arguments<'a>> {
    let command = ReadCommand::Show(ShowArguments {
        file: text(given, "FILE")?,
        form: show_form(given),
    });
    Some(Arguments::Read(command))
}

// The two options aren't given together.
fn show_form(given: &ArgMatches<'_>) -> ShowForm {
    if given.get_flag("fast") {
        ShowForm::Fast
    } else if given.get_flag("json") {
        ShowForm::Json
    } else {
        ShowForm::Lines
    }
}

fn read_labels<'a>(given: &ArgMatches<'a>) -> Option<Arguments<'a>> {
    let command = ReadCommand::Labels(read_report(given)?);
    Some(Arguments::Read(command))
}

fn read_report<'a>(given: &ArgMatches<'a>) -> Option<ReportArguments<'a>> {
    Some(ReportArguments {
        file: text(given, "FILE")?,
        form: report_form(given),
    })
}

fn read_check<'a>(given: &ArgMatches<'a>) -> Option<Arguments<'a>> {
    let command = ReadCommand::Check(CheckArguments {
        file: text(given, "FILE")?,
        all: given.get_flag("all"),
        form: report_form(given),
    });
    Some(Arguments::Read(command))
}

fn report_form(given: &ArgMatches<'_>) -> ReportForm {
    if given.get_flag("json") {
        ReportForm::Json
    } else {
        ReportForm::Lines
    }
}

fn read_list<'a>(given: &ArgMatches<'a>) -> Option<Arguments<'a>> {
    let command = ReadCommand::List(ListArguments {
        file: text(given, "FILE")?,
        form: list_form(given),
        scope: read_scope(given),
    });
    Some(Arguments::Read(command))
}

// JSON has the blocks in any case.
fn list_form(given: &ArgMatches<'_>) -> ListForm {
    if given.get_flag("json") {
        ListForm::Json
    } else if given.get_flag("long") {
        ListForm::Long
    } else {
        ListForm::Short
    }
}

fn read_scope(given: &ArgMatches<'_>) -> Scope {
    if given.get_flag("whole") {
        Scope::Whole
    } else {
        Scope::Path
    }
}

fn read_space<'a>(given: &ArgMatches<'a>) -> Option<Arguments<'a>> {
    let unit = if given.get_flag("human-readable") {
        SpaceUnit::Powers
    } else {
        SpaceUnit::Bytes
    };
    let command = ReadCommand::Space(SpaceArguments {
        file: text(given, "FILE")?,
        unit,
    });
    Some(Arguments::Read(command))
}

fn read_get<'a>(given: &ArgMatches<'a>) -> Option<Arguments<'a>> {
    let file = text(given, "FILE")?;
    let offset = size(given, "offset")?;
    let length = size(given, "length");
    let scope = read_scope(given);
    let command = match object(given)? {
        Named::Number(object) => {
            let arguments = GetArguments {
                file,
                object,
                offset,
                length,
            };
            ReadCommand::Get(arguments, scope)
        }
        Named::Name(name) => {
            let arguments = GetNamedArguments {
                file,
                name,
                offset,
                length,
            };
            ReadCommand::GetNamed(arguments, scope)
        }
    };
    Some(Arguments::Read(command))
}

fn read_put<'a>(given: &ArgMatches<'a>, defaults: &Defaults) -> Option<Arguments<'a>> {
    let file = text(given, "FILE")?;
    let offset = size(given, "offset");
    let moment = moment_or_now(given, defaults);
    let command = match object(given)? {
        Named::Number(object) => ChangeCommand::Put(PutArguments {
            file,
            object,
            offset,
            moment,
        }),
        Named::Name(name) => ChangeCommand::PutNamed(PutNamedArguments {
            file,
            name,
            offset,
            moment,
        }),
    };
    Some(Arguments::Change(command))
}

fn read_remove<'a>(given: &ArgMatches<'a>, defaults: &Defaults) -> Option<Arguments<'a>> {
    let file = text(given, "FILE")?;
    let moment = moment_or_now(given, defaults);
    let command = match object(given)? {
        Named::Number(object) => ChangeCommand::Remove(RemoveArguments {
            file,
            object,
            moment,
        }),
        Named::Name(name) => ChangeCommand::RemoveNamed(RemoveNamedArguments {
            file,
            name,
            moment,
        }),
    };
    Some(Arguments::Change(command))
}

fn read_copy<'a>(given: &ArgMatches<'a>, defaults: &Defaults) -> Option<Arguments<'a>> {
    Some(Arguments::Copy(CopyArguments {
        old: text(given, "OLD")?,
        new: text(given, "NEW")?,
        size: size(given, "size"),
        guid: number(given, "guid").or(defaults.guid)?,
        skips_damaged: given.get_flag("skip-damaged"),
        moment: defaults.moment,
    }))
}

fn read_load<'a>(given: &ArgMatches<'a>) -> Option<Arguments<'a>> {
    Some(Arguments::Load(LoadArguments {
        file: text(given, "FILE")?,
        order: read_order(given)?,
        dirty_max: size(given, "dirty")?,
        cache_blocks: number(given, "cache")?,
        moment: number(given, "moment")?,
    }))
}

fn read_order(given: &ArgMatches<'_>) -> Option<Order> {
    Some(Order {
        workers: small_number(given, "workers")?,
        writes: small_number(given, "ops")?,
        seed: number(given, "seed")?,
    })
}

fn read_serve<'a>(given: &ArgMatches<'a>, defaults: &Defaults) -> Option<Arguments<'a>> {
    Some(Arguments::Serve(ServeArguments {
        file: text(given, "FILE")?,
        dirty_max: size(given, "dirty")?,
        cache_blocks: number(given, "cache")?,
        moment: moment_or_now(given, defaults),
    }))
}

fn read_bench<'a>(given: &ArgMatches<'a>) -> Option<Arguments<'a>> {
    Some(Arguments::Bench(BenchArguments {
        file: text(given, "FILE")?,
        size: size(given, "size")?,
        order: read_bench_order(given)?,
        dirty_max: size(given, "dirty")?,
    }))
}

fn read_bench_order(given: &ArgMatches<'_>) -> Option<BenchOrder> {
    Some(BenchOrder {
        workers: number(given, "workers")?,
        bytes: size(given, "bytes")?,
        seconds: number(given, "seconds")?,
        is_durable: given.get_flag("durable"),
    })
}

fn read_script<'a>(given: &ArgMatches<'a>) -> Option<Arguments<'a>> {
    Some(Arguments::Script(ScriptArguments {
        device: read_device(given)?,
        script: text(given, "SCRIPT")?,
        moment: number(given, "moment")?,
        stops: given.get_flag("stop"),
        syncs: given.get_flag("sync"),
    }))
}

fn read_device<'a>(given: &ArgMatches<'a>) -> Option<ScriptDevice<'a>> {
    match text(given, "file") {
        Some(file) => Some(ScriptDevice::File(file)),
        None => Some(ScriptDevice::Memory(size(given, "SIZE")?)),
    }
}

fn text<'a>(given: &ArgMatches<'a>, name: &str) -> Option<&'a str> {
    given.get_str(name)
}

fn number(given: &ArgMatches<'_>, name: &str) -> Option<u64> {
    given.get_one::<u64>(name)
}

// A number below 2^32.
fn small_number(given: &ArgMatches<'_>, name: &str) -> Option<u32> {
    given.get_one::<u32>(name)
}

fn moment_or_now(given: &ArgMatches<'_>, defaults: &Defaults) -> u64 {
    number(given, "moment").unwrap_or(defaults.moment)
}
