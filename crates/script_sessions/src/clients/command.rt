//! What callers rest on of the command `script`.

ghost use Rattle.std.specs.Prelude.{◌≡◌, ◌≢◌};

use crate::script::run_opened;
use command_arguments::{Options, ScriptArguments, ScriptDevice, Verbosity};
use file_devices::HeldFile;
use std::io::{self, ErrorKind, Read, Write};
use std::os::unix::fs::FileExt;
use std::rt::Files;
use std::sync::Wait;

const OPTIONS: Options = Options {
    verbosity: Verbosity::Quiet,
    wait: 0,
};

fn a_script_that_is_not_opened_has_status_3<
    H: Files + Wait + AllocGlobal,
    R: Read + Drop,
    W: Write + Drop,
    E: Write,
>(rt: &H, out: W, errors: &mut E) -> u8
where
    H::File: FileExt + HeldFile,
    ensures { result ≡ 3 }
{
    let arguments = ScriptArguments {
        device: ScriptDevice::Memory(8_388_608),
        script: "no/script",
        moment: 0,
        stops: false,
        syncs: false,
    };
    let opened: io::Result<R> = Err(io::Error::from(ErrorKind::NotFound));
    run_opened(rt, arguments, OPTIONS, opened, out, errors)
}

// Its refused lines are answers.
fn a_script_that_neither_stops_nor_syncs_has_no_status_1<
    H: Files + Wait + AllocGlobal,
    R: Read + Drop,
    W: Write + Drop,
    E: Write,
>(rt: &H, opened: io::Result<R>, out: W, errors: &mut E) -> u8
where
    H::File: FileExt + HeldFile,
    ensures { result ≢ 1 }
{
    let arguments = ScriptArguments {
        device: ScriptDevice::File("tank.pool"),
        script: "script",
        moment: 0,
        stops: false,
        syncs: false,
    };
    run_opened(rt, arguments, OPTIONS, opened, out, errors)
}
