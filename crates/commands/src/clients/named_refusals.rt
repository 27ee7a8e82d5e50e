//! What callers rely on of a put and a removal by name that did not end well.

ghost use Rattle.std.specs.Prelude.{◌≡◌};

use super::BRIEF;
use super::named_objects::{ALL_OF_A, OBJECT_A};
use crate::named_puts::run_put_named;
use crate::named_removals::run_remove_named;
use command_arguments::{PutNamedArguments, RemoveNamedArguments};
use device_model::SectorDevice;
use file_devices::FileRefusal;
use read_commands::NotesRefusals;
use std::io::{self, ErrorKind, Write};
use std::sync::Wait;

// Whatever the pool has, there is no name without bytes.
fn no_bytes_are_put_under_a_name_without_bytes<
    R: Wait + AllocGlobal,
    D: SectorDevice + NotesRefusals + Drop,
    W: Write,
    E: Write,
>(rt: &R, input: Vec<u8>, device: D, out: &mut W, errors: &mut E) -> u8
    ensures { result ≡ 1 }
{
    let arguments = PutNamedArguments {
        file: "tank.pool",
        name: "",
        offset: None,
        moment: 0,
    };
    run_put_named(rt, arguments, BRIEF, Ok(input), Ok(device), out, errors)
}

fn no_object_is_removed_by_a_name_without_bytes<
    R: Wait + AllocGlobal,
    D: SectorDevice + NotesRefusals + Drop,
    W: Write,
    E: Write,
>(rt: &R, device: D, out: &mut W, errors: &mut E) -> u8
    ensures { result ≡ 1 }
{
    let arguments = RemoveNamedArguments {
        file: "tank.pool",
        name: "",
        moment: 0,
    };
    run_remove_named(rt, arguments, BRIEF, Ok(device), out, errors)
}

fn an_input_that_is_not_read_is_put_under_a_name_with_status_3<
    R: Wait + AllocGlobal,
    D: SectorDevice + NotesRefusals + Drop,
    W: Write,
    E: Write,
>(rt: &R, opened: Result<D, FileRefusal>, out: &mut W, errors: &mut E) -> u8
    ensures { result ≡ 3 }
{
    let input = Err(io::Error::from(ErrorKind::NotFound));
    run_put_named(rt, ALL_OF_A, BRIEF, input, opened, out, errors)
}

fn a_name_in_a_pool_that_is_not_opened_is_removed_with_status_3<
    R: Wait + AllocGlobal,
    D: SectorDevice + NotesRefusals + Drop,
    W: Write,
    E: Write,
>(rt: &R, out: &mut W, errors: &mut E) -> u8
    ensures { result ≡ 3 }
{
    let opened: Result<D, FileRefusal> = Err(FileRefusal::InUse);
    run_remove_named(rt, OBJECT_A, BRIEF, opened, out, errors)
}
