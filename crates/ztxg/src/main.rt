//! The command line of the pool's write engine. `ztxg create FILE --size SIZE` makes a pool in a file, whose objects
//! `ls`, `get`, `put` and `rm` list, read, write and remove. `show`, `check`, `df` and `labels` report on it, `load`
//! makes many writes on it, `serve` answers frames of requests to it, and `script` runs a script, on it or on a device
//! in memory. `copy` copies what can be read of a pool into a new one. `bench` times commits on a pool of its own.
#![tactic(auto)]

mod dispatch;

use command_arguments::Terminals;
use command_line::{Defaults, Request, read_request, read_words};
use dispatch::run;
use std::fs::File;
use std::io::IsTerminal;
use std::process::ExitCode;

/// A folder that each system has.
const FOLDER: &str = "/";

fn main(rt: HostRuntime) -> ExitCode {
    // A standard stream that is closed would give its number to the pool's file, and texts would go there. The folder
    // takes the number: it can be neither read nor written as a stream.
    let _streams = [
        File::open(&rt, FOLDER),
        File::open(&rt, FOLDER),
        File::open(&rt, FOLDER),
    ];
    let words = match read_words(&rt) {
        Ok(words) => words,
        Err(notice) => return ExitCode::from(notice.print(&rt)),
    };
    let defaults = Defaults::of_system(&rt);
    let status = match read_request(rt.alloc(), words.as_slice(), &defaults) {
        Ok(Request { arguments, options }) => {
            let terminals = find_terminals(&rt);
            run(&rt, arguments, options, terminals, &mut rt.stderr())
        }
        Err(notice) => notice.print(&rt),
    };
    ExitCode::from(status)
}

fn find_terminals(rt: &HostRuntime) -> Terminals {
    Terminals {
        input: rt.stdin().is_terminal(),
        output: rt.stdout().is_terminal(),
        errors: rt.stderr().is_terminal(),
    }
}
