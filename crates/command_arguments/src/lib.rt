//! What the program's commands are asked to do: the arguments of each, and the options of all.
#![tactic(auto)]

mod arguments;
mod bench;
mod clients;
mod order;
mod reports;
mod sizes;

pub use arguments::{
    Arguments, BenchArguments, ChangeCommand, CheckArguments, CopyArguments, CreateArguments,
    GetArguments, GetNamedArguments, LoadArguments, Options, PutArguments, PutNamedArguments,
    ReadCommand, RemoveArguments, RemoveNamedArguments, ScriptArguments, ScriptDevice,
    ServeArguments, SizedArguments, Terminals, Verbosity,
};
pub use bench::{BenchOrder, MAX_BENCH_BYTES, MAX_BENCH_SECONDS, MAX_BENCH_WORKERS};
pub use order::{MAX_WORKERS, MAX_WRITES, Order, STREAMS};
pub use reports::{
    ListArguments, ListForm, ReportArguments, ReportForm, Scope, ShowArguments, ShowForm,
    SpaceArguments, SpaceUnit,
};
pub use sizes::size_of;
