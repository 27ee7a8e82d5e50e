//! Scripts for a pool: a session that does what their lines ask for.
//!
//! `run_script` reads a script line by line, has each command done on a session that owns its pool, and prints the
//! answers; `run_script_on` has them done by whatever runs commands, as a session whose pool is under a lock
//! (`script_sessions`). The lines and the answers are those of `script_lines`.
#![tactic(auto)]

mod clients;
mod command_runner;
mod debug;
mod device_clients;
mod device_session;
mod imports;
mod mounted_pool;
mod own_clients;
mod own_pool;
mod place;
mod pool_commands;
mod script;
mod session;
mod stepped_pool;

pub use command_runner::CommandRunner;
pub use device_session::{DeviceSession, FileSession};
pub use imports::import_for_mount;
pub use mounted_pool::{FaultyPool, MountedPool};
pub use place::Place;
pub use pool_commands::run_pool_command;
pub use script::{AfterRefusal, run_script, run_script_on, run_script_with};
pub use script_lines::{Answer, Command, LineError, PoolCommand, parse_command};
pub use session::{BadCommand, OwnSession, Session, new_device};
pub use stepped_pool::SteppedPool;
