//! Times commits on a pool: threads commit writes beside the loops that sync groups, and note how long each call took.
//!
//! 1. Worker j, of owner j, writes object j, which is made and synced before the time begins.
//! 2. It commits one write after another, each in one turn of the pool's lock (`transact` or `transact_durably` of a
//!    handle). A call's time goes from before that to after it.
//! 3. No worker begins a further call once the seconds are over, or a call of any worker was refused.
//! 4. The times of the calls are counted by slots (`slots.rt`): 8 KB for each worker, however many calls there are.
//! 5. The device counts its flushes (`counted_device.rt`).
//!
//! `measure` works on any device. The command `bench` of `ztxg` ([`run_bench`]) runs it on a pool of its own in a new file.
#![tactic(auto)]

mod bad_bench;
mod bench;
mod call_times;
mod clients;
mod counted_device;
mod lines;
mod measured;
mod new_pool;
mod slots;
mod told_times;
mod workers;
mod writer;

pub use bench::run_bench;
pub use call_times::CallTimes;
pub use command_arguments::BenchOrder;
pub use counted_device::{CountedDevice, FlushCounter};
pub use measured::{BenchError, Measured};
pub use told_times::TimesView;
pub use workers::measure;
