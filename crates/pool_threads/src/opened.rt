//! What the import of a pool found and did, as a pool tells it.
ghost use Rattle.std.specs.Prelude.{◌≡◌};
ghost use Rattle.pool_threads.specs.Handles.{opened_of};

use base::Group;
use mounted::Mounted;

/// What the import of a pool found and did (`Pool::opened`).
#[derive(Clone, Copy, Debug, PartialEq, Eq)]
pub struct Opened {
    /// The guid of the pool.
    pub guid: u64,
    /// The group that the import synced. The next one was open then.
    pub group: Group,
    /// How many imports the pool has had, this one included.
    pub import_number: u64,
    /// How many records of the log were replayed: transactions that were durable before their group was synced. It is 0
    /// after a pool was synced whole.
    pub records: u64,
}

impl Opened {
    /// What it was of an import.
    pub(crate) fn of(mounted: &Mounted) -> Opened
        ensures { result ≡ opened_of mounted.now }
    {
        Opened {
            guid: mounted.guid,
            group: mounted.group,
            import_number: mounted.import_number,
            records: mounted.records,
        }
    }
}
