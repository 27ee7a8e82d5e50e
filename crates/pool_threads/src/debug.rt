//! `Debug` of a pool and its handles: the type's name alone. To show more, one would have to take the pool.

use crate::handle::{Handle, LastSeen};
use crate::owned::OwnedPool;
use crate::pool::Pool;
use device_model::SectorDevice;
use std::fmt;

impl<D: SectorDevice> fmt::Debug for Pool<D> {
    fn fmt<W: fmt::Write>(&self, f: &mut fmt::Formatter<W>) -> fmt::Result {
        f.debug_struct("Pool").finish_non_exhaustive()
    }
}

impl<'p, D: SectorDevice> fmt::Debug for Handle<'p, D> {
    fn fmt<W: fmt::Write>(&self, f: &mut fmt::Formatter<W>) -> fmt::Result {
        f.debug_struct("Handle").finish_non_exhaustive()
    }
}

impl<D: SectorDevice> fmt::Debug for LastSeen<D> {
    fn fmt<W: fmt::Write>(&self, f: &mut fmt::Formatter<W>) -> fmt::Result {
        f.debug_struct("LastSeen").finish_non_exhaustive()
    }
}

impl<D: SectorDevice> fmt::Debug for OwnedPool<D> {
    fn fmt<W: fmt::Write>(&self, f: &mut fmt::Formatter<W>) -> fmt::Result {
        f.debug_struct("OwnedPool").finish_non_exhaustive()
    }
}
