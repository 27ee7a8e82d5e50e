//! `Debug` of sessions: the type's name alone. Neither the device nor the pool is shown.

use crate::device_session::DeviceSession;
use crate::session::Session;
use std::fmt;

impl<'r, R, D, P> fmt::Debug for Session<'r, R, D, P> {
    fn fmt<W: fmt::Write>(&self, f: &mut fmt::Formatter<W>) -> fmt::Result {
        f.debug_struct("Session").finish_non_exhaustive()
    }
}

impl<'r, R, D, P> fmt::Debug for DeviceSession<'r, R, D, P> {
    fn fmt<W: fmt::Write>(&self, f: &mut fmt::Formatter<W>) -> fmt::Result {
        f.debug_struct("DeviceSession").finish_non_exhaustive()
    }
}
