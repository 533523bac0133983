use crate::ids::HostId;

/// What a host waits at before each line of its own that is a call. It says nothing of what it does; tests use it.
pub trait Gate {
    /// Comes before the host's line with this number.
    fn before(&self, host: HostId, line: u32);
}
