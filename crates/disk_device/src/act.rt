use base_types::Items;

/// What was done to a disk.
#[derive(Drop)]
pub enum Act {
    /// A piece was written.
    Wrote { at: u64, piece: Items<u8> },
    /// A piece of so many bytes was to be written, and the call failed: a crash may leave any bytes there.
    Tore { at: u64, len: usize },
    /// All that had been written was made durable.
    Synced,
}
