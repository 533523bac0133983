//! The limits of the service, each once.

/// File servers of one service, at most: `s1` to `s4`.
pub const SERVERS_MAX: u8 = 4;

/// Client hosts beside the setup host, at most: `c1` to `c16`.
pub const HOSTS_MAX: u8 = 16;

/// Filesets of one server, at most.
pub const FILESETS_MAX: usize = 16;

/// Objects of one fileset, at most, its root counted.
pub const OBJECTS_MAX: u32 = 64;

/// The last number that a server gives to a fileset; the first is 1.
pub const FILESET_NUMBER_MAX: u32 = 65_535;

/// The last unique number of an anode.
pub const UNIQUE_MAX: u32 = 4_294_967_295;

/// Bytes of one file, at most; every span ends at or below it.
pub const FILE_BYTES_MAX: u32 = 65_536;

/// Bytes of a name, at most; a name has at least one.
pub const NAME_BYTES_MAX: usize = 60;

/// Entries of one access list, at most.
pub const LIST_ENTRIES_MAX: usize = 16;

/// Groups of one user, at most; a user has at least one.
pub const GROUPS_MAX: usize = 8;

/// Labels of locks in use at one host, at most, and as many labels of opens.
pub const LABELS_MAX: usize = 64;

/// Tokens that a host is allowed to cache: the least limit that can be chosen.
pub const CACHED_TOKENS_MIN: u32 = 4;

/// The greatest limit of cached tokens that can be chosen.
pub const CACHED_TOKENS_MAX: u32 = 256;

/// The limit of cached tokens of a host that chooses none.
pub const CACHED_TOKENS_DEFAULT: u32 = 64;

/// The spans of byte tokens are rounded outwards to multiples of so many bytes.
pub const TOKEN_BYTES: u32 = 1_024;

/// Bytes of one block of an aggregate.
pub const BLOCK_BYTES: u32 = 1_024;

/// Bytes of one page of an aggregate.
pub const PAGE_BYTES: u32 = 512;

/// Blocks that an aggregate offers to promises, at least.
pub const CAPACITY_MIN: u32 = 68;

/// Blocks that an aggregate offers to promises, at most.
pub const CAPACITY_MAX: u32 = 65_536;

/// Blocks that an aggregate offers to promises where nothing else is said.
pub const CAPACITY_DEFAULT: u32 = 16_384;

/// Blocks of an aggregate beyond its capacity, for the batch in work.
pub const SPARE_BLOCKS: u32 = 1_024;

/// Bytes of the greatest aggregate: no range of a disk ends behind them.
pub const DISK_END: u64 = 75_125_248;

/// Acts of one batch of a store, at most.
pub const BATCH_ACTS_MAX: usize = 8;

/// Lines of a script, at most.
pub const SCRIPT_LINES_MAX: usize = 10_000;

/// Bytes of one line of a script, at most, without its line feed.
pub const LINE_BYTES_MAX: usize = 8_192;

/// Bytes that are read of a script: one more than any script has.
pub const SCRIPT_BYTES: u64 = 81_930_001;

/// Bytes of the text of one write line, at most.
pub const WRITE_BYTES_MAX: usize = 1_024;

/// Workers that run nodes, at most.
pub const WORKERS_MAX: u32 = 16;

/// Needs of one want, at most.
pub const NEEDS_MAX: usize = 65_535;

/// Steps that a node makes in one turn, at most.
pub const TURN_STEPS_MAX: u64 = 65_536;

/// A node that has made so many steps makes no further one.
pub const NODE_STEPS_MAX: u64 = 1_099_511_627_776;
