//! The words that every layer of the file service shares: numbers of nodes, filesets and files, spans, names, users,
//! access lists with the rights that they give, the limits of the service, and what the service asks of the outside.
#![tactic(auto)]

mod access;
mod disk;
mod errors;
mod gate;
mod ids;
mod items;
mod limits;
mod name;
mod plain;
mod rights;
mod sink;
mod source;
mod span;
mod user;

pub use access::{AccessEntry, AccessList, ListRefused, Who};
pub use disk::Disk;
pub use errors::{CloseRefused, Failed, NoMemory};
pub use gate::Gate;
pub use ids::{Fid, FilesetId, HostId, Node, OpenKind, ServerId};
pub use items::Items;
pub use limits::{
    BATCH_ACTS_MAX, BLOCK_BYTES, CACHED_TOKENS_DEFAULT, CACHED_TOKENS_MAX, CACHED_TOKENS_MIN,
    CAPACITY_DEFAULT, CAPACITY_MAX, CAPACITY_MIN, DISK_END, FILE_BYTES_MAX, FILESET_NUMBER_MAX,
    FILESETS_MAX, GROUPS_MAX, HOSTS_MAX, LABELS_MAX, LINE_BYTES_MAX, LIST_ENTRIES_MAX,
    NAME_BYTES_MAX, NEEDS_MAX, NODE_STEPS_MAX, OBJECTS_MAX, PAGE_BYTES, SCRIPT_BYTES,
    SCRIPT_LINES_MAX, SERVERS_MAX, SPARE_BLOCKS, TOKEN_BYTES, TURN_STEPS_MAX, UNIQUE_MAX,
    WORKERS_MAX, WRITE_BYTES_MAX,
};
pub use name::{Name, NameRefused};
pub use plain::Plain;
pub use rights::{Rights, rights_of};
pub use sink::Sink;
pub use source::Source;
pub use span::Span;
pub use user::User;
