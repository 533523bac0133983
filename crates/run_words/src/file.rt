//! Files, by their numbers.

use crate::members::number_at;
use serde_json::Value;

/// A file, a directory, or none, by its numbers.
#[derive(Clone, Copy, PartialEq, Eq)]
pub struct FileId {
    /// The fileset's.
    pub fileset: u64,
    /// The anode's.
    pub anode: u64,
    /// The how-manieth object of the anode it is.
    pub unique: u64,
}

/// A file, from its three members.
pub fn file_of(value: &Value) -> Option<FileId> {
    Some(FileId {
        fileset: number_at(value, "fileset")?,
        anode: number_at(value, "anode")?,
        unique: number_at(value, "unique")?,
    })
}

/// The file that a message is about, from what its body holds: none where it is about none, or about more than one.
pub fn message_file(holds: &Value) -> Option<FileId> {
    let value = match holds.get("fid") {
        Some(file) => file,
        None => holds.get("bring")?.get("fid")?,
    };
    let file = file_of(value)?;
    if file.fileset == 0 {
        return None;
    }
    Some(file)
}
