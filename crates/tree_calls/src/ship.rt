use crate::call::Call;
use crate::part::{DirEntry, Piece, Status};
use base_types::{HostId, Items, Name, NoMemory, Plain};

/// What a server keeps of one host's numbered requests on a fileset. Each number is decided at most once.
#[derive(Clone, Copy, PartialEq)]
pub struct Record {
    /// The number of the last decided change, 0 for none.
    pub change: u64,
    /// The number of the last give-back that was applied, 0 for none.
    pub give: u64,
    /// The code of the last change's reply.
    pub code: u8,
    /// The rights that the reply says are missing, where it is a denial, else 0.
    pub right: u8,
}

/// Whose call a fileset moves for.
pub struct Mover {
    /// The host that called.
    pub host: HostId,
    /// The number of its request.
    pub number: u64,
    /// The number of the call among the host's calls, from 1.
    pub k: u32,
    /// The call itself.
    pub call: Call,
}

impl Drop for Mover {
    fn drop(self) {
        let Mover {
            host: _,
            number: _,
            k: _,
            call: _,
        } = self;
    }
}

/// A part of a fileset that moves between servers. Part 0 is the head; part `i` is the anode `i`.
pub enum ShipPart {
    /// What holds for the whole fileset.
    Head {
        /// The name of the fileset.
        name: Name,
        /// How many objects it may hold.
        objects: u32,
        /// What is kept of each host's requests, from the setup host on.
        records: Items<Record>,
        /// Whose call it moves for.
        mover: Mover,
    },
    /// One anode, also where it is free.
    Object {
        /// The anode's number, from 1.
        anode: u32,
        /// The unique number of the anode's present or last use.
        unique: u32,
        /// What is told of the object, where the anode is used.
        status: Option<Status>,
        /// The bytes of a file.
        pieces: Items<Piece>,
        /// The entries of a directory.
        entries: Items<DirEntry>,
    },
}

impl Drop for ShipPart {
    fn drop(self) {
        match self {
            ShipPart::Head {
                name: _,
                objects: _,
                records: _,
                mover: _,
            } => {}
            ShipPart::Object {
                anode: _,
                unique: _,
                status: _,
                pieces: _,
                entries: _,
            } => {}
        }
    }
}

impl Plain for Record {
    fn copy(&self) -> Result<Record, NoMemory> {
        Ok(*self)
    }
}

impl Plain for Mover {
    fn copy(&self) -> Result<Mover, NoMemory> {
        Ok(Mover {
            host: self.host,
            number: self.number,
            k: self.k,
            call: self.call.copy()?,
        })
    }
}

impl Plain for ShipPart {
    fn copy(&self) -> Result<ShipPart, NoMemory> {
        Ok(match self {
            ShipPart::Head {
                name,
                objects,
                records,
                mover,
            } => {
                let Ok(name) = name.copy() else {
                    return Err(NoMemory);
                };
                let Ok(records) = records.copy() else {
                    return Err(NoMemory);
                };
                let Ok(mover) = mover.copy() else {
                    return Err(NoMemory);
                };
                ShipPart::Head {
                    name,
                    objects: *objects,
                    records,
                    mover,
                }
            }
            ShipPart::Object {
                anode,
                unique,
                status,
                pieces,
                entries,
            } => {
                let Ok(status) = status.copy() else {
                    return Err(NoMemory);
                };
                let Ok(pieces) = pieces.copy() else {
                    return Err(NoMemory);
                };
                let Ok(entries) = entries.copy() else {
                    return Err(NoMemory);
                };
                ShipPart::Object {
                    anode: *anode,
                    unique: *unique,
                    status,
                    pieces,
                    entries,
                }
            }
        })
    }
}
