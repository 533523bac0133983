use crate::place::{Place, Which};
use base_types::{AccessList, Items, Name, NoMemory, OpenKind, Plain, ServerId, User};

/// What a host asks of the service. Positions and lengths are in bytes. The first eight and the last change names,
/// lists, lengths and filesets, and are always decided by a server.
pub enum Call {
    /// Makes a fileset of so many objects with an empty root, of an owner and the owner's first group.
    NewFileset {
        server: ServerId,
        name: Name,
        objects: u32,
        owner: User,
    },
    /// Makes an empty file.
    Create {
        place: Place,
    },
    /// Makes an empty directory.
    MakeDir {
        place: Place,
    },
    /// Removes a file, or an empty directory.
    Remove {
        place: Place,
    },
    /// Moves a file or directory, within one fileset.
    Rename {
        from: Place,
        to: Place,
    },
    /// Makes all unsaved changes of a file kept, and then sets its length in bytes.
    Truncate {
        place: Place,
        length: u32,
    },
    /// Replaces an access list.
    SetAcl {
        place: Place,
        which: Which,
        list: AccessList,
    },
    /// Makes a read-only copy of a fileset as it is now.
    CloneFileset {
        server: ServerId,
        fileset: Name,
        new: Name,
    },
    /// Reads at most `len` bytes of a file, from the position `from` on.
    Read {
        place: Place,
        from: u32,
        len: u32,
    },
    /// Writes bytes into a file, from the position `from` on.
    Write {
        place: Place,
        from: u32,
        bytes: Items<u8>,
    },
    /// Tells the names in a directory, in the order of their bytes.
    List {
        place: Place,
    },
    /// Tells the kind, length, owner and rights of an object.
    Stat {
        place: Place,
    },
    /// Tells an access list.
    GetAcl {
        place: Place,
        which: Which,
    },
    /// Makes the caller's unsaved changes of a file kept.
    Sync {
        place: Place,
    },
    /// Locks `len` bytes of a file from the position `from` on, under a label of the caller's.
    Lock {
        label: Name,
        place: Place,
        writing: bool,
        from: u32,
        len: u32,
    },
    /// Ends the lock with a label.
    Unlock {
        label: Name,
    },
    /// Opens a file, under a label of the caller's.
    OpenFile {
        label: Name,
        place: Place,
        kind: OpenKind,
    },
    /// Closes the open file with a label.
    CloseFile {
        label: Name,
    },
    /// Takes a fileset to another server, with all that it holds; unsaved changes become kept.
    MoveFileset {
        server: ServerId,
        fileset: Name,
        to: ServerId,
    },
}

impl Drop for Call {
    fn drop(self) {
        match self {
            Call::NewFileset {
                server: _,
                name: _,
                objects: _,
                owner: _,
            } => {}
            Call::Create { place: _ } => {}
            Call::MakeDir { place: _ } => {}
            Call::Remove { place: _ } => {}
            Call::Rename { from: _, to: _ } => {}
            Call::Truncate {
                place: _,
                length: _,
            } => {}
            Call::SetAcl {
                place: _,
                which: _,
                list: _,
            } => {}
            Call::CloneFileset {
                server: _,
                fileset: _,
                new: _,
            } => {}
            Call::Read {
                place: _,
                from: _,
                len: _,
            } => {}
            Call::Write {
                place: _,
                from: _,
                bytes: _,
            } => {}
            Call::List { place: _ } => {}
            Call::Stat { place: _ } => {}
            Call::GetAcl { place: _, which: _ } => {}
            Call::Sync { place: _ } => {}
            Call::Lock {
                label: _,
                place: _,
                writing: _,
                from: _,
                len: _,
            } => {}
            Call::Unlock { label: _ } => {}
            Call::OpenFile {
                label: _,
                place: _,
                kind: _,
            } => {}
            Call::CloseFile { label: _ } => {}
            Call::MoveFileset {
                server: _,
                fileset: _,
                to: _,
            } => {}
        }
    }
}

impl Plain for Call {
    fn copy(&self) -> Result<Call, NoMemory> {
        Ok(match self {
            Call::NewFileset {
                server,
                name,
                objects,
                owner,
            } => {
                let Ok(name) = name.copy() else {
                    return Err(NoMemory);
                };
                let Ok(owner) = owner.copy() else {
                    return Err(NoMemory);
                };
                Call::NewFileset {
                    server: *server,
                    name,
                    objects: *objects,
                    owner,
                }
            }
            Call::Create { place } => {
                let Ok(place) = place.copy() else {
                    return Err(NoMemory);
                };
                Call::Create { place }
            }
            Call::MakeDir { place } => {
                let Ok(place) = place.copy() else {
                    return Err(NoMemory);
                };
                Call::MakeDir { place }
            }
            Call::Remove { place } => {
                let Ok(place) = place.copy() else {
                    return Err(NoMemory);
                };
                Call::Remove { place }
            }
            Call::Rename { from, to } => {
                let Ok(from) = from.copy() else {
                    return Err(NoMemory);
                };
                let Ok(to) = to.copy() else {
                    return Err(NoMemory);
                };
                Call::Rename { from, to }
            }
            Call::Truncate { place, length } => {
                let Ok(place) = place.copy() else {
                    return Err(NoMemory);
                };
                Call::Truncate {
                    place,
                    length: *length,
                }
            }
            Call::SetAcl { place, which, list } => {
                let Ok(place) = place.copy() else {
                    return Err(NoMemory);
                };
                let Ok(list) = list.copy() else {
                    return Err(NoMemory);
                };
                Call::SetAcl {
                    place,
                    which: *which,
                    list,
                }
            }
            Call::CloneFileset {
                server,
                fileset,
                new,
            } => {
                let Ok(fileset) = fileset.copy() else {
                    return Err(NoMemory);
                };
                let Ok(new) = new.copy() else {
                    return Err(NoMemory);
                };
                Call::CloneFileset {
                    server: *server,
                    fileset,
                    new,
                }
            }
            Call::Read { place, from, len } => {
                let Ok(place) = place.copy() else {
                    return Err(NoMemory);
                };
                Call::Read {
                    place,
                    from: *from,
                    len: *len,
                }
            }
            Call::Write { place, from, bytes } => {
                let Ok(place) = place.copy() else {
                    return Err(NoMemory);
                };
                let Ok(bytes) = bytes.to_items() else {
                    return Err(NoMemory);
                };
                Call::Write {
                    place,
                    from: *from,
                    bytes,
                }
            }
            Call::List { place } => {
                let Ok(place) = place.copy() else {
                    return Err(NoMemory);
                };
                Call::List { place }
            }
            Call::Stat { place } => {
                let Ok(place) = place.copy() else {
                    return Err(NoMemory);
                };
                Call::Stat { place }
            }
            Call::GetAcl { place, which } => {
                let Ok(place) = place.copy() else {
                    return Err(NoMemory);
                };
                Call::GetAcl {
                    place,
                    which: *which,
                }
            }
            Call::Sync { place } => {
                let Ok(place) = place.copy() else {
                    return Err(NoMemory);
                };
                Call::Sync { place }
            }
            Call::Lock {
                label,
                place,
                writing,
                from,
                len,
            } => {
                let Ok(label) = label.copy() else {
                    return Err(NoMemory);
                };
                let Ok(place) = place.copy() else {
                    return Err(NoMemory);
                };
                Call::Lock {
                    label,
                    place,
                    writing: *writing,
                    from: *from,
                    len: *len,
                }
            }
            Call::Unlock { label } => {
                let Ok(label) = label.copy() else {
                    return Err(NoMemory);
                };
                Call::Unlock { label }
            }
            Call::OpenFile { label, place, kind } => {
                let Ok(label) = label.copy() else {
                    return Err(NoMemory);
                };
                let Ok(place) = place.copy() else {
                    return Err(NoMemory);
                };
                Call::OpenFile {
                    label,
                    place,
                    kind: *kind,
                }
            }
            Call::CloseFile { label } => {
                let Ok(label) = label.copy() else {
                    return Err(NoMemory);
                };
                Call::CloseFile { label }
            }
            Call::MoveFileset {
                server,
                fileset,
                to,
            } => {
                let Ok(fileset) = fileset.copy() else {
                    return Err(NoMemory);
                };
                Call::MoveFileset {
                    server: *server,
                    fileset,
                    to: *to,
                }
            }
        })
    }
}
