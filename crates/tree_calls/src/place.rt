use base_types::{Items, Name, NoMemory, Plain, ServerId};

/// Which of the access lists of a directory. A file has only its own.
#[derive(Clone, Copy, Debug, PartialEq, Eq)]
pub enum Which {
    /// The object's own list.
    Own,
    /// The list of new files.
    Files,
    /// The list of new directories.
    Dirs,
}

/// Where an object is found: a fileset of a server, and the names from its root.
pub struct Place {
    /// The server that the fileset is at.
    pub server: ServerId,
    /// The name of the fileset.
    pub fileset: Name,
    /// The names from the fileset's root on; none for the root itself.
    pub path: Items<Name>,
}

impl Drop for Place {
    fn drop(self) {
        let Place {
            server: _,
            fileset: _,
            path: _,
        } = self;
    }
}

impl Plain for Place {
    fn copy(&self) -> Result<Place, NoMemory> {
        Ok(Place {
            server: self.server,
            fileset: self.fileset.copy()?,
            path: self.path.copy()?,
        })
    }
}
