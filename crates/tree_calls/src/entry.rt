use crate::call::Call;
use crate::reply::Reply;
use base_types::{Fid, FilesetId, HostId, Items, Name, NoMemory, Plain, ServerId, Span};

/// One entry of a history of the file tree.
pub enum Entry {
    /// The `k`-th call of a host, from 1, and the reply to it.
    Call {
        host: HostId,
        k: u32,
        call: Call,
        reply: Reply,
    },
    /// Unsaved bytes of a host became kept in these spans, and this length where there is one.
    Stored {
        host: HostId,
        fid: Fid,
        spans: Items<Span>,
        length: Option<u32>,
    },
    /// A server learnt that a host is down: what the host hadn't stored there is lost.
    Down {
        host: HostId,
        server: ServerId,
    },
    /// A server learnt that a fileset which moved has arrived: the room that it kept for it is free again.
    Left {
        server: ServerId,
        fileset: FilesetId,
    },
}

impl Drop for Entry {
    fn drop(self) {
        match self {
            Entry::Call {
                host: _,
                k: _,
                call: _,
                reply: _,
            } => {}
            Entry::Stored {
                host: _,
                fid: _,
                spans: _,
                length: _,
            } => {}
            Entry::Down { host: _, server: _ } => {}
            Entry::Left {
                server: _,
                fileset: _,
            } => {}
        }
    }
}

/// What a host that went down hadn't stored: bytes of a file, or its length.
#[derive(PartialEq)]
pub struct Loss {
    /// The host.
    pub host: HostId,
    /// The server that the file's fileset is at.
    pub server: ServerId,
    /// The name of the fileset, and the names from its root to the file.
    pub path: Items<Name>,
    /// The bytes that are lost, as many as stand together.
    pub span: Option<Span>,
    /// The length in bytes that is lost.
    pub length: Option<u32>,
}

impl Drop for Loss {
    fn drop(self) {
        let Loss {
            host: _,
            server: _,
            path: _,
            span: _,
            length: _,
        } = self;
    }
}

impl Plain for Loss {
    fn copy(&self) -> Result<Loss, NoMemory> {
        Ok(Loss {
            host: self.host,
            server: self.server,
            path: self.path.copy()?,
            span: self.span,
            length: self.length,
        })
    }
}
