use base_types::{Fid, FilesetId, HostId, Items, ServerId};
use store_state::HostState;
use tree_calls::{Call, Piece, Refusal, ShipPart};

/// One thing that a store does, whole or not at all.
#[derive(Drop)]
pub enum Act {
    /// A run begins: the epoch rises, and hosts, numbers of requests and the ships taken of earlier runs are forgotten.
    Boot,
    /// The server starts anew within a run: the epoch rises.
    Epoch,
    /// What is known of a host.
    Host {
        host: HostId,
        state: HostState,
    },
    /// A call of a host, decided on what is kept, under a number on the call's fileset; of the first eight of `Call`.
    Do {
        host: HostId,
        number: u64,
        call: Call,
    },
    /// A call of a host is refused, under a number on a fileset.
    Refuse {
        host: HostId,
        fileset: FilesetId,
        number: u64,
        refusal: Refusal,
    },
    /// A host gives back what it changed of a file, in bytes: a length where it has one, and pieces.
    Give {
        host: HostId,
        number: u64,
        fid: Fid,
        pieces: Items<Piece>,
        length: Option<u32>,
    },
    /// A writable fileset begins to leave for another server.
    Leave {
        fileset: FilesetId,
        to: ServerId,
    },
    /// The other server refuses a fileset that is leaving: it is writable again, and its mover's call is refused.
    Back {
        host: HostId,
        number: u64,
        fileset: FilesetId,
        refusal: Refusal,
    },
    /// A fileset that was leaving has arrived: its objects go, and a mark of where it went stays.
    Left {
        fileset: FilesetId,
    },
    /// An unfinished move is undone: a fileset that is leaving is writable again, and of one that is arriving the head
    /// alone is left.
    Settle {
        fileset: FilesetId,
    },
    /// A part of a fileset that comes from another server under a ship number of that server's, with so many moves.
    Part {
        from: ServerId,
        ship: u64,
        fileset: FilesetId,
        moves: u32,
        at: u32,
        part: ShipPart,
    },
}
