use base_types::{FilesetId, NoMemory, Plain, ServerId};
use tree_calls::{Reply, ShipPart};

/// A server says that a fileset isn't at it any more.
#[derive(Clone, Copy, PartialEq)]
pub struct NotHere {
    /// The fileset.
    pub fileset: FilesetId,
    /// The server to which it went.
    pub to: ServerId,
}

/// A part of a fileset that moves to another server.
pub struct Ship {
    /// The server to which the fileset moves.
    pub to: ServerId,
    /// The number of the shipment among those of the sender, from 1.
    pub ship: u64,
    /// The fileset.
    pub fileset: FilesetId,
    /// The number of the part: 0 for the head, else that of its anode.
    pub at: u32,
    /// The part itself.
    pub part: ShipPart,
}

impl Drop for Ship {
    fn drop(self) {
        let Ship {
            to: _,
            ship: _,
            fileset: _,
            at: _,
            part: _,
        } = self;
    }
}

/// A server has taken a part of a fileset, or has refused the head.
pub struct Shipped {
    /// The server that sends the fileset.
    pub to: ServerId,
    /// The number of the shipment among those of that server.
    pub ship: u64,
    /// The number of the part.
    pub at: u32,
    /// What became of the part.
    pub reply: Reply,
}

impl Drop for Shipped {
    fn drop(self) {
        let Shipped {
            to: _,
            ship: _,
            at: _,
            reply: _,
        } = self;
    }
}

impl Plain for NotHere {
    fn copy(&self) -> Result<NotHere, NoMemory> {
        Ok(*self)
    }
}

impl Plain for Ship {
    fn copy(&self) -> Result<Ship, NoMemory> {
        Ok(Ship {
            to: self.to,
            ship: self.ship,
            fileset: self.fileset,
            at: self.at,
            part: self.part.copy()?,
        })
    }
}

impl Plain for Shipped {
    fn copy(&self) -> Result<Shipped, NoMemory> {
        Ok(Shipped {
            to: self.to,
            ship: self.ship,
            at: self.at,
            reply: self.reply.copy()?,
        })
    }
}
