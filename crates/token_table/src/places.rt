//! Where tokens stand, and which of them stay.
ghost use Rattle.std.specs.Prelude.{◌≡◌};
ghost use Rattle.token_table.specs.Places.{place_of};
ghost use Rattle.token_table.specs.Shelves.{keeps};

use base_types::{HostId, ServerId};
use token_types::{Token, TokenId};

/// Where a token stands: the sequence number of one that was granted in the present epoch, and 0 of each other one;
/// then the server, the epoch and the sequence number.
pub type Place = (u64, (u8, (u64, u64)));

/// Which tokens stay.
#[derive(Clone, Copy)]
pub enum Kept {
    /// Those of the hosts but for this one.
    OfOthers(HostId),
    /// Those up to this sequence number of the present epoch, and all of other epochs and servers.
    UpTo(u64),
}

/// Where the token with this number stands.
pub fn place_of(server: ServerId, epoch: u64, id: TokenId) -> Place
    ensures { result ≡ place_of server epoch id }
{
    let rank = if id.server == server && id.epoch == epoch {
        id.seq
    } else {
        0
    };
    (rank, (id.server.0, (id.epoch, id.seq)))
}

/// Whether a token stays.
pub fn keeps(server: ServerId, epoch: u64, kept: Kept, token: &Token) -> bool
    ensures { result ≡ keeps server epoch kept token.now }
{
    match kept {
        Kept::OfOthers(host) => token.host != host,
        Kept::UpTo(last) => place_of(server, epoch, token.id).0 <= last,
    }
}
