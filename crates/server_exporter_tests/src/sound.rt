//! Whether calls and messages may be given to a server and its store. Only what rows say is told as sound.
ghost use Rattle.std.specs.Prelude.{IsTrue, ◌+◌, ◌/◌, ◌<◌, ◌≤◌, ◌≡◌, IfSome};
ghost use Rattle.base_types.specs.declared.limits.TheConstants.{FILE_BYTES_MAX};
ghost use Rattle.message_types.specs.Soundness.{AreFileBytes, AreNamed, Each, Goes, HasMoves, HasRoom, IsBody, IsCall};
ghost use Rattle.message_types.specs.Soundness.{IsChange, IsClaim, IsDecided, IsFetch, IsFetched, IsGiveBack, IsHost};
ghost use Rattle.message_types.specs.Soundness.{IsServer, IsShort, IsToken, Numbers};
ghost use Rattle.message_types.specs.declared.message.Direction.TheVariants.{ToServer};
ghost use Rattle.token_types.specs.declared.token.Need.{Need as NeedOf};
ghost use Rattle.token_types.specs.declared.token.TokenId.{TokenId as TokenIdOf};
ghost use Rattle.store_acts.specs.Sound.{IsDecided as IsDone, IsFor as IsForStore};
ghost use Rattle.server_exporter.specs.Messages.{IsFor};

use base_types::{FILE_BYTES_MAX, Fid, FilesetId, GROUPS_MAX, HostId, OBJECTS_MAX, ServerId};
use message_types::{Body, Change, Direction, Fetch, Give, Message, Named, Reclaim};
use server_tables::Tables;
use token_types::{Kind, Need, Token, TokenId};
use tree_calls::{Call, Piece, Place, Roster};

fn is_server(roster: &Roster, server: ServerId) -> bool
    ensures { IsTrue result → IsServer roster.now server }
{
    1 <= server.0 && server.0 as usize <= roster.capacity.len()
}

pub fn is_host(roster: &Roster, host: HostId) -> bool
    ensures { IsTrue result → IsHost roster.now host }
{
    host.0 as usize <= roster.hosts.len()
}

fn is_place(roster: &Roster, place: &Place) -> bool
    ensures server { IsTrue result → IsServer roster.now place.now.server }
    ensures path { IsTrue result → IsShort place.now.path }
{
    place.path.len() <= 65_535 && is_server(roster, place.server)
}

/// Whether a call may be asked, and is decided by a server.
pub fn is_call(server: ServerId, roster: &Roster, call: &Call) -> bool
    ensures call { IsTrue result → IsCall roster.now call.now }
    ensures decided { IsTrue result → IsDecided server call.now }
{
    match call {
        Call::NewFileset {
            server: at,
            name: _,
            objects,
            owner,
        } => {
            *at == server
                && is_server(roster, *at)
                && 1 <= *objects
                && *objects <= OBJECTS_MAX
                && 1 <= owner.groups.len()
                && owner.groups.len() <= GROUPS_MAX
        }
        Call::Create { place } => is_place(roster, place),
        Call::MakeDir { place } => is_place(roster, place),
        Call::Lock { place, .. } => is_place(roster, place),
        _ => false,
    }
}

/// Whether a call is done by a server's store.
pub fn is_done(server: ServerId, call: &Call) -> bool
    ensures done { IsTrue result → IsDone call.now }
    ensures own { IsTrue result → IsForStore server call.now }
{
    match call {
        Call::NewFileset { server: at, .. } => *at == server,
        Call::Create { .. } | Call::MakeDir { .. } => true,
        _ => false,
    }
}

// Whether a fileset was made by a server.
fn is_home(server: ServerId, fileset: FilesetId) -> bool
    ensures { IsTrue result → fileset.0 / 65536 ≡ server.0 }
{
    fileset.0 / 65_536 == u32::from(server.0)
}

fn is_fetched(kind: Kind) -> bool
    ensures kind { IsTrue result → IsFetched kind }
    ensures room { IsTrue result → HasRoom kind }
{
    match kind {
        Kind::Bytes { span, .. } => span.from < span.to,
        Kind::Status { .. } => true,
        _ => false,
    }
}

// Whether there is at most one need, of a file.
fn are_needs(fid: Fid, needs: &[Need]) -> bool
    ensures file { IsTrue result → Each (λ (need : NeedOf). need.fid ≡ fid) needs.now }
    ensures kinds { IsTrue result → Each (λ (need : NeedOf). IsFetched need.kind) needs.now }
    ensures room { IsTrue result → Each (λ (need : NeedOf). HasRoom need.kind) needs.now }
    ensures count { IsTrue result → IsShort needs.now }
{
    match needs.split_first() {
        Some((need, rest)) => rest.is_empty() && need.fid == fid && is_fetched(need.kind),
        None => true,
    }
}

fn is_fetch(message: &Message, fetch: &Fetch) -> bool
    ensures { IsTrue result → IsFetch message.now fetch.now }
{
    1 <= fetch.number
        && is_home(message.server, fetch.fid.fileset)
        && are_needs(fetch.fid, fetch.needs.as_slice())
}

fn is_change(roster: &Roster, message: &Message, change: &Change) -> bool
    ensures { IsTrue result → IsChange roster.now message.now change.now }
{
    1 <= change.number
        && is_home(message.server, change.fileset)
        && is_call(message.server, roster, &change.call)
}

// Whether there is at most one piece, within a file.
fn are_file_bytes(pieces: &[Piece]) -> bool
    ensures { IsTrue result → AreFileBytes pieces.now }
{
    match pieces.split_first() {
        Some((piece, rest)) => {
            rest.is_empty()
                && piece.from <= FILE_BYTES_MAX
                && piece.bytes.len() <= (FILE_BYTES_MAX - piece.from) as usize
        }
        None => true,
    }
}

fn is_length(length: Option<u32>) -> bool
    ensures { IsTrue result → IfSome length (λ n. n ≤ FILE_BYTES_MAX) }
{
    match length {
        Some(length) => length <= FILE_BYTES_MAX,
        None => true,
    }
}

// Whether a give-back names at most one token, and ends no call.
fn is_give(roster: &Roster, message: &Message, give: &Give) -> bool
    ensures { IsTrue result → IsGiveBack roster.now message.now give.now }
{
    1 <= give.number
        && is_home(message.server, give.fid.fileset)
        && are_declared(roster, message.server, give.ids.as_slice())
        && give.ends.is_none()
        && are_file_bytes(give.pieces.as_slice())
        && is_length(give.length)
}

// Whether at most one token is named, of a server that is declared.
fn are_declared(roster: &Roster, server: ServerId, ids: &[TokenId]) -> bool
    ensures issued { IsTrue result → Each (λ (id : TokenIdOf). id.server ≡ server) ids.now }
    ensures declared { IsTrue result → Each (λ (id : TokenIdOf). IsServer roster.now id.server) ids.now }
{
    match ids.split_first() {
        Some((id, rest)) => rest.is_empty() && id.server == server && is_server(roster, id.server),
        None => true,
    }
}

// Whether at most one token is named, of a server.
fn are_issued(server: ServerId, ids: &[TokenId]) -> bool
    ensures { IsTrue result → Each (λ (id : TokenIdOf). id.server ≡ server) ids.now }
{
    match ids.split_first() {
        Some((id, rest)) => rest.is_empty() && id.server == server,
        None => true,
    }
}

fn are_named(message: &Message, named: &Named) -> bool
    ensures { IsTrue result → AreNamed message.now named.now.fid named.now.ids }
{
    is_home(message.server, named.fid.fileset) && are_issued(message.server, named.ids.as_slice())
}

// Whether a claim has at most one token, an earlier one on the fileset that it names.
fn is_claim(message: &Message, claim: &Reclaim) -> bool
    ensures { IsTrue result → IsClaim message.now claim.now }
{
    match claim.tokens.as_slice().split_first() {
        Some((token, rest)) => {
            rest.is_empty() && is_claimed(message, token) && names(claim, token.fid.fileset)
        }
        None => true,
    }
}

fn is_claimed(message: &Message, token: &Token) -> bool
    ensures own { IsTrue result → IsToken message.now token.now }
    ensures earlier { IsTrue result → token.now.id.epoch < message.now.epoch }
{
    token.host == message.host
        && token.id.server == message.server
        && token.id.epoch < message.epoch
        && is_fetched(token.kind)
}

// Whether the first number of a claim is of a fileset.
fn names(claim: &Reclaim, fileset: FilesetId) -> bool
    ensures { IsTrue result → Numbers claim.now.numbers fileset }
{
    match claim.numbers.as_slice().split_first() {
        Some((outstanding, _)) => outstanding.fileset == fileset,
        None => false,
    }
}

fn is_body(roster: &Roster, message: &Message) -> bool
    ensures way { IsTrue result → Goes message.now.body ToServer }
    ensures moves { IsTrue result → HasMoves message.now.body 0 }
    ensures body { IsTrue result → IsBody roster.now message.now message.now.body }
{
    match &message.body {
        Body::Hello | Body::Down | Body::Bye => true,
        Body::Fetch(fetch) => is_fetch(message, fetch),
        Body::Change(change) => is_change(roster, message, change),
        Body::Returned(named) | Body::Kept(named) => are_named(message, named),
        Body::GiveBack(give) => is_give(roster, message, give),
        Body::Reclaim(claim) => is_claim(message, claim),
        _ => false,
    }
}

/// Whether a message is a sound one that comes to the server of some tables.
pub fn is_for(tables: &Tables, message: &Message) -> bool
    ensures { IsTrue result → IsFor tables.now.server tables.now.roster message.now }
{
    matches!(message.direction, Direction::ToServer)
        && message.moves == 0
        && message.server == tables.server
        && is_server(&tables.roster, message.server)
        && is_host(&tables.roster, message.host)
        && is_body(&tables.roster, message)
}
