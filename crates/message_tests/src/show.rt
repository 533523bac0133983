//! What a message says, as the table writes it.

use crate::show_call::{access, bytes, call, reply};
use crate::text::Text;
use base_types::{Fid, Items};
use message_types::{Body, Bring, Direction, DoneIs, Give, Message, Outstanding, Reclaimed};
use token_types::{Kind, Need, Token, TokenId};
use tree_calls::{DirEntry, Piece, Record, ShipPart, Status};

/// Writes what a message says.
pub fn show(message: &Message, out: &mut Text) {
    out.word(match message.direction {
        Direction::ToServer => "to server c",
        Direction::ToHost => "to host c",
        Direction::BetweenServers => "between servers c",
    });
    out.number("", message.host.0 as u64);
    out.number(" s", message.server.0 as u64);
    out.number(" epoch ", message.epoch);
    out.number(" moves ", message.moves as u64);
    body(&message.body, out);
}

fn body(body: &Body, out: &mut Text) {
    match body {
        Body::Hello => out.word(" hello"),
        Body::Restarted => out.word(" restarted"),
        Body::Down => out.word(" down"),
        Body::Bye => out.word(" bye"),
        Body::Fetch(fetch) => {
            out.number(" fetch ", fetch.number);
            fid(fetch.fid, out);
            for need in fetch.needs.as_slice() {
                show_need(need, out);
            }
        }
        Body::Change(change) => {
            out.number(" change ", change.number);
            out.number(" fileset ", change.fileset.0 as u64);
            fid(change.fid, out);
            out.flag(" enter ", change.enter);
            out.number(" k ", change.k as u64);
            out.word(" ");
            call(&change.call, out);
        }
        Body::GiveBack(give) => give_back(give, out),
        Body::Grant(_) | Body::Done(_) => answer(body, out),
        Body::Ship(_) | Body::Shipped(_) | Body::NotHere(_) => moving(body, out),
        _ => tokens_of(body, out),
    }
}

fn answer(body: &Body, out: &mut Text) {
    match body {
        Body::Grant(grant) => {
            out.word(" grant");
            bring(&grant.bring, out);
            told(&grant.status, &grant.pieces, &grant.entries, out);
        }
        Body::Done(done) => {
            out.number(" done fileset ", done.fileset.0 as u64);
            outcome(&done.outcome, out);
            bring(&done.bring, out);
        }
        _ => {}
    }
}

fn outcome(outcome: &DoneIs, out: &mut Text) {
    match outcome {
        DoneIs::Reply(said) => {
            out.word(" ");
            reply(said, out);
        }
        DoneIs::Known(fileset) => out.number(" known ", fileset.0 as u64),
        DoneIs::Granted => out.word(" granted"),
        DoneIs::Again => out.word(" again"),
        DoneIs::Elsewhere(server) => out.number(" elsewhere s", server.0 as u64),
    }
}

fn tokens_of(body: &Body, out: &mut Text) {
    match body {
        Body::Revoke(revoke) => {
            out.number(" revoke ", revoke.stamp);
            fid(revoke.fid, out);
            ids(&revoke.ids, out);
        }
        Body::Returned(named) => {
            out.word(" returned");
            fid(named.fid, out);
            ids(&named.ids, out);
        }
        Body::Kept(named) => {
            out.word(" kept");
            fid(named.fid, out);
            ids(&named.ids, out);
        }
        Body::Gone(gone) => {
            out.number(" gone ", gone.number);
            out.number(" fileset ", gone.fileset.0 as u64);
        }
        Body::Reclaim(claim) => {
            out.word(" reclaim");
            tokens(&claim.tokens, out);
            for numbers in claim.numbers.as_slice() {
                outstanding(numbers, out);
            }
        }
        Body::Reclaimed(said) => reclaimed(said, out),
        _ => {}
    }
}

fn give_back(give: &Give, out: &mut Text) {
    out.number(" give back ", give.number);
    fid(give.fid, out);
    ids(&give.ids, out);
    pieces(&give.pieces, out);
    if let Some(length) = give.length {
        out.number(" length ", length as u64);
    }
    if let Some(ends) = &give.ends {
        out.number(" ends ", ends.k as u64);
        out.word(" ");
        call(&ends.call, out);
    }
}

fn reclaimed(said: &Reclaimed, out: &mut Text) {
    out.word(" reclaimed");
    for applied in said.applied.as_slice() {
        out.number(" applied ", applied.number);
        out.number(" fileset ", applied.fileset.0 as u64);
    }
    ids(&said.left_out, out);
}

fn outstanding(numbers: &Outstanding, out: &mut Text) {
    out.number(" fileset ", numbers.fileset.0 as u64);
    out.number(" moves ", numbers.moves as u64);
    out.number(" give ", numbers.give);
    out.number(" change ", numbers.change);
}

fn moving(body: &Body, out: &mut Text) {
    match body {
        Body::NotHere(said) => {
            out.number(" not here fileset ", said.fileset.0 as u64);
            out.number(" to s", said.to.0 as u64);
        }
        Body::Ship(ship) => {
            out.number(" ship ", ship.ship);
            out.number(" to s", ship.to.0 as u64);
            out.number(" fileset ", ship.fileset.0 as u64);
            out.number(" at ", ship.at as u64);
            part(&ship.part, out);
        }
        Body::Shipped(shipped) => {
            out.number(" shipped ", shipped.ship);
            out.number(" to s", shipped.to.0 as u64);
            out.number(" at ", shipped.at as u64);
            out.word(" ");
            reply(&shipped.reply, out);
        }
        _ => {}
    }
}

fn part(part: &ShipPart, out: &mut Text) {
    match part {
        ShipPart::Head {
            name,
            objects,
            records,
            mover,
        } => {
            out.name(" head ", name);
            out.number(" objects ", *objects as u64);
            for record in records.as_slice() {
                show_record(record, out);
            }
            out.number(" mover c", mover.host.0 as u64);
            out.number(" ", mover.number);
            out.number(" k ", mover.k as u64);
            out.word(" ");
            call(&mover.call, out);
        }
        ShipPart::Object {
            anode,
            unique,
            status,
            pieces,
            entries,
        } => {
            out.number(" object ", *anode as u64);
            out.number(" unique ", *unique as u64);
            told(status, pieces, entries, out);
        }
    }
}

fn show_record(record: &Record, out: &mut Text) {
    out.number(" record ", record.change);
    out.number(" ", record.give);
    out.number(" ", record.code as u64);
    out.number(" ", record.right as u64);
}

fn fid(fid: Fid, out: &mut Text) {
    out.number(" ", fid.fileset.0 as u64);
    out.number("/", fid.anode as u64);
    out.number("/", fid.unique as u64);
}

fn show_need(need: &Need, out: &mut Text) {
    out.word(" need");
    fid(need.fid, out);
    kind(need.kind, out);
}

fn kind(kind: Kind, out: &mut Text) {
    match kind {
        Kind::Bytes { update, span } => {
            out.flag(" bytes update ", update);
            out.number(" ", span.from as u64);
            out.number("..", span.to as u64);
        }
        Kind::Status { update } => out.flag(" status update ", update),
        Kind::Lock { writing, span } => {
            out.flag(" lock writing ", writing);
            out.number(" ", span.from as u64);
            out.number("..", span.to as u64);
        }
        Kind::Opening(how) => out.variant(" opening ", &how),
    }
}

fn id(id: TokenId, out: &mut Text) {
    out.number(" s", id.server.0 as u64);
    out.number(".", id.epoch);
    out.number(".", id.seq);
}

fn ids(ids: &Items<TokenId>, out: &mut Text) {
    for one in ids.as_slice() {
        id(*one, out);
    }
}

fn tokens(tokens: &Items<Token>, out: &mut Text) {
    for token in tokens.as_slice() {
        out.word(" token");
        id(token.id, out);
        out.number(" c", token.host.0 as u64);
        fid(token.fid, out);
        kind(token.kind, out);
    }
}

fn bring(bring: &Bring, out: &mut Text) {
    out.number(" ", bring.number);
    out.number(" stamp ", bring.stamp);
    fid(bring.fid, out);
    tokens(&bring.tokens, out);
}

fn told(status: &Option<Status>, bytes: &Items<Piece>, entries: &Items<DirEntry>, out: &mut Text) {
    if let Some(status) = status {
        show_status(status, out);
    }
    pieces(bytes, out);
    for entry in entries.as_slice() {
        out.name(" entry ", &entry.name);
        out.number(" ", entry.anode as u64);
        out.number(" ", entry.unique as u64);
    }
}

fn show_status(status: &Status, out: &mut Text) {
    out.flag(" status dir ", status.dir);
    out.flag(" read_only ", status.read_only);
    out.number(" length ", status.length as u64);
    out.name(" ", &status.owner);
    out.name(" ", &status.group);
    for list in status.lists.as_slice() {
        access(list, out);
    }
}

fn pieces(pieces: &Items<Piece>, out: &mut Text) {
    for piece in pieces.as_slice() {
        out.number(" piece ", piece.from as u64);
        out.word(" ");
        bytes(&piece.bytes, out);
    }
}
