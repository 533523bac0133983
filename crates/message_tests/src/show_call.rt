//! Calls and replies, as the table writes them.

use crate::text::Text;
use base_types::{AccessEntry, AccessList, Items, Name, User, Who};
use tree_calls::{Call, Place, Refusal, Reply};

/// Writes bytes: few of them as text, and of more how many they are.
pub fn bytes(bytes: &Items<u8>, out: &mut Text) {
    let count = bytes.len();
    if count > 8 {
        out.number("", count as u64);
        out.word(" bytes");
    } else {
        out.bytes("<", bytes.as_slice());
        out.word(">");
    }
}

fn names(names: &Items<Name>, out: &mut Text) {
    for name in names.as_slice() {
        out.name("/", name);
    }
}

fn place(word: &str, place: &Place, out: &mut Text) {
    out.word(word);
    out.number("s", place.server.0 as u64);
    out.name(":", &place.fileset);
    names(&place.path, out);
}

fn user(user: &User, out: &mut Text) {
    out.name(" ", &user.name);
    names(&user.groups, out);
}

/// Writes an access list.
pub fn access(list: &AccessList, out: &mut Text) {
    out.word(" list");
    for entry in list.as_slice() {
        access_entry(entry, out);
    }
}

fn access_entry(entry: &AccessEntry, out: &mut Text) {
    match &entry.who {
        Who::UserObj => out.word(" user_obj"),
        Who::User(name) => out.name(" user ", name),
        Who::GroupObj => out.word(" group_obj"),
        Who::Group(name) => out.name(" group ", name),
        Who::OtherObj => out.word(" other_obj"),
        Who::MaskObj => out.word(" mask_obj"),
    }
    out.number(" ", entry.rights.bits() as u64);
}

/// Writes a reply.
pub fn reply(reply: &Reply, out: &mut Text) {
    match reply {
        Reply::Ok => out.word("ok"),
        Reply::Bytes(read) => {
            out.word("bytes ");
            bytes(read, out);
        }
        Reply::Names(listed) => {
            out.word("names ");
            names(listed, out);
        }
        Reply::Facts(facts) => {
            out.flag("facts dir ", facts.dir);
            out.number(" length ", facts.length as u64);
            out.number(" rights ", facts.rights.bits() as u64);
            out.name(" ", &facts.owner);
        }
        Reply::Access(list) => {
            out.word("access");
            access(list, out);
        }
        Reply::Refused(refusal) => refused(*refusal, out),
    }
}

fn refused(refusal: Refusal, out: &mut Text) {
    match refusal {
        Refusal::Denied(rights) => out.number("denied ", rights.bits() as u64),
        _ => out.variant("refused ", &refusal),
    }
}

/// Writes a call.
pub fn call(call: &Call, out: &mut Text) {
    match call {
        Call::NewFileset {
            server,
            name,
            objects,
            owner,
        } => {
            out.number("new_fileset s", server.0 as u64);
            out.number(" ", *objects as u64);
            out.name(" ", name);
            user(owner, out);
        }
        Call::CloneFileset {
            server,
            fileset,
            new,
        } => {
            out.number("clone_fileset s", server.0 as u64);
            out.name(" ", fileset);
            out.name(" ", new);
        }
        Call::MoveFileset {
            server,
            fileset,
            to,
        } => {
            out.number("move_fileset s", server.0 as u64);
            out.number(" to s", to.0 as u64);
            out.name(" ", fileset);
        }
        Call::Unlock { label } => out.name("unlock ", label),
        Call::CloseFile { label } => out.name("close_file ", label),
        _ => place_call(call, out),
    }
}

fn place_call(call: &Call, out: &mut Text) {
    match call {
        Call::Create { place: at } => place("create ", at, out),
        Call::MakeDir { place: at } => place("make_dir ", at, out),
        Call::Remove { place: at } => place("remove ", at, out),
        Call::Rename { from, to } => {
            place("rename ", from, out);
            place(" ", to, out);
        }
        Call::List { place: at } => place("list ", at, out),
        Call::Stat { place: at } => place("stat ", at, out),
        Call::Sync { place: at } => place("sync ", at, out),
        _ => file_call(call, out),
    }
}

fn file_call(call: &Call, out: &mut Text) {
    match call {
        Call::Read {
            place: at,
            from,
            len,
        } => {
            out.number("read ", *from as u64);
            out.number(" ", *len as u64);
            place(" ", at, out);
        }
        Call::Write {
            place: at,
            from,
            bytes: written,
        } => {
            out.number("write ", *from as u64);
            out.word(" ");
            bytes(written, out);
            place(" ", at, out);
        }
        Call::Truncate { place: at, length } => {
            out.number("truncate ", *length as u64);
            place(" ", at, out);
        }
        Call::SetAcl {
            place: at,
            which,
            list,
        } => {
            out.variant("set_acl ", which);
            place(" ", at, out);
            access(list, out);
        }
        Call::GetAcl { place: at, which } => {
            out.variant("get_acl ", which);
            place(" ", at, out);
        }
        _ => use_call(call, out),
    }
}

fn use_call(call: &Call, out: &mut Text) {
    match call {
        Call::Lock {
            label,
            place: at,
            writing,
            from,
            len,
        } => {
            out.flag("lock writing ", *writing);
            out.number(" ", *from as u64);
            out.number(" ", *len as u64);
            out.name(" ", label);
            place(" ", at, out);
        }
        Call::OpenFile {
            label,
            place: at,
            kind,
        } => {
            out.variant("open_file ", kind);
            out.name(" ", label);
            place(" ", at, out);
        }
        _ => {}
    }
}
