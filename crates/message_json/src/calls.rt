//! Places, access lists, calls and replies.
ghost use Rattle.std.specs.Prelude.{◌≡◌, ◌++◌, OnOk};
ghost use Rattle.json.specs.Tree.{json_tokens};
ghost use Rattle.message_json.specs.Calls.{new_fileset_json, write_json, lock_json};
ghost use Rattle.message_json.specs.Values.{whole};

use crate::line::{Line, ToJson};
use base_types::{AccessEntry, AccessList, Name, NoMemory, Rights, ServerId, User, Who};
use tree_calls::{Call, Facts, Place, Refusal, Reply, Which};

impl ToJson for Rights {
    ghost json = { whole };

    fn put(&self, line: &mut Line) -> Result<(), NoMemory> {
        line.number(self.bits() as u64)
    }
}

impl ToJson for User {
    ghost use Rattle.message_json.specs.Calls.{user_json};

    ghost json = { user_json };

    #[tactic(auto, unfolding(crate::specs::Calls::user_json))]
    fn put(&self, line: &mut Line) -> Result<(), NoMemory> {
        line.open()?;
        line.field("name", &self.name)?;
        line.field("groups", &self.groups)?;
        line.close()
    }
}

impl ToJson for Who {
    ghost use Rattle.message_json.specs.Calls.{who_json};

    ghost json = { who_json };

    #[tactic(auto, unfolding(crate::specs::Calls::who_json))]
    fn put(&self, line: &mut Line) -> Result<(), NoMemory> {
        match self {
            Who::UserObj => line.word("user_obj"),
            Who::User(name) => line.tagged("user", name),
            Who::GroupObj => line.word("group_obj"),
            Who::Group(name) => line.tagged("group", name),
            Who::OtherObj => line.word("other_obj"),
            Who::MaskObj => line.word("mask_obj"),
        }
    }
}

impl ToJson for AccessEntry {
    ghost use Rattle.message_json.specs.Calls.{access_entry_json};

    ghost json = { access_entry_json };

    #[tactic(auto, unfolding(crate::specs::Calls::access_entry_json))]
    fn put(&self, line: &mut Line) -> Result<(), NoMemory> {
        line.open()?;
        line.field("who", &self.who)?;
        line.field("rights", &self.rights)?;
        line.close()
    }
}

impl ToJson for AccessList {
    ghost use Rattle.message_json.specs.Calls.{access_json};

    ghost json = { access_json };

    fn put(&self, line: &mut Line) -> Result<(), NoMemory> {
        line.list(self.as_slice())
    }
}

impl ToJson for Place {
    ghost use Rattle.message_json.specs.Calls.{place_json};

    ghost json = { place_json };

    #[tactic(auto, unfolding(crate::specs::Calls::place_json))]
    fn put(&self, line: &mut Line) -> Result<(), NoMemory> {
        line.open()?;
        line.field("server", &self.server)?;
        line.field("fileset", &self.fileset)?;
        line.field("path", &self.path)?;
        line.close()
    }
}

impl ToJson for Which {
    ghost use Rattle.message_json.specs.Calls.{which_json};

    ghost json = { which_json };

    #[tactic(auto, unfolding(crate::specs::Calls::which_json))]
    fn put(&self, line: &mut Line) -> Result<(), NoMemory> {
        match self {
            Which::Own => line.word("own"),
            Which::Files => line.word("files"),
            Which::Dirs => line.word("dirs"),
        }
    }
}

impl ToJson for Call {
    ghost use Rattle.message_json.specs.Calls.{call_json};

    ghost json = { call_json };

    #[tactic(auto, unfolding(crate::specs::Calls::call_json))]
    fn put(&self, line: &mut Line) -> Result<(), NoMemory> {
        match self {
            Call::NewFileset {
                server,
                name,
                objects,
                owner,
            } => put_new_fileset(line, *server, name, *objects, owner),
            Call::Create { place } => line.one("create", ("place", place)),
            Call::MakeDir { place } => line.one("make_dir", ("place", place)),
            Call::Remove { place } => line.one("remove", ("place", place)),
            Call::Rename { from, to } => line.two("rename", ("from", from), ("to", to)),
            Call::Truncate { place, length } => line.two(
                "truncate",
                ("place", place),
                ("length", length),
            ),
            Call::SetAcl { place, which, list } => line.three(
                "set_acl",
                ("place", place),
                ("which", which),
                ("list", list),
            ),
            Call::CloneFileset {
                server,
                fileset,
                new,
            } => line.three(
                "clone_fileset",
                ("server", server),
                ("fileset", fileset),
                ("new", new),
            ),
            Call::Read { place, from, len } => line.three(
                "read",
                ("place", place),
                ("from", from),
                ("len", len),
            ),
            Call::Write { place, from, bytes } => put_write(line, place, *from, bytes.as_slice()),
            Call::List { place } => line.one("list", ("place", place)),
            Call::Stat { place } => line.one("stat", ("place", place)),
            Call::GetAcl { place, which } => line.two(
                "get_acl",
                ("place", place),
                ("which", which),
            ),
            Call::Sync { place } => line.one("sync", ("place", place)),
            Call::Lock {
                label,
                place,
                writing,
                from,
                len,
            } => put_lock(line, label, place, *writing, (*from, *len)),
            Call::Unlock { label } => line.one("unlock", ("label", label)),
            Call::OpenFile { label, place, kind } => line.three(
                "open_file",
                ("label", label),
                ("place", place),
                ("kind", kind),
            ),
            Call::CloseFile { label } => line.one("close_file", ("label", label)),
            Call::MoveFileset {
                server,
                fileset,
                to,
            } => line.three(
                "move_fileset",
                ("server", server),
                ("fileset", fileset),
                ("to", to),
            ),
        }
    }
}

// Adds a call for a new fileset.
#[tactic(auto, unfolding(crate::specs::Values::tagged))]
fn put_new_fileset(
    line: &mut Line,
    server: ServerId,
    name: &Name,
    objects: u32,
    owner: &User,
) -> Result<(), NoMemory>
    ensures { OnOk result
        (line.new ≡ line.old ++ json_tokens (new_fileset_json server.0 name.now objects owner.now)) }
{
    line.begin("new_fileset")?;
    line.field("server", &server)?;
    line.field("name", name)?;
    line.field("objects", &objects)?;
    line.field("owner", owner)?;
    line.end()
}

// Adds a call that writes.
#[tactic(auto, unfolding(crate::specs::Values::tagged))]
fn put_write(line: &mut Line, place: &Place, from: u32, bytes: &[u8]) -> Result<(), NoMemory>
    ensures { OnOk result (line.new ≡ line.old ++ json_tokens (write_json place.now from bytes.now)) }
{
    line.begin("write")?;
    line.field("place", place)?;
    line.field("from", &from)?;
    line.field_bytes("bytes", bytes)?;
    line.end()
}

// Adds a call that locks.
#[tactic(auto, unfolding(crate::specs::Values::tagged))]
fn put_lock(
    line: &mut Line,
    label: &Name,
    place: &Place,
    writing: bool,
    span: (u32, u32),
) -> Result<(), NoMemory>
    ensures { OnOk result
        (line.new ≡ line.old ++ json_tokens (lock_json label.now place.now writing span.0 span.1)) }
{
    line.begin("lock")?;
    line.field("label", label)?;
    line.field("place", place)?;
    line.field("writing", &writing)?;
    line.field("from", &span.0)?;
    line.field("len", &span.1)?;
    line.end()
}

impl ToJson for Refusal {
    ghost use Rattle.message_json.specs.Calls.{refusal_json};

    ghost json = { refusal_json };

    #[tactic(auto, unfolding(crate::specs::Calls::refusal_json))]
    fn put(&self, line: &mut Line) -> Result<(), NoMemory> {
        match self {
            Refusal::NoEntry => line.word("no-entry"),
            Refusal::NotDir => line.word("not-dir"),
            Refusal::IsDir => line.word("is-dir"),
            Refusal::Exists => line.word("exists"),
            Refusal::NotEmpty => line.word("not-empty"),
            Refusal::Denied(rights) => line.tagged("denied", rights),
            Refusal::TooBig => line.word("too-big"),
            Refusal::TooMany => line.word("too-many"),
            Refusal::NoRoom => line.word("no-room"),
            Refusal::ReadOnly => line.word("read-only"),
            Refusal::Locked => line.word("locked"),
            Refusal::OpenConflict => line.word("open-conflict"),
            Refusal::InUse => line.word("in-use"),
            Refusal::Loop => line.word("loop"),
            Refusal::NoFileset => line.word("no-fileset"),
            Refusal::CrossFileset => line.word("cross-fileset"),
            Refusal::NotLocked => line.word("not-locked"),
            Refusal::NotOpened => line.word("not-opened"),
            Refusal::AlreadyLocked => line.word("already-locked"),
            Refusal::AlreadyOpened => line.word("already-opened"),
            Refusal::NotHome => line.word("not-home"),
        }
    }
}

impl ToJson for Facts {
    ghost use Rattle.message_json.specs.Calls.{facts_json};

    ghost json = { facts_json };

    #[tactic(auto, unfolding(crate::specs::Calls::facts_json))]
    fn put(&self, line: &mut Line) -> Result<(), NoMemory> {
        line.open()?;
        line.field("dir", &self.dir)?;
        line.field("length", &self.length)?;
        line.field("owner", &self.owner)?;
        line.field("rights", &self.rights)?;
        line.close()
    }
}

impl ToJson for Reply {
    ghost use Rattle.message_json.specs.Calls.{reply_json};

    ghost json = { reply_json };

    #[tactic(auto, unfolding(crate::specs::Calls::reply_json))]
    fn put(&self, line: &mut Line) -> Result<(), NoMemory> {
        match self {
            Reply::Ok => line.word("ok"),
            Reply::Bytes(bytes) => line.tagged_bytes("bytes", bytes.as_slice()),
            Reply::Names(names) => line.tagged("names", names),
            Reply::Facts(facts) => line.tagged("facts", facts),
            Reply::Access(list) => line.tagged("access", list),
            Reply::Refused(refusal) => line.tagged("refused", refusal),
        }
    }
}
