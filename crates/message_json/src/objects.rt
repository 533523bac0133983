//! What travels of objects.
ghost use Rattle.std.specs.Prelude.{◌≡◌, ◌++◌, OnOk};
ghost use Rattle.json.specs.Tree.{json_tokens};
ghost use Rattle.message_json.specs.Objects.{head_json, object_json};

use crate::line::{Line, ToJson};
use base_types::{Items, Name, NoMemory};
use tree_calls::{DirEntry, Mover, Piece, Record, ShipPart, Status};

impl ToJson for Piece {
    ghost use Rattle.message_json.specs.Objects.{piece_json};

    ghost json = { piece_json };

    #[tactic(auto, unfolding(crate::specs::Objects::piece_json))]
    fn put(&self, line: &mut Line) -> Result<(), NoMemory> {
        line.open()?;
        line.field("from", &self.from)?;
        line.field_bytes("bytes", self.bytes.as_slice())?;
        line.close()
    }
}

impl ToJson for DirEntry {
    ghost use Rattle.message_json.specs.Objects.{entry_json};

    ghost json = { entry_json };

    #[tactic(auto, unfolding(crate::specs::Objects::entry_json))]
    fn put(&self, line: &mut Line) -> Result<(), NoMemory> {
        line.open()?;
        line.field("name", &self.name)?;
        line.field("anode", &self.anode)?;
        line.field("unique", &self.unique)?;
        line.close()
    }
}

impl ToJson for Status {
    ghost use Rattle.message_json.specs.Objects.{status_json};

    ghost json = { status_json };

    #[tactic(auto, unfolding(crate::specs::Objects::status_json))]
    fn put(&self, line: &mut Line) -> Result<(), NoMemory> {
        line.open()?;
        line.field("dir", &self.dir)?;
        line.field("read_only", &self.read_only)?;
        line.field("length", &self.length)?;
        line.field("owner", &self.owner)?;
        line.field("group", &self.group)?;
        line.field("lists", &self.lists)?;
        line.close()
    }
}

impl ToJson for Record {
    ghost use Rattle.message_json.specs.Objects.{record_json};

    ghost json = { record_json };

    #[tactic(auto, unfolding(crate::specs::Objects::record_json))]
    fn put(&self, line: &mut Line) -> Result<(), NoMemory> {
        line.open()?;
        line.field("change", &self.change)?;
        line.field("give", &self.give)?;
        line.field("code", &u32::from(self.code))?;
        line.field("right", &u32::from(self.right))?;
        line.close()
    }
}

impl ToJson for Mover {
    ghost use Rattle.message_json.specs.Objects.{mover_json};

    ghost json = { mover_json };

    #[tactic(auto, unfolding(crate::specs::Objects::mover_json))]
    fn put(&self, line: &mut Line) -> Result<(), NoMemory> {
        line.open()?;
        line.field("host", &self.host)?;
        line.field("number", &self.number)?;
        line.field("k", &self.k)?;
        line.field("call", &self.call)?;
        line.close()
    }
}

impl ToJson for ShipPart {
    ghost use Rattle.message_json.specs.Objects.{part_json};

    ghost json = { part_json };

    #[tactic(auto, unfolding(crate::specs::Objects::part_json))]
    fn put(&self, line: &mut Line) -> Result<(), NoMemory> {
        match self {
            ShipPart::Head {
                name,
                objects,
                records,
                mover,
            } => put_head(line, name, *objects, records, mover),
            ShipPart::Object {
                anode,
                unique,
                status,
                pieces,
                entries,
            } => put_object(line, (*anode, *unique), status, pieces, entries),
        }
    }
}

// Adds what holds for a whole fileset.
#[tactic(auto, unfolding(crate::specs::Values::tagged))]
fn put_head(
    line: &mut Line,
    name: &Name,
    objects: u32,
    records: &Items<Record>,
    mover: &Mover,
) -> Result<(), NoMemory>
    ensures { OnOk result
        (line.new ≡ line.old ++ json_tokens (head_json name.now objects records.now mover.now)) }
{
    line.begin("head")?;
    line.field("name", name)?;
    line.field("objects", &objects)?;
    line.field("records", records)?;
    line.field("mover", mover)?;
    line.end()
}

// Adds an anode, of this number and this unique number.
#[tactic(auto, unfolding(crate::specs::Values::tagged))]
fn put_object(
    line: &mut Line,
    numbers: (u32, u32),
    status: &Option<Status>,
    pieces: &Items<Piece>,
    entries: &Items<DirEntry>,
) -> Result<(), NoMemory>
    ensures { OnOk result (line.new ≡ line.old
        ++ json_tokens (object_json numbers.0 numbers.1 status.now pieces.now entries.now)) }
{
    line.begin("object")?;
    line.field("anode", &numbers.0)?;
    line.field("unique", &numbers.1)?;
    line.field("status", status)?;
    line.field("pieces", pieces)?;
    line.field("entries", entries)?;
    line.end()
}
