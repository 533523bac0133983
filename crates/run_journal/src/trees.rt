//! File trees.
ghost use Rattle.std.specs.Prelude.{◌≡◌, ◌++◌, OnOk};
ghost use Rattle.json.specs.Tree.{json_tokens};
ghost use Rattle.run_journal.specs.Trees.{file_json};
ghost use Rattle.message_json.specs.Values.{list};

use crate::line::{ToLine, put_field, put_list};
use base_types::{AccessList, Items, NoMemory};
use message_json::Line;
use tree_answers::{Away, LockUse, OpenUse, ServerRoom, Tree};
use tree_calls::{HostLine, Roster};
use tree_filesets::Fileset;
use tree_objects::{Anode, Content, Object, Unsaved, UnsavedBytes, UnsavedLength};

impl ToLine for HostLine {
    ghost use Rattle.run_journal.specs.Trees.{host_line_json};

    ghost json = { host_line_json };

    #[tactic(auto, unfolding(crate::specs::Trees::host_line_json))]
    fn put(&self, line: &mut Line) -> Result<(), NoMemory> {
        line.open()?;
        line.field("user", &self.user)?;
        line.field("limit", &self.limit)?;
        line.close()
    }
}

impl ToLine for Roster {
    ghost use Rattle.run_journal.specs.Trees.{roster_json};

    ghost json = { roster_json };

    #[tactic(auto, unfolding(crate::specs::Trees::roster_json))]
    fn put(&self, line: &mut Line) -> Result<(), NoMemory> {
        line.open()?;
        line.field("users", &self.users)?;
        put_field(line, "hosts", &self.hosts)?;
        line.field("capacity", &self.capacity)?;
        line.close()
    }
}

impl ToLine for Unsaved {
    ghost use Rattle.run_journal.specs.Trees.{unsaved_json};

    ghost json = { unsaved_json };

    #[tactic(auto, unfolding(crate::specs::Trees::unsaved_json))]
    fn put(&self, line: &mut Line) -> Result<(), NoMemory> {
        line.open()?;
        line.field("at", &self.at)?;
        line.field("value", &u32::from(self.value))?;
        line.field("writer", &self.writer)?;
        line.close()
    }
}

impl ToLine for UnsavedBytes {
    ghost use Rattle.run_journal.specs.Trees.{unsaved_json};

    ghost json = { list unsaved_json };

    fn put(&self, line: &mut Line) -> Result<(), NoMemory> {
        let bytes = self.to_items()?;
        put_list(line, bytes.as_slice())
    }
}

impl ToLine for UnsavedLength {
    ghost use Rattle.run_journal.specs.Trees.{unsaved_length_json};

    ghost json = { unsaved_length_json };

    #[tactic(auto, unfolding(crate::specs::Trees::unsaved_length_json))]
    fn put(&self, line: &mut Line) -> Result<(), NoMemory> {
        line.open()?;
        line.field("length", &self.length)?;
        line.field("writer", &self.writer)?;
        line.close()
    }
}

impl ToLine for Content {
    ghost use Rattle.run_journal.specs.Trees.{content_json};

    ghost json = { content_json };

    #[tactic(auto, unfolding(crate::specs::Trees::content_json))]
    fn put(&self, line: &mut Line) -> Result<(), NoMemory> {
        match self {
            Content::Dir { entries, lists } => {
                line.two("dir", ("entries", entries), ("lists", lists))
            }
            Content::File {
                list,
                kept,
                unsaved,
                length,
            } => put_file(line, list, kept, unsaved, length),
        }
    }
}

// Adds what a file contains.
#[tactic(auto, unfolding(message_json::specs::Values::tagged))]
fn put_file(
    line: &mut Line,
    list: &AccessList,
    kept: &Items<u8>,
    unsaved: &UnsavedBytes,
    length: &Option<UnsavedLength>,
) -> Result<(), NoMemory>
    ensures { OnOk result
        (line.new ≡ line.old ++ json_tokens (file_json list.now kept.now unsaved.now length.now)) }
{
    line.begin("file")?;
    line.field("list", list)?;
    line.field_bytes("kept", kept.as_slice())?;
    put_field(line, "unsaved", unsaved)?;
    put_field(line, "length", length)?;
    line.end()
}

impl ToLine for Object {
    ghost use Rattle.run_journal.specs.Trees.{object_json};

    ghost json = { object_json };

    #[tactic(auto, unfolding(crate::specs::Trees::object_json))]
    fn put(&self, line: &mut Line) -> Result<(), NoMemory> {
        line.open()?;
        line.field("owner", &self.owner)?;
        line.field("group", &self.group)?;
        put_field(line, "content", &self.content)?;
        line.close()
    }
}

impl ToLine for Anode {
    ghost use Rattle.run_journal.specs.Trees.{anode_json};

    ghost json = { anode_json };

    #[tactic(auto, unfolding(crate::specs::Trees::anode_json))]
    fn put(&self, line: &mut Line) -> Result<(), NoMemory> {
        line.open()?;
        line.field("unique", &self.unique)?;
        put_field(line, "object", &self.object)?;
        line.close()
    }
}

impl ToLine for Fileset {
    ghost use Rattle.run_journal.specs.Trees.{fileset_json};

    ghost json = { fileset_json };

    #[tactic(auto, unfolding(crate::specs::Trees::fileset_json))]
    fn put(&self, line: &mut Line) -> Result<(), NoMemory> {
        line.open()?;
        line.field("server", &self.server)?;
        line.field("id", &self.id)?;
        line.field("name", &self.name)?;
        line.field("read_only", &self.read_only)?;
        line.field("objects", &self.objects)?;
        line.field("moves", &self.moves)?;
        put_field(line, "anodes", &self.anodes)?;
        line.close()
    }
}

impl ToLine for ServerRoom {
    ghost use Rattle.run_journal.specs.Trees.{room_json};

    ghost json = { room_json };

    #[tactic(auto, unfolding(crate::specs::Trees::room_json))]
    fn put(&self, line: &mut Line) -> Result<(), NoMemory> {
        line.open()?;
        line.field("capacity", &self.capacity)?;
        line.field("next", &self.next)?;
        line.close()
    }
}

impl ToLine for LockUse {
    ghost use Rattle.run_journal.specs.Trees.{lock_json};

    ghost json = { lock_json };

    #[tactic(auto, unfolding(crate::specs::Trees::lock_json))]
    fn put(&self, line: &mut Line) -> Result<(), NoMemory> {
        line.open()?;
        line.field("host", &self.host)?;
        line.field("label", &self.label)?;
        line.field("fid", &self.fid)?;
        line.field("writing", &self.writing)?;
        line.field("span", &self.span)?;
        line.close()
    }
}

impl ToLine for OpenUse {
    ghost use Rattle.run_journal.specs.Trees.{open_use_json};

    ghost json = { open_use_json };

    #[tactic(auto, unfolding(crate::specs::Trees::open_use_json))]
    fn put(&self, line: &mut Line) -> Result<(), NoMemory> {
        line.open()?;
        line.field("host", &self.host)?;
        line.field("label", &self.label)?;
        line.field("fid", &self.fid)?;
        line.field("kind", &self.kind)?;
        line.close()
    }
}

impl ToLine for Away {
    ghost use Rattle.run_journal.specs.Trees.{away_json};

    ghost json = { away_json };

    #[tactic(auto, unfolding(crate::specs::Trees::away_json))]
    fn put(&self, line: &mut Line) -> Result<(), NoMemory> {
        line.open()?;
        line.field("server", &self.server)?;
        line.field("fileset", &self.fileset)?;
        line.field("name", &self.name)?;
        line.field("to", &self.to)?;
        line.field("room_kept", &self.room_kept)?;
        line.close()
    }
}

impl ToLine for Tree {
    ghost use Rattle.run_journal.specs.Trees.{tree_json};

    ghost json = { tree_json };

    #[tactic(auto, unfolding(crate::specs::Trees::tree_json))]
    fn put(&self, line: &mut Line) -> Result<(), NoMemory> {
        line.open()?;
        put_field(line, "roster", &self.roster)?;
        put_field(line, "servers", &self.servers)?;
        put_field(line, "filesets", &self.filesets)?;
        put_field(line, "away", &self.away)?;
        put_field(line, "locks", &self.locks)?;
        put_field(line, "opens", &self.opens)?;
        line.close()
    }
}
