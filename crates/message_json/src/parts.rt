//! Ids, spans, tokens and needs.
ghost use Rattle.message_json.specs.Values.{letters};

use crate::line::{Line, ToJson};
use base_types::{Fid, FilesetId, HostId, Name, NoMemory, OpenKind, ServerId, Span};
use token_types::{Kind, Need, Token, TokenId};

impl ToJson for HostId {
    ghost use Rattle.message_json.specs.Parts.{host_json};

    ghost json = { host_json };

    fn put(&self, line: &mut Line) -> Result<(), NoMemory> {
        line.number(self.0 as u64)
    }
}

impl ToJson for ServerId {
    ghost use Rattle.message_json.specs.Parts.{server_json};

    ghost json = { server_json };

    fn put(&self, line: &mut Line) -> Result<(), NoMemory> {
        line.number(self.0 as u64)
    }
}

impl ToJson for FilesetId {
    ghost use Rattle.message_json.specs.Parts.{fileset_json};

    ghost json = { fileset_json };

    fn put(&self, line: &mut Line) -> Result<(), NoMemory> {
        line.number(self.0 as u64)
    }
}

impl ToJson for Name {
    ghost json = { letters };

    fn put(&self, line: &mut Line) -> Result<(), NoMemory> {
        line.bytes(self.as_bytes())
    }
}

impl ToJson for Fid {
    ghost use Rattle.message_json.specs.Parts.{fid_json};

    ghost json = { fid_json };

    #[tactic(auto, unfolding(crate::specs::Parts::fid_json))]
    fn put(&self, line: &mut Line) -> Result<(), NoMemory> {
        line.open()?;
        line.field("fileset", &self.fileset)?;
        line.field("anode", &self.anode)?;
        line.field("unique", &self.unique)?;
        line.close()
    }
}

impl ToJson for Span {
    ghost use Rattle.message_json.specs.Parts.{span_json};

    ghost json = { span_json };

    #[tactic(auto, unfolding(crate::specs::Parts::span_json))]
    fn put(&self, line: &mut Line) -> Result<(), NoMemory> {
        line.open()?;
        line.field("from", &self.from)?;
        line.field("to", &self.to)?;
        line.close()
    }
}

impl ToJson for OpenKind {
    ghost use Rattle.message_json.specs.Parts.{open_json};

    ghost json = { open_json };

    #[tactic(auto, unfolding(crate::specs::Parts::open_json))]
    fn put(&self, line: &mut Line) -> Result<(), NoMemory> {
        match self {
            OpenKind::Reading => line.word("reading"),
            OpenKind::Writing => line.word("writing"),
            OpenKind::Executing => line.word("executing"),
            OpenKind::Shared => line.word("shared"),
            OpenKind::Exclusive => line.word("exclusive"),
        }
    }
}

impl ToJson for TokenId {
    ghost use Rattle.message_json.specs.Parts.{id_json};

    ghost json = { id_json };

    #[tactic(auto, unfolding(crate::specs::Parts::id_json))]
    fn put(&self, line: &mut Line) -> Result<(), NoMemory> {
        line.open()?;
        line.field("server", &self.server)?;
        line.field("epoch", &self.epoch)?;
        line.field("seq", &self.seq)?;
        line.close()
    }
}

impl ToJson for Kind {
    ghost use Rattle.message_json.specs.Parts.{kind_json};

    ghost json = { kind_json };

    #[tactic(auto, unfolding(crate::specs::Parts::kind_json))]
    fn put(&self, line: &mut Line) -> Result<(), NoMemory> {
        match self {
            Kind::Bytes { update, span } => {
                line.two("bytes", ("update", update), ("span", span))
            }
            Kind::Status { update } => line.one("status", ("update", update)),
            Kind::Lock { writing, span } => {
                line.two("lock", ("writing", writing), ("span", span))
            }
            Kind::Opening(kind) => line.tagged("opening", kind),
        }
    }
}

impl ToJson for Token {
    ghost use Rattle.message_json.specs.Parts.{token_json};

    ghost json = { token_json };

    #[tactic(auto, unfolding(crate::specs::Parts::token_json))]
    fn put(&self, line: &mut Line) -> Result<(), NoMemory> {
        line.open()?;
        line.field("id", &self.id)?;
        line.field("host", &self.host)?;
        line.field("fid", &self.fid)?;
        line.field("kind", &self.kind)?;
        line.close()
    }
}

impl ToJson for Need {
    ghost use Rattle.message_json.specs.Parts.{need_json};

    ghost json = { need_json };

    #[tactic(auto, unfolding(crate::specs::Parts::need_json))]
    fn put(&self, line: &mut Line) -> Result<(), NoMemory> {
        line.open()?;
        line.field("fid", &self.fid)?;
        line.field("kind", &self.kind)?;
        line.close()
    }
}
