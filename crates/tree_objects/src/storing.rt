ghost use Rattle.std.specs.Prelude.{◌≡◌, OnOk, OnErr};
ghost use Rattle.tree_objects.specs.Changes.{anode_changed, length_forgotten, content_forgotten};
ghost use Rattle.tree_objects.specs.Stores.{length_left, own_length_of, content_stored, content_synced};

use crate::content::{Anode, Content, UnsavedLength};
use base_types::{HostId, NoMemory, Span};

impl Anode {
    /// Makes all unsaved changes of a host kept: its length, and its bytes below the kept length that is left.
    pub fn sync(&mut self, host: HostId) -> Result<(), NoMemory>
        ensures ok { OnOk result (self.new ≡ anode_changed (content_synced host) self.old) }
        ensures err { OnErr result (self.new ≡ self.old) }
    {
        if let Some(object) = &mut self.object {
            object.content.sync(host)?;
        }
        Ok(())
    }

    /// Makes a length in bytes kept, where there is one, and the unsaved bytes of a host in these spans.
    pub fn store(
        &mut self,
        host: HostId,
        spans: &[Span],
        length: Option<u32>,
    ) -> Result<(), NoMemory>
        ensures ok { OnOk result (self.new ≡ anode_changed (content_stored host spans.now length) self.old) }
        ensures err { OnErr result (self.new ≡ self.old) }
    {
        if let Some(object) = &mut self.object {
            object.content.store(host, spans, length)?;
        }
        Ok(())
    }

    /// Forgets the unsaved changes of a host.
    pub fn forget(&mut self, host: HostId)
        ensures { self.new ≡ anode_changed (content_forgotten host) self.old }
    {
        if let Some(object) = &mut self.object {
            object.content.forget(host);
        }
    }
}

impl Content {
    fn sync(&mut self, host: HostId) -> Result<(), NoMemory>
        ensures ok { OnOk result (self.new ≡ content_synced host self.old) }
        ensures err { OnErr result (self.new ≡ self.old) }
    {
        let length = self.own_length(host);
        self.store(host, &[Span::WHOLE], length)
    }

    pub(crate) fn own_length(&self, host: HostId) -> Option<u32>
        ensures { result ≡ own_length_of host self.now }
    {
        match self {
            Content::File {
                list: _,
                kept: _,
                unsaved: _,
                length: Some(unsaved),
            } if unsaved.writer == host => Some(unsaved.length),
            _ => None,
        }
    }

    fn store(&mut self, host: HostId, spans: &[Span], stored: Option<u32>) -> Result<(), NoMemory>
        ensures ok { OnOk result (self.new ≡ content_stored host spans.now stored self.old) }
        ensures err { OnErr result (self.new ≡ self.old) }
    {
        if let Content::File {
            list: _,
            kept,
            unsaved,
            length,
        } = self
        {
            let end = stored.map_or(kept.len(), |stored| stored as usize);
            unsaved.store(kept, host, spans, end)?;
            *length = length_left(stored, *length);
        }
        Ok(())
    }

    fn forget(&mut self, host: HostId)
        ensures { self.new ≡ content_forgotten host self.old }
    {
        if let Content::File {
            list: _,
            kept: _,
            unsaved,
            length,
        } = self
        {
            unsaved.forget(host);
            *length = length_forgotten(host, *length);
        }
    }
}

// The unsaved length that is left after a length became kept.
fn length_left(stored: Option<u32>, before: Option<UnsavedLength>) -> Option<UnsavedLength>
    ensures { result ≡ length_left stored before }
{
    match (stored, before) {
        (Some(stored), Some(unsaved)) if unsaved.length == stored => None,
        _ => before,
    }
}

// The unsaved length without a host's.
fn length_forgotten(host: HostId, before: Option<UnsavedLength>) -> Option<UnsavedLength>
    ensures { result ≡ length_forgotten host before }
{
    match before {
        Some(unsaved) if unsaved.writer == host => None,
        _ => before,
    }
}
