ghost use Rattle.std.specs.Prelude.{◌≡◌, ◌+◌, ◌≤◌, length, OnOk, OnErr};
ghost use Rattle.base_types.specs.declared.limits.TheConstants.{FILE_BYTES_MAX};
ghost use Rattle.tree_objects.specs.Changes.{anode_changed, anode_freed, content_written, content_truncated};

use crate::bytes::{present_bytes, present_length, resized};
use crate::content::{Anode, Content, UnsavedLength};
use crate::unsaved::UnsavedBytes;
use base_types::{HostId, Items, NoMemory};

impl Anode {
    /// Writes bytes into a file, as changes of a host that aren't stored yet. A write of no bytes changes nothing.
    pub fn write(&mut self, host: HostId, from: u32, bytes: &Items<u8>) -> Result<(), NoMemory>
        requires { from + length bytes.now ≤ FILE_BYTES_MAX }
        ensures ok { OnOk result (self.new ≡ anode_changed (content_written host from bytes.now) self.old) }
        ensures err { OnErr result (self.new ≡ self.old) }
    {
        if let Some(object) = &mut self.object {
            object.content.write(host, from, bytes)?;
        }
        Ok(())
    }

    /// Makes all unsaved changes of a file kept, and then sets its length in bytes; new bytes are zero.
    pub fn truncate(&mut self, len: u32) -> Result<(), NoMemory>
        ensures ok { OnOk result (self.new ≡ anode_changed (content_truncated len) self.old) }
        ensures err { OnErr result (self.new ≡ self.old) }
    {
        if let Some(object) = &mut self.object {
            object.content.truncate(len as usize)?;
        }
        Ok(())
    }

    /// Lets the object go. How often the anode was used stays.
    pub fn free(&mut self)
        ensures { self.new ≡ anode_freed self.old }
    {
        self.object = None;
    }
}

impl Content {
    fn write(&mut self, host: HostId, from: u32, bytes: &Items<u8>) -> Result<(), NoMemory>
        requires { from + length bytes.now ≤ FILE_BYTES_MAX }
        ensures ok { OnOk result (self.new ≡ content_written host from bytes.now self.old) }
        ensures err { OnErr result (self.new ≡ self.old) }
    {
        if bytes.is_empty() {
            return Ok(());
        }
        if let Content::File {
            list: _,
            kept,
            unsaved,
            length,
        } = self
        {
            unsaved.write(host, from, bytes.as_slice())?;
            let end = from + bytes.len() as u32;
            if present_length(kept, length) < end as usize {
                *length = Some(UnsavedLength {
                    length: end,
                    writer: host,
                });
            }
        }
        Ok(())
    }

    fn truncate(&mut self, len: usize) -> Result<(), NoMemory>
        ensures ok { OnOk result (self.new ≡ content_truncated len self.old) }
        ensures err { OnErr result (self.new ≡ self.old) }
    {
        if let Content::File {
            list: _,
            kept,
            unsaved,
            length,
        } = self
        {
            let bytes = present_bytes(kept, unsaved, length)?;
            let bytes = resized(bytes.alloc(), bytes.as_slice(), len)?;
            *unsaved = UnsavedBytes::new(kept.alloc());
            *length = None;
            *kept = bytes;
        }
        Ok(())
    }
}
