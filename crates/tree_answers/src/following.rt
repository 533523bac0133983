//! How a tree goes on.
ghost use Rattle.std.specs.Prelude.{◌≡◌, IfOk, OnOk, OnErr};
ghost use Rattle.tree_answers.specs.Answers.{answer_to};
ghost use Rattle.tree_answers.specs.Histories.{after_entry, lost_at};

use crate::tree::Tree;
use base_types::{HostId, Items, NoMemory};
use tree_calls::{Call, Entry, Loss};

impl Tree {
    /// Makes the tree what it is after an entry of a history, whether the entry may come next or not, and tells what is
    /// lost by it: something only where a server learns that a host is down. `NoMemory` comes where memory runs out,
    /// and leaves the tree as it was.
    pub fn follow(&mut self, entry: &Entry) -> Result<Items<Loss>, NoMemory>
        ensures losses { IfOk result (λ losses. losses ≡ lost_at self.old entry.now) }
        ensures ok { OnOk result (self.new ≡ after_entry self.old entry.now) }
        ensures err { OnErr result (self.new ≡ self.old) }
    {
        match entry {
            Entry::Call {
                host,
                k: _,
                call,
                reply: _,
            } => self.follow_call(*host, call)?,
            Entry::Stored {
                host,
                fid,
                spans,
                length,
            } => self.stored(*host, *fid, spans.as_slice(), *length)?,
            Entry::Down { host, server } => return self.down(*host, *server),
            Entry::Left { server, fileset } => self.left(*server, *fileset),
        }
        Ok(Items::new(self.filesets.alloc()))
    }

    // Makes the tree what it is after a call. A read, of which there may be many, leaves it as it is.
    #[tactic(auto, using(crate::proofs::Reading::read_stays))]
    fn follow_call(&mut self, host: HostId, call: &Call) -> Result<(), NoMemory>
        ensures ok { OnOk result (self.new ≡ (answer_to self.old host call.now).tree) }
        ensures err { OnErr result (self.new ≡ self.old) }
    {
        if !matches!(call, Call::Read { .. }) {
            self.answer(host, call)?;
        }
        Ok(())
    }
}
