ghost use Rattle.std.specs.Prelude.{◌≡◌, ◌+◌, true, IfOk, OnOk};
ghost use Rattle.tree_calls.specs.Limits.{keeps_limit};
ghost use Rattle.tree_answers.specs.WellFormed.{IsWellFormed};
ghost use Rattle.tree_saving.specs.Unsaved.{all_contents, is_by_one};
ghost use Rattle.service_plain.specs.Played.{rests, rooms_free};
ghost use Rattle.service_plain.specs.Uses.{is_done, ending};
ghost use Rattle.service_plain.specs.Underway.{arrived, kept_room, is_write, Makes, GoesDown, Saves, Ends};

use crate::uses::Use;
use base_types::{FilesetId, HostId, Items, NoMemory, Plain, ServerId};
use tree_answers::Tree;
use tree_calls::{Call, Entry, Reply};
use tree_saving::{down_all, store_all};

/// What happened so far, and the tree that it led to.
#[derive(Drop)]
pub(crate) struct Past {
    pub tree: Tree,
    pub history: Items<Entry>,
}

impl Past {
    /// A host makes a call, which has this number. What it writes is stored at once. Tells whether the call was done.
    pub fn make(&mut self, host: HostId, k: u32, call: &Call) -> Result<bool, NoMemory>
        requires formed { IsWellFormed self.old.tree }
        requires rest { rests self.old.tree ≡ true }
        requires rooms { rooms_free self.old.tree ≡ true }
        requires limit { keeps_limit call.now ≡ true }
        ensures { IfOk result (λ done. Makes host k call.now done self.old self.new) }
    {
        let reply = self.tree.answer(host, call)?;
        let done = is_done(&reply);
        self.history.push(Entry::Call {
            host,
            k,
            call: call.copy()?,
            reply,
        })?;
        if is_write(call) {
            self.save(host)?;
        } else {
            self.arrive()?;
        }
        Ok(done)
    }

    // Where a server keeps room for a fileset that left it, it learns that the fileset has arrived.
    fn arrive(&mut self) -> Result<(), NoMemory>
        ensures { OnOk result (self.new ≡ arrived self.old) }
    {
        if let Some((server, fileset)) = kept_room(&self.tree) {
            self.history.push(Entry::Left { server, fileset })?;
            self.tree.left(server, fileset);
        }
        Ok(())
    }

    /// A host is down at every server.
    pub fn go_down(&mut self, host: HostId) -> Result<(), NoMemory>
        requires formed { IsWellFormed self.old.tree }
        requires rest { rests self.old.tree ≡ true }
        requires rooms { rooms_free self.old.tree ≡ true }
        ensures { OnOk result (GoesDown host self.old self.new) }
    {
        let downs = down_all(&mut self.tree, host)?;
        self.history.append(downs)?;
        Ok(())
    }

    // A host stores all that it has unsaved.
    fn save(&mut self, host: HostId) -> Result<(), NoMemory>
        requires formed { IsWellFormed self.old.tree }
        requires apart { all_contents is_by_one self.old.tree ≡ true }
        ensures { OnOk result (Saves host self.old self.new) }
    {
        let stored = store_all(&mut self.tree, host)?;
        self.history.append(stored)?;
        Ok(())
    }

    // A host ends a use by a call of this number.
    fn end_use(&mut self, host: HostId, k: u32, used: &Use) -> Result<bool, NoMemory>
        requires formed { IsWellFormed self.old.tree }
        requires rest { rests self.old.tree ≡ true }
        requires rooms { rooms_free self.old.tree ≡ true }
        ensures { IfOk result (λ done. Makes host k (ending used.now) done self.old self.new) }
    {
        let call = used.ending()?;
        let made = self.make(host, k, &call);
        drop(call);
        made
    }

    /// A host that made so many calls ends what it has in use.
    pub fn end_uses(&mut self, host: HostId, calls: u32, uses: &Items<Use>) -> Result<(), NoMemory>
        requires formed { IsWellFormed self.old.tree }
        requires rest { rests self.old.tree ≡ true }
        requires rooms { rooms_free self.old.tree ≡ true }
        ensures { OnOk result (Ends host calls uses.now self.old self.new) }
    {
        let mut k = calls;
        for used in uses.as_slice() {
            k = number_after(k)?;
            self.end_use(host, k, used)?;
        }
        Ok(())
    }
}

// The first server that keeps room for a fileset that left it, and the fileset.
fn kept_room(tree: &Tree) -> Option<(ServerId, FilesetId)>
    ensures { result ≡ kept_room tree.now }
{
    tree.away
        .as_slice()
        .iter()
        .find(|away| away.room_kept)
        .map(|away| (away.server, away.fileset))
}

fn is_write(call: &Call) -> bool
    ensures { result ≡ is_write call.now }
{
    matches!(call, Call::Write { .. })
}

/// The next number of a call. More calls than have a number don't fit into memory.
pub(crate) fn number_after(k: u32) -> Result<u32, NoMemory>
    ensures { IfOk result (λ next. next ≡ k + 1) }
{
    match k.checked_add(1) {
        Some(next) => Ok(next),
        None => Err(NoMemory),
    }
}

fn is_done(reply: &Reply) -> bool
    ensures { result ≡ is_done reply.now }
{
    matches!(reply, Reply::Ok)
}
