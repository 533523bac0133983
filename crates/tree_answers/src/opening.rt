ghost use Rattle.std.specs.Prelude.{◌≡◌, ◌==◌, nat_eq, IfOk, OnOk, OnErr};
ghost use Rattle.tree_answers.specs.Opens.{is_barred, open_check, open_answer, close_answer};

use crate::tree::{OpenUse, Tree};
use crate::uses::{add_one, drop_label, has_label, label_count};
use base_types::{Fid, HostId, Items, LABELS_MAX, Name, NoMemory, OpenKind, Plain, User};
use tree_calls::{Place, Refusal, Reply};

impl Tree {
    /// Opens a file under a label.
    #[tactic(auto, unfolding(crate::specs::Opens::open_answer))]
    pub(crate) fn open(
        &mut self,
        host: HostId,
        user: &User,
        label: &Name,
        place: &Place,
        kind: OpenKind,
    ) -> Result<Reply, NoMemory>
        ensures reply { IfOk result
            (λ reply. reply ≡ (open_answer self.old host user.now label.now place.now kind).reply) }
        ensures tree { OnOk result (self.new ≡ (open_answer self.old host user.now label.now place.now kind).tree) }
        ensures err { OnErr result (self.new ≡ self.old) }
    {
        let fid = match self.open_check(host, user, label, place, kind) {
            Ok(fid) => fid,
            Err(refusal) => return Ok(Reply::Refused(refusal)),
        };
        let opened = OpenUse {
            host,
            label: label.copy()?,
            fid,
            kind,
        };
        add_one(&mut self.opens, opened)?;
        Ok(Reply::Ok)
    }

    /// Closes the open file of a host with a label.
    #[tactic(auto, unfolding(crate::specs::Opens::close_answer))]
    pub(crate) fn close(&mut self, host: HostId, label: &Name) -> Reply
        ensures reply { result ≡ (close_answer self.old host label.now).reply }
        ensures tree { self.new ≡ (close_answer self.old host label.now).tree }
    {
        if !has_label(&self.opens, host, label) {
            return Reply::Refused(Refusal::NotOpened);
        }
        drop_label(&mut self.opens, host, label);
        Reply::Ok
    }

    // The checks of an open, in their order: the file.
    #[tactic(auto, unfolding(crate::specs::Opens::open_check))]
    fn open_check(
        &self,
        host: HostId,
        user: &User,
        label: &Name,
        place: &Place,
        kind: OpenKind,
    ) -> Result<Fid, Refusal>
        ensures { result ≡ open_check self.now host user.now label.now place.now kind }
    {
        if has_label(&self.opens, host, label) {
            return Err(Refusal::AlreadyOpened);
        }
        if LABELS_MAX <= label_count(&self.opens, host) {
            return Err(Refusal::TooMany);
        }
        let fileset = self.fileset_named(place.server, &place.fileset)?;
        let fid = fileset.open_target(user, place.path.as_slice(), kind)?;
        if is_barred(&self.opens, host, fid, kind) {
            return Err(Refusal::OpenConflict);
        }
        Ok(fid)
    }
}

// Whether another host has a file open so that an open of this kind is excluded.
fn is_barred(opens: &Items<OpenUse>, host: HostId, fid: Fid, kind: OpenKind) -> bool
    ensures { result ≡ is_barred opens.now host fid kind }
{
    opens.as_slice().iter().any(|opened| opened.host != host
        && opened.fid == fid
        && opened.kind.conflicts(kind))
}
