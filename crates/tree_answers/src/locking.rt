ghost use Rattle.std.specs.Prelude.{◌≡◌, ◌==◌, nat_eq, IfOk, OnOk, OnErr};
ghost use Rattle.base_types.specs.Ids.{same_fid};
ghost use Rattle.tree_answers.specs.Locks.{covers, is_own_locked, is_excluded, lock_check, lock_answer, unlock_answer};

use crate::tree::{LockUse, Tree};
use crate::uses::{add_one, drop_label, has_label, label_count};
use base_types::{
    FILE_BYTES_MAX, Fid, HostId, Items, LABELS_MAX, Name, NoMemory, Plain, Span, User,
};
use tree_calls::{Place, Refusal, Reply};
use tree_objects::span_between;

/// The bytes that a lock is asked for.
#[derive(Clone, Copy)]
pub(crate) struct Range {
    pub(crate) from: u32,
    pub(crate) len: u32,
}

impl Tree {
    /// Locks bytes of a file under a label.
    #[tactic(auto, unfolding(crate::specs::Locks::lock_answer))]
    pub(crate) fn lock(
        &mut self,
        host: HostId,
        user: &User,
        label: &Name,
        place: &Place,
        writing: bool,
        range: Range,
    ) -> Result<Reply, NoMemory>
        ensures reply { IfOk result (λ reply.
            reply ≡ (lock_answer self.old host user.now label.now place.now writing range.from range.len).reply) }
        ensures tree { OnOk result
            (self.new ≡ (lock_answer self.old host user.now label.now place.now writing range.from range.len).tree) }
        ensures err { OnErr result (self.new ≡ self.old) }
    {
        let (fid, span) = match self.lock_check(host, user, label, place, writing, range) {
            Ok(found) => found,
            Err(refusal) => return Ok(Reply::Refused(refusal)),
        };
        let lock = LockUse {
            host,
            label: label.copy()?,
            fid,
            writing,
            span,
        };
        add_one(&mut self.locks, lock)?;
        Ok(Reply::Ok)
    }

    /// Ends the lock of a host with a label.
    #[tactic(auto, unfolding(crate::specs::Locks::unlock_answer))]
    pub(crate) fn unlock(&mut self, host: HostId, label: &Name) -> Reply
        ensures reply { result ≡ (unlock_answer self.old host label.now).reply }
        ensures tree { self.new ≡ (unlock_answer self.old host label.now).tree }
    {
        if !has_label(&self.locks, host, label) {
            return Reply::Refused(Refusal::NotLocked);
        }
        drop_label(&mut self.locks, host, label);
        Reply::Ok
    }

    // The checks of a lock, in their order: the file, and the bytes of it.
    #[tactic(auto, unfolding(crate::specs::Locks::lock_check))]
    fn lock_check(
        &self,
        host: HostId,
        user: &User,
        label: &Name,
        place: &Place,
        writing: bool,
        range: Range,
    ) -> Result<(Fid, Span), Refusal>
        ensures { result ≡ lock_check self.now host user.now label.now place.now writing range.from range.len }
    {
        if has_label(&self.locks, host, label) {
            return Err(Refusal::AlreadyLocked);
        }
        if LABELS_MAX <= label_count(&self.locks, host) {
            return Err(Refusal::TooMany);
        }
        let fileset = self.fileset_named(place.server, &place.fileset)?;
        let fid = fileset.lock_target(user, place.path.as_slice(), writing)?;
        let from = u64::from(range.from);
        let end = from + u64::from(range.len);
        if u64::from(FILE_BYTES_MAX) < end {
            return Err(Refusal::TooBig);
        }
        let span = span_between(from, end);
        if is_own_locked(&self.locks, host, fid, span) {
            return Err(Refusal::AlreadyLocked);
        }
        if is_excluded(&self.locks, host, fid, span, writing) {
            return Err(Refusal::Locked);
        }
        Ok((fid, span))
    }
}

// Whether a lock is on a file and overlaps a span.
fn covers(lock: &LockUse, fid: Fid, span: Span) -> bool
    ensures { result ≡ covers fid span lock.now }
{
    lock.fid == fid && lock.span.overlaps(span)
}

// Whether a host has a lock there itself.
fn is_own_locked(locks: &Items<LockUse>, host: HostId, fid: Fid, span: Span) -> bool
    ensures { result ≡ is_own_locked locks.now host fid span }
{
    locks
        .as_slice()
        .iter()
        .any(|lock| lock.host == host && covers(lock, fid, span))
}

// Whether another host has a lock there, one of both for writing.
fn is_excluded(locks: &Items<LockUse>, host: HostId, fid: Fid, span: Span, writing: bool) -> bool
    ensures { result ≡ is_excluded locks.now host fid span writing }
{
    locks.as_slice().iter().any(|lock| lock.host != host
        && covers(lock, fid, span)
        && (lock.writing || writing))
}
