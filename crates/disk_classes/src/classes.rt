// Members over a log.
ghost use Rattle.std.specs.Prelude.{◌≡◌, ◌≢◌, ◌≤◌, ◌<◌, ℕ, Some, None, length, OnOk, OnErr, IfOk, IfErr, Contains};
ghost use Rattle.std.specs.Prelude.{◌==◌, if◌then◌else◌, List, IsTrue, ◌↔◌};
ghost use Rattle.std.proofs.Common.{get_or};
ghost use Rattle.base_types.specs.Crash.{IsQuiet, IsSettled};
ghost use Rattle.base_outside.specs.Runs.{LeavesOnly};
ghost use Rattle.disk_classes.specs.Joined.{MayPut, PutsPage, IsLeast, no_note};
ghost use Rattle.disk_classes.specs.declared.fault.ClassFault.TheVariants.{Failed as DiskFailed, Memory as NoRoom};
ghost use Rattle.disk_classes.specs.declared.member.Standing.TheVariants.{Vacant as IsVacant, Open as IsOpen};
ghost use Rattle.disk_classes.specs.declared.member.Standing.TheVariants.{Ended as HasEnded};

use crate::commit::commit;
use crate::fault::ClassFault;
use crate::member::{Member, Noted};
use crate::members::{Members, count_needed, first_vacant, has_ended, place};
use base_types::Disk;
use disk_layout::PAGE;
use disk_log::Log;
use std::alloc::Global;

/// Members over a log. A member puts metadata pages of 512 bytes; two that put the same page come into one class. After
/// `Failed` of `force` the log is to be taken out and mounted again; after every other error all goes on.
#[derive(Drop)]
pub struct Classes<D: Disk> {
    log: Log<D>,
    members: Members,
}

impl<D: Disk> Classes<D> {
    ghost use Rattle.disk_log.specs.Blame.{IsBlamed};
    ghost use Rattle.disk_log.specs.Contents.{contents_of, page_in, last_stage, stage_in, Reads};
    ghost use Rattle.disk_log.specs.Log.{disk_of, state_of, IsIdle};
    ghost use Rattle.disk_classes.specs.Classes.{log_of, notes_of, value_of, needed_of, number_of, shown};
    ghost use Rattle.disk_classes.specs.Classes.{IsSoundClasses, SameMembers, IsBegun, CommitsFirst, IsLeftBy};
    ghost use Rattle.disk_classes.specs.Classes.{IsForceFault, Goes};
    ghost use Rattle.disk_classes.specs.Commit.{CommitsClass};
    ghost use Rattle.disk_classes.specs.Notes.{class_of, vacated, IsPutIn};

    /// No member, over a log in which no transaction is open.
    pub fn new(alloc: Global, log: Log<D>) -> Classes<D>
        requires { IsIdle D.tells D.view log }
        ensures sound { IsSoundClasses D.tells D.view result }
        ensures log { log_of result ≡ log }
        ensures none { (m : ℕ) → notes_of result m ≡ no_note }
        ensures values { (p : ℕ) → value_of result p ≡ None }
        ensures needed { needed_of result ≡ 0 }
    {
        Classes {
            log,
            members: Members::new(alloc),
        }
    }

    /// The log. Members that aren't yet committed are gone with what they put.
    pub fn into_log(self) -> Log<D>
        ensures { result ≡ log_of self }
    {
        let Classes {
            log,
            members: _members,
        } = self;
        log
    }

    /// Begins a member that puts so many pages at most, under the lowest number that no other has. It answers `Full`,
    /// with both numbers, exactly where the log has fewer free entries than all members need that aren't yet committed
    /// and the new one, `2 * pages + 1` each. The other error is `Memory`; after either all is as before.
    pub fn begin(&mut self, pages: u32) -> Result<Member, ClassFault>
        requires sound { IsSoundClasses D.tells D.view self.old }
        ensures sound { IsSoundClasses D.tells D.view self.new }
        ensures begun { IsBegun pages result self.old self.new }
        ensures log { log_of self.new ≡ log_of self.old }
        ensures values { (p : ℕ) → value_of self.new p ≡ value_of self.old p }
    {
        let free = self.log.free();
        let needed = count_needed(self.members.noted.as_slice()) + 2 * pages as u64 + 1;
        if (free as u64) < needed {
            return Err(ClassFault::Full { free, needed });
        }
        let number = first_vacant(self.members.noted.as_slice());
        let noted = Noted::fresh(self.members.noted.alloc(), number, pages)?;
        place(&mut self.members.noted, number, noted)?;
        Ok(Member { number })
    }

    /// Fills `out`, of 512 bytes, with a metadata page as the last put of any member left it, or else as the log has
    /// it. The only error is `Failed`, after which `out` may hold anything.
    pub fn page(&mut self, page: u32, out: &mut [u8]) -> Result<(), ClassFault>
        requires sound { IsSoundClasses D.tells D.view self.old }
        requires page { page < (state_of (log_of self.old)).half.pages }
        requires size { length out.old ≡ 512 }
        ensures sound { IsSoundClasses D.tells D.view self.new }
        ensures same { SameMembers self.old self.new }
        ensures reads { Reads D.tells D.view result (log_of self.old) (log_of self.new) }
        ensures bytes { D.tells → OnOk result (out.new ≡ shown D.view self.old page) }
        ensures only { IfErr result (λ fault. fault ≡ DiskFailed) }
    {
        let Some(value) = self.members.value_of(page) else {
            self.log.page(page, out)?;
            return Ok(());
        };
        out.copy_from_slice(&value.bytes);
        Ok(())
    }

    /// Whether a member is open.
    pub fn is_open(&self, member: &Member) -> bool
        ensures { IsTrue result ↔ ((notes_of self.now (number_of member.now)).standing ≡ IsOpen) }
    {
        match self.members.noted.at(member.number) {
            Some(noted) => noted.is_open(),
            None => false,
        }
    }

    /// Whether a member may put a page: it is open, and put the page before or fewer pages than it began with.
    pub fn may_put(&self, member: &Member, page: u32) -> bool
        ensures { IsTrue result ↔ MayPut (notes_of self.now (number_of member.now)) page }
    {
        match self.members.noted.at(member.number) {
            Some(noted) => noted.may_put(page),
            None => false,
        }
    }

    /// Puts `new`, of 512 bytes, in place of a metadata page. It stays in memory until the member's class is committed.
    /// The member comes into one class with all that put the page. The only error is `Memory`, after which all is as
    /// before. It can't be undone: a caller that gives up puts the old page back.
    pub fn put(&mut self, member: &mut Member, page: u32, new: &[u8]) -> Result<(), ClassFault>
        requires sound { IsSoundClasses D.tells D.view self.old }
        requires may { MayPut (notes_of self.old (number_of member.old)) page }
        requires page { page < (state_of (log_of self.old)).half.pages }
        requires size { length new.now ≡ 512 }
        ensures sound { IsSoundClasses D.tells D.view self.new }
        ensures log { log_of self.new ≡ log_of self.old }
        ensures member { member.new ≡ member.old }
        ensures put { OnOk result (PutsPage (number_of member.old) page (notes_of self.old) (notes_of self.new)) }
        ensures value { OnOk result ((p : ℕ) → value_of self.new p
            ≡ (if p == page then Some new.now else value_of self.old p)) }
        ensures needed { needed_of self.new ≡ needed_of self.old }
        ensures err { OnErr result (SameMembers self.old self.new) }
        ensures only { IfErr result (λ fault. fault ≡ NoRoom) }
    {
        let mut bytes = [0; PAGE];
        bytes.copy_from_slice(new);
        self.members.put(member.number, page, bytes)?;
        Ok(())
    }

    /// Ends a member. It is committed by the next force after which all members of its class have ended.
    pub fn end(&mut self, member: Member)
        requires sound { IsSoundClasses D.tells D.view self.old }
        requires opened { (notes_of self.old (number_of member)).standing ≡ IsOpen }
        ensures sound { IsSoundClasses D.tells D.view self.new }
        ensures log { log_of self.new ≡ log_of self.old }
        ensures ended { (m : ℕ) → notes_of self.new m ≡ (if m == number_of member
            then record (notes_of self.old m) { standing = HasEnded } else notes_of self.old m) }
        ensures values { (p : ℕ) → value_of self.new p ≡ value_of self.old p }
        ensures needed { needed_of self.new ≡ needed_of self.old }
    {
        self.members.end(member.number);
    }

    // Commits a class. After an error all is as before.
    fn commit_class(&mut self, class: usize) -> Result<(), ClassFault>
        requires sound { IsSoundClasses D.tells D.view self.old }
        requires live { (notes_of self.old class).standing ≢ IsVacant }
        requires named { class_of self.old.members.noted class ≡ class }
        ensures sound { IsSoundClasses D.tells D.view self.new }
        ensures log { OnOk result (CommitsClass D.tells D.view class self.old.members.noted self.old.members.values
            (log_of self.old) (log_of self.new)) }
        ensures noted { OnOk result (self.new.members.noted ≡ vacated class 0 self.old.members.noted) }
        ensures put { OnOk result ((p : ℕ) → IsPutIn class self.old.members.noted p
            → get_or self.new.members.values p None ≡ None) }
        ensures kept { OnOk result ((p : ℕ) → (IsPutIn class self.old.members.noted p → ⊥)
            → get_or self.new.members.values p None ≡ get_or self.old.members.values p None) }
        ensures err { OnErr result (state_of (log_of self.new) ≡ state_of (log_of self.old)) }
        ensures members { OnErr result (self.new.members ≡ self.old.members) }
        ensures counted { (D.view (disk_of (log_of self.old))).faults ≤ (D.view (disk_of (log_of self.new))).faults }
        ensures quiet { IsQuiet (D.view (disk_of (log_of self.old))) (D.view (disk_of (log_of self.new))) }
        ensures only { IfErr result (λ fault. IsForceFault fault
            (D.view (disk_of (log_of self.old))) (D.view (disk_of (log_of self.new)))) }
    {
        commit(
            &mut self.log,
            self.members.noted.as_slice(),
            self.members.values.as_slice(),
            class,
        )?;
        self.members.vacate(class);
        Ok(())
    }

    // Commits each class all of whose members have ended, in the order of their least members.
    fn commit_ended(&mut self) -> Result<u32, ClassFault>
        requires sound { IsSoundClasses D.tells D.view self.old }
        ensures sound { IsSoundClasses D.tells D.view self.new }
        ensures ok { IfOk result (λ count. (least : List ℕ) × Goes D.tells D.view least self.old self.new
            × ((l : ℕ) → IsLeast (notes_of self.old) l → Contains least l) × (count ≡ length least)) }
        ensures err { OnErr result ((least : List ℕ) × Goes D.tells D.view least self.old self.new) }
        ensures counted { (D.view (disk_of (log_of self.old))).faults ≤ (D.view (disk_of (log_of self.new))).faults }
        ensures quiet { IsQuiet (D.view (disk_of (log_of self.old))) (D.view (disk_of (log_of self.new))) }
        ensures only { IfErr result (λ fault. IsForceFault fault
            (D.view (disk_of (log_of self.old))) (D.view (disk_of (log_of self.new)))) }
    {
        let mut count = 0;
        for number in 0..self.members.noted.len() {
            let one = self.members.noted.get(number);
            let class = one.class;
            if one.is_ended() && has_ended(self.members.noted.as_slice(), class) {
                self.commit_class(class)?;
                count += 1;
            }
        }
        Ok(count)
    }

    /// Commits each class all of whose members have ended, each as one transaction of the log, in the order of their
    /// least members, and forces the log; it answers how many. A crash at any moment of the call leaves the log after
    /// the first of the transactions that ended since its last force and of these classes, each whole, or after none.
    /// After `Memory` the first of these classes are committed in the log and not yet durable, and the others are as
    /// they were; a later force that answers `Ok` makes all of them durable. After `Failed`, where the disk's count of
    /// faults rose, the log is to be taken out and mounted again.
    pub fn force(&mut self) -> Result<u32, ClassFault>
        requires sound { IsSoundClasses D.tells D.view self.old }
        ensures sound { OnOk result (IsSoundClasses D.tells D.view self.new) }
        ensures ok { IfOk result (λ count. (least : List ℕ) × CommitsFirst D.tells D.view least self.old self.new
            × ((l : ℕ) → IsLeast (notes_of self.old) l → Contains least l) × (count ≡ length least)) }
        ensures superblock { OnOk result
            ((state_of (log_of self.new)).superblock ≡ (state_of (log_of self.old)).superblock) }
        ensures half { OnOk result ((state_of (log_of self.new)).half ≡ (state_of (log_of self.old)).half) }
        ensures durable { OnOk result (IsSettled (D.view (disk_of (log_of self.new)))) }
        ensures none { OnOk result (last_stage (contents_of D.view (log_of self.new)) ≡ 0) }
        ensures stage { D.tells → OnOk result ((p : ℕ) → p < (state_of (log_of self.old)).half.pages
            → stage_in (contents_of D.view (log_of self.new)) 0 p
            ≡ page_in (contents_of D.view (log_of self.new)) p) }
        ensures memory { IfErr result (λ fault. fault ≡ NoRoom → IsSoundClasses D.tells D.view self.new
            × ((least : List ℕ) × Goes D.tells D.view least self.old self.new)) }
        ensures crash { D.tells → LeavesOnly (IsLeftBy D.view self.old)
            (D.view (disk_of (log_of self.old))) (D.view (disk_of (log_of self.new))) }
        ensures counted { (D.view (disk_of (log_of self.old))).faults ≤ (D.view (disk_of (log_of self.new))).faults }
        ensures only { IfErr result (λ fault. IsForceFault fault
            (D.view (disk_of (log_of self.old))) (D.view (disk_of (log_of self.new)))) }
    {
        let count = self.commit_ended()?;
        self.log.force()?;
        Ok(count)
    }
}
