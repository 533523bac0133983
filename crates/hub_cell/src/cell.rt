//! The cell.
ghost use Rattle.std.specs.Prelude.{◌≡◌, ℕ, ◌+◌, ◌-◌, ◌%◌, ◌^◌, ◌<◌, ◌≤◌, List, [], ◌∷◌, ◌++◌, length, map, IfOk};
ghost use Rattle.std.specs.Prelude.{IfErr, IfSome, IfNone, IsOkAnd};
ghost use Rattle.hub_cell.specs.Lists.{IsPrefix, numbered};
ghost use Rattle.hub_cell.specs.Lock.{IsIdle, HasDrawn, HasTaken, HasWorked, CanGive, HasGiven};
ghost use Rattle.hub_cell.specs.Passes.{IsFirst, IsTurn, IsSplit, IsJoined, AreAllPasses, IsGathered, IsClosed};

use crate::counted::{Counted, Work};
use crate::pass::Pass;
use crate::rule::{COUNT, DRAWN, ENDED, Key, Lock, Place};
use crate::steps::{Count, Draw, End, Fit, Look, Seats, Tell};
use atomic_table::{Badge, Refused, Table};
use base_types::{CloseRefused, NoMemory};
use std::alloc::Global;
use std::marker::{Brand, Model};
use std::snapshot::Snapshot;
use std::sync::Wait;
use std::{hint, mem};

// How often a thread looks at the turn before it sleeps until one ends.
const LOOKS_AWAKE: u32 = 200;

/// A value that threads take turns at, in the order in which they came: a ticket lock (Mellor-Crummey and Scott,
/// "Algorithms for Scalable Synchronization on Shared-Memory Multiprocessors", 1991). A thread comes by a pass, and the
/// value has a list that only grows. Contracts see which cell it is, how many passes it can have, and the value that it
/// was made with.
#[derive(Drop)]
pub struct TurnCell<T: Counted> {
    lock: Lock<T>,
}

impl<T: Counted> Model for TurnCell<T> {
    ghost use Rattle.std.specs.Prelude.{◌≡◌, ◌≤◌};
    ghost use Rattle.hub_cell.specs.Passes.{CellView};

    ghost Value = { CellView T };

    ghost view = { λ c. record {
      id = c.lock.shared.table_id;
      seats = c.lock.shared.key.seats;
      first = c.lock.shared.key.first.value;
    } };

    ghost invariant = { λ c. (c.lock.shared.table_id.words ≡ 3) × (c.lock.shared.table_id.slots ≡ 1) ×
        (1 ≤ c.lock.shared.key.seats) };
}

impl<T: Counted + Send> TurnCell<T> {
    /// A cell with this value, whose list is empty, and its first pass, which has seen and made nothing. The cell has
    /// this many seats, 1 or more: the first pass has one and the others to spare, and with each spare seat another
    /// pass can be made. The only error is that memory ran out; then the value is gone.
    pub fn new(
        alloc: Global,
        value: T,
        seats: u32,
    ) -> Result<(TurnCell<T>, Pass<T::Entry>), NoMemory>
    where
        T: Drop,
        requires empty { T.list value ≡ [] }
        requires stays { T.stays value value }
        requires seats { 1 ≤ seats }
        ensures { IfOk result (λ r. (r.0.seats ≡ seats) × (r.0.first ≡ value) × IsFirst r.0 r.1) }
    {
        match TurnCell::new_or_back(alloc, value, seats) {
            Ok(made) => Ok(made),
            Err((_, error)) => Err(error),
        }
    }

    /// As `new`, but where memory runs out the value comes back as it was.
    pub fn new_or_back(
        alloc: Global,
        value: T,
        seats: u32,
    ) -> Result<(TurnCell<T>, Pass<T::Entry>), (T, NoMemory)>
        requires empty { T.list value ≡ [] }
        requires stays { T.stays value value }
        requires seats { 1 ≤ seats }
        ensures ok { IfOk result (λ r. (r.0.seats ≡ seats) × (r.0.first ≡ value) × IsFirst r.0 r.1) }
        ensures err { IfErr result (λ e. e.0 ≡ value) }
    {
        let key = Key {
            seats,
            first: Snapshot::of(&value),
        };
        let mut slots = Vec::new(alloc);
        if let Err(failed) = slots.push(value) {
            slots.destroy_empty();
            return Err((failed.value, NoMemory));
        }
        match Table::new(alloc, &[0, 0, 0], slots, &key) {
            Ok((lock, seat)) => {
                let pass = Pass {
                    badge: seat.into_badge(),
                    spare: seats - 1,
                };
                Ok((TurnCell { lock }, pass))
            }
            Err(Refused { mut slots }) => {
                let Some(value) = slots.pop() else {
                    unreachable!()
                };
                slots.destroy_empty();
                Err((value, NoMemory))
            }
        }
    }

    /// Waits for the pass's turn, and calls `work` once on the value, alone. So what that call promises holds at
    /// return; the pass has then seen the list up to the end of the turn, and what was made through it has grown by
    /// what this turn added. It takes no memory of its own. It may wait for the turns of other threads, and nothing
    /// says for how long; a thread that waits long sleeps.
    pub fn turn<R: Wait, W: Work<T>>(&self, rt: &R, pass: &mut Pass<T::Entry>, work: &mut W)
        requires cell { pass.old.cell ≡ self.now.id }
        requires ready { (value : T) → T.stays self.now.first value → IsPrefix pass.old.seen (T.list value) →
            W.may work.old value }
        ensures { IsTurn T.list (T.stays self.now.first) W.does pass.old pass.new work.old work.new }
    {
        let mut seat = mem::replace(&mut pass.badge, Badge::blank()).into_seat();
        self.take(rt, &mut seat);
        let added = self.work(&mut seat, work);
        self.give(&mut seat, added);
        pass.badge = seat.into_badge();
    }

    /// Cuts a spare seat off the pass, for a new pass that has seen as much, and through which nothing was made. It
    /// answers None exactly where the pass has no seat to spare; then the pass stays as it is. It takes no memory and
    /// waits for nobody.
    pub fn split(&self, pass: &mut Pass<T::Entry>) -> Option<Pass<T::Entry>>
        requires { pass.old.cell ≡ self.now.id }
        ensures some { IfSome result (λ new. IsSplit pass.old pass.new new) }
        ensures none { IfNone result ((pass.old.spare ≡ 0) × (pass.new ≡ pass.old)) }
    {
        if pass.spare == 0 {
            return None;
        }
        let mut seat = mem::replace(&mut pass.badge, Badge::blank()).into_seat();
        let new = self.lock.shared.split_seat::<Seats>(&mut seat);
        pass.badge = seat.into_badge();
        pass.spare -= 1;
        Some(Pass {
            badge: new.into_badge(),
            spare: 0,
        })
    }

    /// Joins another pass of the cell to this one, with its seats and with what was made through it: nothing is lost,
    /// and the entries stand in the order of the list. It takes no memory and waits for nobody.
    pub fn join(&self, pass: &mut Pass<T::Entry>, other: Pass<T::Entry>)
        requires cell { pass.old.cell ≡ self.now.id }
        requires other { other.cell ≡ self.now.id }
        ensures { IsJoined pass.old other pass.new }
    {
        let Pass {
            badge: other_badge,
            spare: other_spare,
        } = other;
        let words = &self.lock.shared;
        let mut seat = mem::replace(&mut pass.badge, Badge::blank()).into_seat();
        words.join_seat::<Seats>(&mut seat, other_badge.into_seat());
        words.load::<Tell>(&mut seat, DRAWN);
        pass.badge = seat.into_badge();
        pass.spare += other_spare + 1;
    }

    /// Gives the value back, for all the passes that are out. Its list is exactly what was made through them: each
    /// entry once, those of one pass in its order; and what each pass has seen is a beginning of it. It takes no
    /// memory, so the answer is Ok, and waits for nobody.
    pub fn close(
        self,
        passes: Vec<Pass<T::Entry>>,
    ) -> Result<T, CloseRefused<TurnCell<T>, Pass<T::Entry>>>
        requires { AreAllPasses self passes.items }
        ensures { IsOkAnd result (λ value. T.stays self.first value × IsClosed (T.list value) passes.items) }
    {
        let all = self.gather(passes);
        Ok(self.open(all))
    }

    // Joins all passes to one.
    fn gather(&self, mut passes: Vec<Pass<T::Entry>>) -> Pass<T::Entry>
        requires { AreAllPasses self.now passes.items }
        ensures { IsGathered self.now result passes.items }
    {
        let _ = &self.lock;
        let Some(mut all) = passes.pop() else {
            unreachable!()
        };
        while let Some(pass) = passes.pop() {
            self.join(&mut all, pass);
        }
        all
    }

    // Takes the value out, with the pass that has all seats.
    fn open(self, all: Pass<T::Entry>) -> T
        requires cell { all.cell ≡ self.id }
        requires whole { all.spare + 1 ≡ self.seats }
        ensures made { all.made ≡ numbered 0 (T.list result) }
        ensures seen { IsPrefix all.seen (T.list result) }
        ensures stays { T.stays self.first result }
    {
        let Pass { badge, spare: _ } = all;
        let TurnCell { lock } = self;
        let mut closed = lock.close_with(badge.into_seat());
        let value = closed.take(0);
        closed.free();
        value
    }

    // Draws a ticket, and waits until it is the ticket's turn.
    fn take<R: Wait>(&self, rt: &R, seat: &mut Place<T>)
        requires cell { seat.old.table_id ≡ self.now.id }
        requires idle { IsIdle seat.old.me }
        ensures cell { seat.new.table_id ≡ self.now.id }
        ensures taken { HasTaken T.list (T.stays self.now.first) seat.old.me seat.new.me }
    {
        let ticket = self.draw(seat);
        self.wait::<Brand, R>(rt, seat, ticket);
    }

    fn draw(&self, seat: &mut Place<T>) -> u64
        requires cell { seat.old.table_id ≡ self.now.id }
        requires idle { IsIdle seat.old.me }
        ensures cell { seat.new.table_id ≡ self.now.id }
        ensures drawn { HasDrawn seat.old.me result seat.new.me }
    {
        self.lock.shared.fetch_add::<Draw>(seat, DRAWN, 1)
    }

    fn wait<B: Fit<T>, R: Wait>(&self, rt: &R, seat: &mut Place<T>, ticket: u64)
        requires fit { (value : T) → T.stays self.now.first value → B.fit value }
        requires cell { seat.old.table_id ≡ self.now.id }
        requires drawn { (start : _) × HasDrawn start ticket seat.old.me }
        ensures cell { seat.new.table_id ≡ self.now.id }
        ensures taken { HasTaken T.list B.fit seat.old.me seat.new.me }
    {
        let words = &self.lock.shared;
        let mut looks = 0;
        for _ in rt.forever() {
            let ended = words.load::<Look<B>>(seat, ENDED);
            if ended == ticket {
                return;
            }
            if looks < LOOKS_AWAKE {
                looks += 1;
                hint::spin_loop();
            } else {
                words.park(rt, ENDED, (ended & u32::MAX as u64) as u32);
            }
        }
        unreachable!()
    }

    // Does the work on the value, and answers how many entries it added to the list.
    fn work<W: Work<T>>(&self, seat: &mut Place<T>, work: &mut W) -> u64
        requires cell { seat.old.table_id ≡ self.now.id }
        requires ready { (value : T) × (seat.old.me.1 ≡ (0, value) ∷ []) × W.may work.old value }
        ensures cell { seat.new.table_id ≡ self.now.id }
        ensures worked { HasWorked T.list (T.stays self.now.first) W.does seat.old.me seat.new.me work.old work.new
            result }
    {
        let value = seat.slot_mut(&self.lock.shared, 0);
        let before = value.count();
        work.work(value);
        value.count() - before
    }

    // Counts what the turn added, and ends the turn.
    fn give(&self, seat: &mut Place<T>, added: u64)
        requires cell { seat.old.table_id ≡ self.now.id }
        requires grown { CanGive T.list (T.stays self.now.first) seat.old.me added }
        ensures cell { seat.new.table_id ≡ self.now.id }
        ensures given { HasGiven T.list seat.old.me seat.new.me }
    {
        let words = &self.lock.shared;
        words.fetch_add::<Count>(seat, COUNT, added);
        let ended = words.fetch_add::<End>(seat, ENDED, 1);
        if words.peek(DRAWN) != ended.wrapping_add(1) {
            words.wake_all(ENDED);
        }
    }
}
