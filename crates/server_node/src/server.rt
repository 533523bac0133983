ghost use Rattle.std.specs.Prelude.{◌≡◌, ◌∷◌, ◌++◌, ◌<◌, ◌↔◌, ◌≤◌, ◌^◌, ℕ, [], length, remove, Some, None, false, true};
ghost use Rattle.std.specs.Prelude.{IfErr, IfOk, IfSome, IsOk, IsTrue, OnOk, Err, List};
ghost use Rattle.base_types.specs.declared.ids.Node.TheVariants.{Server as IsServer};
ghost use Rattle.hub_board.specs.declared.given.Given.TheVariants.{Message as Came};
ghost use Rattle.hub_board.specs.declared.given.Turned.TheVariants.{Ended, Idle, Worked};
ghost use Rattle.hub_laws.specs.Keeping.{Round, lapse_in, message_in};
ghost use Rattle.hub_node.specs.Nodes.{Beginning, Part, part_of};
ghost use Rattle.hub_node.specs.declared.node.NodeFault.TheVariants.{Memory, Store as StoreFailed};
ghost use Rattle.message_types.specs.Soundness.{Each, IsSound};
ghost use Rattle.message_types.specs.declared.message.Message.{Message as MessageOf};
ghost use Rattle.message_types.specs.declared.message.Direction.TheVariants.{ToServer};
ghost use Rattle.run_rules.specs.Past.{In};
ghost use Rattle.run_rules.specs.Plans.{receiver};
ghost use Rattle.run_rules.specs.Steps.{lines_of};
ghost use Rattle.script_lines.specs.Sound.{same_node};
ghost use Rattle.script_lines.specs.declared.script.Deed.TheVariants.{Restart as Restarts};
ghost use Rattle.server_exporter.specs.Machines.{IsNew, IsNoRestart, IsRestart};
ghost use Rattle.server_exporter.specs.ExporterFault.TheVariants.{Store as OfStore};
ghost use Rattle.server_exporter.specs.Acts.{IsLimited};
ghost use Rattle.server_exporter.specs.Gathering.{AreGives};
ghost use Rattle.server_exporter.specs.Keepers.{GoesOn, IsDoneFor};
ghost use Rattle.server_node.specs.Standing.{
  AreIn,
  AreTheirs,
  CanServe,
  HasAllOf,
  HasFailed,
  HasServed,
  IsFor,
  IsGiveBackTo,
  IsReady,
};
ghost use Rattle.server_node.specs.Standing.{NextIs, Stands, StandsAt, StandsSo, WasGiven, latest_first};
ghost use Rattle.store_acts.specs.Acts.{state_after};
ghost use Rattle.server_tables.specs.Listing.{is_alone};

use base_types::{Items, NoMemory, Node as NodeId, ServerId};
use hub_node::{Node, NodeFault, OwnLines};
use hub_turns::{Given, Pending, Turned};
use message_types::{Body, Direction, Message};
use run_rules::Step;
use script_lines::{Deed, Script};
use server_exporter::{Exporter, ExporterFault, GIVES_MAX, Keeper, store_all};
use std::alloc::Global;
use store_memory::{Act, Store};

/// A server: its machine, its store and its lines. Give-backs for which no want waits are taken together, up to
/// `GIVES_MAX` of them, so that all are stored at once.
pub struct ServerNode<'a, S> {
    exporter: Exporter,
    keeper: Keeper<S>,
    lines: OwnLines<'a>,
    /// The give-backs that came and weren't taken yet, in their order.
    inbox: Items<Message>,
}

impl<'a, S: Drop> Drop for ServerNode<'a, S> {
    fn drop(self) {
        let ServerNode {
            exporter: _,
            keeper: _,
            lines: _,
            inbox: _,
        } = self;
    }
}

// A machine that has done nothing, and the lines of its server.
fn machine_of(
    alloc: Global,
    script: &Script,
    server: ServerId,
    epoch: u64,
) -> Result<(Exporter, OwnLines<'_>), NoMemory>
    ensures machine { IfOk result (λ r. IsNew r.0 server epoch script.now.roster) }
    ensures lines { IfOk result
        (λ r. r.1 ≡ record { lines = lines_of script.now (IsServer server); gone = 0; told = None }) }
{
    let exporter = Exporter::new(alloc, server, epoch, &script.roster)?;
    let lines = OwnLines::new(script, NodeId::Server(server))?;
    Ok((exporter, lines))
}

// Whether a line makes the server restart.
fn is_restart(deed: &Deed) -> bool
    ensures { IsTrue result ↔ (deed.now ≡ Restarts) }
{
    matches!(deed, Deed::Restart)
}

impl<'a, S: Store + Drop> ServerNode<'a, S> {
    /// A server of a script before its first step, over its store, which has begun the run. The only error is that
    /// memory ran out; then the store comes back.
    pub fn new(script: &'a Script, server: ServerId, store: S) -> Result<ServerNode<'a, S>, S>
        requires ready { (S.view store).ready }
        requires mendable { (S.view store).mendable }
        requires wear { (S.view store).wear ≤ 2 ^ 46 }
        ensures store { IfOk result (λ n. n.keeper.store ≡ store) }
        ensures back { IfErr result (λ back. back ≡ store) }
        ensures stands { IfOk result (λ n. (run : Beginning) → run.script ≡ script.now
            → CanServe S.tells run server (S.view store)
            → Stands S.tells S.view (part_of run (IsServer server)) n [] []) }
    {
        let alloc = script.lines.alloc();
        let epoch = store.epoch();
        let inbox = Items::new(alloc);
        match machine_of(alloc, script, server, epoch) {
            Ok((exporter, lines)) => Ok(ServerNode {
                exporter,
                keeper: Keeper::new(store),
                lines,
                inbox,
            }),
            Err(NoMemory) => Err(store),
        }
    }

    /// Its store.
    pub fn into_store(self) -> S
        ensures { result ≡ self.entry.keeper.store }
    {
        let ServerNode {
            exporter,
            keeper,
            lines,
            inbox,
        } = self;
        drop(exporter);
        drop(lines);
        drop(inbox);
        keeper.into_store()
    }

    // Decides what is left, until nothing is.
    fn settle(&mut self, steps: &mut Pending) -> Result<(), NodeFault>
        requires ready { IsReady S.tells S.view self.old }
        ensures ready { OnOk result (IsReady S.tells S.view self.new) }
        ensures rested { OnOk result (self.new.exporter.rested ≡ true) }
        ensures works { (part : Part) (past : List Round) (came : List MessageOf) (lapses : ℕ)
            → StandsSo S.tells S.view part self.old past steps.old.steps came lapses
            → OnOk result (StandsSo S.tells S.view part self.new past steps.new.steps came lapses) }
        ensures inbox { self.new.inbox ≡ self.old.inbox }
        ensures went { S.tells → (came : List MessageOf) → HasAllOf came self.old
            → GoesOn came (S.view self.old.keeper.store) (S.view self.new.keeper.store) }
        ensures all { S.tells → (came : List MessageOf) → HasAllOf came self.old
            → OnOk result (HasAllOf came self.new) }
        ensures stays { HasServed S.tells S.view self.old self.new }
        ensures failed { result ≡ Err StoreFailed → HasFailed S.tells S.view self.old self.new }
    {
        for _ in 0..u64::MAX {
            if self.exporter.is_rested() {
                return Ok(());
            }
            match self.settle_once(steps) {
                Ok(()) => {}
                Err(fault) => return Err(fault),
            }
        }
        Err(NodeFault::Memory)
    }

    // Decides what is left, in a step of its own.
    fn settle_once(&mut self, steps: &mut Pending) -> Result<(), NodeFault>
        requires ready { IsReady S.tells S.view self.old }
        ensures ready { OnOk result (IsReady S.tells S.view self.new) }
        ensures works { (part : Part) (past : List Round) (came : List MessageOf) (lapses : ℕ)
            → StandsSo S.tells S.view part self.old past steps.old.steps came lapses
            → OnOk result (StandsSo S.tells S.view part self.new past steps.new.steps came lapses) }
        ensures inbox { self.new.inbox ≡ self.old.inbox }
        ensures went { S.tells → (came : List MessageOf) → HasAllOf came self.old
            → GoesOn came (S.view self.old.keeper.store) (S.view self.new.keeper.store) }
        ensures all { S.tells → (came : List MessageOf) → HasAllOf came self.old
            → OnOk result (HasAllOf came self.new) }
        ensures stays { HasServed S.tells S.view self.old self.new }
        ensures failed { result ≡ Err StoreFailed → HasFailed S.tells S.view self.old self.new }
    {
        let made = self.exporter.settle(&mut self.keeper);
        push_made(steps, made)
    }

    // Takes what was given.
    fn take(&mut self, given: Given, steps: &mut Pending) -> Result<(), NodeFault>
        requires ready { IsReady S.tells S.view self.old }
        requires rested { self.old.exporter.rested ≡ true }
        requires given { IsFor self.old.exporter.tables given }
        ensures ready { OnOk result (IsReady S.tells S.view self.new) }
        ensures works { (part : Part) (past : List Round) → StandsSo S.tells S.view part self.old past steps.old.steps
            (message_in (Some given)) (lapse_in (Some given)) → WasGiven past given
            → OnOk result (StandsSo S.tells S.view part self.new past steps.new.steps [] 0) }
        ensures inbox { self.new.inbox ≡ self.old.inbox }
        ensures went { S.tells → (came : List MessageOf) → HasAllOf came self.old → AreIn came (message_in (Some given))
            → GoesOn came (S.view self.old.keeper.store) (S.view self.new.keeper.store) }
        ensures all { S.tells → (came : List MessageOf) → HasAllOf came self.old → AreIn came (message_in (Some given))
            → OnOk result (HasAllOf came self.new) }
        ensures stays { HasServed S.tells S.view self.old self.new }
        ensures failed { result ≡ Err StoreFailed → HasFailed S.tells S.view self.old self.new }
    {
        match given {
            Given::Begun => Ok(()),
            Given::Raised(flag) => {
                self.lines.tell(flag);
                Ok(())
            }
            Given::Message(message) => self.hear(message, steps),
            Given::Lapse => self.repeat(steps),
        }
    }

    // A message comes. Filesets don't move between servers yet: what another server says is let go.
    fn hear(&mut self, message: Message, steps: &mut Pending) -> Result<(), NodeFault>
        requires ready { IsReady S.tells S.view self.old }
        requires rested { self.old.exporter.rested ≡ true }
        requires sound { IsSound self.old.exporter.tables.roster message }
        requires own { same_node (receiver message) (IsServer self.old.exporter.tables.server) ≡ true }
        ensures ready { OnOk result (IsReady S.tells S.view self.new) }
        ensures works { (part : Part) (past : List Round)
            → StandsSo S.tells S.view part self.old past steps.old.steps (message ∷ []) 0
            → OnOk result (StandsSo S.tells S.view part self.new past steps.new.steps [] 0) }
        ensures inbox { self.new.inbox ≡ self.old.inbox }
        ensures went { S.tells → (came : List MessageOf) → HasAllOf came self.old → In message came
            → GoesOn came (S.view self.old.keeper.store) (S.view self.new.keeper.store) }
        ensures all { S.tells → (came : List MessageOf) → HasAllOf came self.old → In message came
            → OnOk result (HasAllOf came self.new) }
        ensures stays { HasServed S.tells S.view self.old self.new }
        ensures failed { result ≡ Err StoreFailed → HasFailed S.tells S.view self.old self.new }
    {
        if is_to_server(&message) {
            let made = self.exporter.take(&mut self.keeper, message);
            return push_made(steps, made);
        }
        drop(message);
        Ok(())
    }

    // It is time to send again what was sent in vain.
    fn repeat(&mut self, steps: &mut Pending) -> Result<(), NodeFault>
        requires ready { IsReady S.tells S.view self.old }
        requires rested { self.old.exporter.rested ≡ true }
        ensures ready { OnOk result (IsReady S.tells S.view self.new) }
        ensures works { (part : Part) (past : List Round)
            → StandsSo S.tells S.view part self.old past steps.old.steps [] 1
            → OnOk result (StandsSo S.tells S.view part self.new past steps.new.steps [] 0) }
        ensures inbox { self.new.inbox ≡ self.old.inbox }
        ensures went { S.tells → (came : List MessageOf) → HasAllOf came self.old
            → GoesOn came (S.view self.old.keeper.store) (S.view self.new.keeper.store) }
        ensures all { S.tells → (came : List MessageOf) → HasAllOf came self.old
            → OnOk result (HasAllOf came self.new) }
        ensures stays { HasServed S.tells S.view self.old self.new }
        ensures failed { result ≡ Err StoreFailed → HasFailed S.tells S.view self.old self.new }
    {
        let made = self.exporter.lapse();
        push_sent(steps, made)
    }

    // The next line goes, where it can.
    fn go(&mut self, steps: &mut Pending) -> Result<(), NodeFault>
        requires ready { IsReady S.tells S.view self.old }
        requires rested { self.old.exporter.rested ≡ true }
        ensures ready { OnOk result (IsReady S.tells S.view self.new) }
        ensures works { (part : Part) (past : List Round)
            → StandsSo S.tells S.view part self.old past steps.old.steps [] 0
            → OnOk result (StandsSo S.tells S.view part self.new past steps.new.steps [] 0) }
        ensures inbox { self.new.inbox ≡ self.old.inbox }
        ensures went { S.tells → (came : List MessageOf) → HasAllOf came self.old
            → GoesOn came (S.view self.old.keeper.store) (S.view self.new.keeper.store) }
        ensures all { S.tells → (came : List MessageOf) → HasAllOf came self.old
            → OnOk result (HasAllOf came self.new) }
        ensures stays { HasServed S.tells S.view self.old self.new }
        ensures failed { result ≡ Err StoreFailed → HasFailed S.tells S.view self.old self.new }
    {
        let Some(line) = self.lines.next() else {
            return Ok(());
        };
        let number = line.number;
        if is_restart(&line.deed) {
            self.restart(number, steps)
        } else {
            self.pass(number, steps)
        }
    }

    // The next line goes, of this number: the server restarts.
    fn restart(&mut self, number: u32, steps: &mut Pending) -> Result<(), NodeFault>
        requires ready { IsReady S.tells S.view self.old }
        requires next { NextIs IsRestart self.old.lines number }
        ensures ready { OnOk result (IsReady S.tells S.view self.new) }
        ensures works { (part : Part) (past : List Round)
            → StandsSo S.tells S.view part self.old past steps.old.steps [] 0
            → OnOk result (StandsSo S.tells S.view part self.new past steps.new.steps [] 0) }
        ensures inbox { self.new.inbox ≡ self.old.inbox }
        ensures went { S.tells → (came : List MessageOf) → HasAllOf came self.old
            → GoesOn came (S.view self.old.keeper.store) (S.view self.new.keeper.store) }
        ensures all { S.tells → (came : List MessageOf) → HasAllOf came self.old
            → OnOk result (HasAllOf came self.new) }
        ensures stays { HasServed S.tells S.view self.old self.new }
        ensures failed { result ≡ Err StoreFailed → HasFailed S.tells S.view self.old self.new }
    {
        let made = self.exporter.restart(&mut self.keeper, number);
        self.lines.go();
        push_made(steps, made)
    }

    // The next line goes, of this number, and nothing else happens.
    fn pass(&mut self, number: u32, steps: &mut Pending) -> Result<(), NodeFault>
        requires ready { IsReady S.tells S.view self.old }
        requires rested { self.old.exporter.rested ≡ true }
        requires next { NextIs IsNoRestart self.old.lines number }
        ensures ready { OnOk result (IsReady S.tells S.view self.new) }
        ensures works { (part : Part) (past : List Round)
            → StandsSo S.tells S.view part self.old past steps.old.steps [] 0
            → OnOk result (StandsSo S.tells S.view part self.new past steps.new.steps [] 0) }
        ensures inbox { self.new.inbox ≡ self.old.inbox }
        ensures went { S.tells → (came : List MessageOf) → HasAllOf came self.old
            → GoesOn came (S.view self.old.keeper.store) (S.view self.new.keeper.store) }
        ensures all { S.tells → (came : List MessageOf) → HasAllOf came self.old
            → OnOk result (HasAllOf came self.new) }
        ensures stays { HasServed S.tells S.view self.old self.new }
        ensures failed { result ≡ Err StoreFailed → HasFailed S.tells S.view self.old self.new }
    {
        let step = self.exporter.line(number);
        self.lines.go();
        push(steps, step)
    }

    // Takes what was given, if anything was, and decides what is left then.
    fn take_given(&mut self, given: Option<Given>, steps: &mut Pending) -> Result<(), NodeFault>
        requires ready { IsReady S.tells S.view self.old }
        requires rested { self.old.exporter.rested ≡ true }
        requires given { IfSome given (IsFor self.old.exporter.tables) }
        ensures ready { OnOk result (IsReady S.tells S.view self.new) }
        ensures rested { OnOk result (self.new.exporter.rested ≡ true) }
        ensures works { (part : Part) (past : List Round) → StandsSo S.tells S.view part self.old past steps.old.steps
            (message_in given) (lapse_in given) → IfSome given (WasGiven past)
            → OnOk result (StandsSo S.tells S.view part self.new past steps.new.steps [] 0) }
        ensures inbox { self.new.inbox ≡ self.old.inbox }
        ensures went { S.tells → (came : List MessageOf) → HasAllOf came self.old → AreIn came (message_in given)
            → GoesOn came (S.view self.old.keeper.store) (S.view self.new.keeper.store) }
        ensures all { S.tells → (came : List MessageOf) → HasAllOf came self.old → AreIn came (message_in given)
            → OnOk result (HasAllOf came self.new) }
        ensures stays { HasServed S.tells S.view self.old self.new }
        ensures failed { result ≡ Err StoreFailed → HasFailed S.tells S.view self.old self.new }
    {
        let Some(given) = given else {
            return Ok(());
        };
        match self.take(given, steps) {
            Ok(()) => self.settle(steps),
            Err(fault) => Err(fault),
        }
    }

    // Takes what was given, if anything was, and lets the next line go; and decides what is left each time.
    fn take_rest(&mut self, given: Option<Given>, steps: &mut Pending) -> Result<(), NodeFault>
        requires ready { IsReady S.tells S.view self.old }
        requires rested { self.old.exporter.rested ≡ true }
        requires given { IfSome given (IsFor self.old.exporter.tables) }
        ensures ready { OnOk result (IsReady S.tells S.view self.new) }
        ensures rested { OnOk result (self.new.exporter.rested ≡ true) }
        ensures works { (part : Part) (past : List Round) → StandsSo S.tells S.view part self.old past steps.old.steps
            (message_in given) (lapse_in given) → IfSome given (WasGiven past)
            → OnOk result (StandsSo S.tells S.view part self.new past steps.new.steps [] 0) }
        ensures inbox { self.new.inbox ≡ self.old.inbox }
        ensures went { S.tells → (came : List MessageOf) → HasAllOf came self.old → AreIn came (message_in given)
            → GoesOn came (S.view self.old.keeper.store) (S.view self.new.keeper.store) }
        ensures all { S.tells → (came : List MessageOf) → HasAllOf came self.old → AreIn came (message_in given)
            → OnOk result (HasAllOf came self.new) }
        ensures stays { HasServed S.tells S.view self.old self.new }
        ensures failed { result ≡ Err StoreFailed → HasFailed S.tells S.view self.old self.new }
    {
        match self.take_given(given, steps) {
            Ok(()) => self.go_on(steps),
            Err(fault) => Err(fault),
        }
    }

    // Lets the next line go, where it can, and decides what is left then.
    fn go_on(&mut self, steps: &mut Pending) -> Result<(), NodeFault>
        requires ready { IsReady S.tells S.view self.old }
        requires rested { self.old.exporter.rested ≡ true }
        ensures ready { OnOk result (IsReady S.tells S.view self.new) }
        ensures rested { OnOk result (self.new.exporter.rested ≡ true) }
        ensures works { (part : Part) (past : List Round)
            → StandsSo S.tells S.view part self.old past steps.old.steps [] 0
            → OnOk result (StandsSo S.tells S.view part self.new past steps.new.steps [] 0) }
        ensures inbox { self.new.inbox ≡ self.old.inbox }
        ensures went { S.tells → (came : List MessageOf) → HasAllOf came self.old
            → GoesOn came (S.view self.old.keeper.store) (S.view self.new.keeper.store) }
        ensures all { S.tells → (came : List MessageOf) → HasAllOf came self.old
            → OnOk result (HasAllOf came self.new) }
        ensures stays { HasServed S.tells S.view self.old self.new }
        ensures failed { result ≡ Err StoreFailed → HasFailed S.tells S.view self.old self.new }
    {
        match self.go(steps) {
            Ok(()) => self.settle(steps),
            Err(fault) => Err(fault),
        }
    }

    // Takes a turn: a give-back for which no want waits is kept till others have come or nothing comes; before anything
    // else those that were kept are taken.
    fn take_turn(&mut self, given: Option<Given>, steps: &mut Pending) -> Result<(), NodeFault>
        requires ready { IsReady S.tells S.view self.old }
        requires rested { self.old.exporter.rested ≡ true }
        requires theirs { AreTheirs self.old.exporter.tables self.old.inbox }
        requires given { IfSome given (IsFor self.old.exporter.tables) }
        ensures ready { OnOk result (IsReady S.tells S.view self.new) }
        ensures rested { OnOk result (self.new.exporter.rested ≡ true) }
        ensures theirs { OnOk result (AreTheirs self.new.exporter.tables self.new.inbox) }
        ensures works { (part : Part) (past : List Round) → StandsSo S.tells S.view part self.old past steps.old.steps
            (message_in given ++ latest_first self.old.inbox) (lapse_in given) → IfSome given (WasGiven past)
            → OnOk result (StandsSo S.tells S.view part self.new past steps.new.steps (latest_first self.new.inbox) 0) }
        ensures went { S.tells → (came : List MessageOf) → HasAllOf came self.old → AreIn came (message_in given)
            → GoesOn came (S.view self.old.keeper.store) (S.view self.new.keeper.store) }
        ensures all { S.tells → (came : List MessageOf) → HasAllOf came self.old → AreIn came (message_in given)
            → OnOk result (HasAllOf came self.new) }
        ensures stays { HasServed S.tells S.view self.old self.new }
        ensures failed { result ≡ Err StoreFailed → HasFailed S.tells S.view self.old self.new }
    {
        if self.may_keep(&given) {
            return self.keep(given, steps);
        }
        match self.take_kept(steps) {
            Ok(()) => self.take_rest(given, steps),
            Err(fault) => Err(fault),
        }
    }

    // Whether a give-back came that may be kept for a while.
    fn may_keep(&self, given: &Option<Given>) -> bool
        ensures { IsTrue result → IsGiveBackTo given.now }
    {
        if !self.exporter.is_free() {
            return false;
        }
        match given {
            Some(Given::Message(message)) => is_give_back(message),
            _ => false,
        }
    }

    // A give-back that came is kept, behind those that were; where there is no room these are taken first.
    fn keep(&mut self, given: Option<Given>, steps: &mut Pending) -> Result<(), NodeFault>
        requires ready { IsReady S.tells S.view self.old }
        requires rested { self.old.exporter.rested ≡ true }
        requires theirs { AreTheirs self.old.exporter.tables self.old.inbox }
        requires given { IfSome given (IsFor self.old.exporter.tables) }
        requires back { IsGiveBackTo given }
        ensures ready { OnOk result (IsReady S.tells S.view self.new) }
        ensures rested { OnOk result (self.new.exporter.rested ≡ true) }
        ensures theirs { OnOk result (AreTheirs self.new.exporter.tables self.new.inbox) }
        ensures works { (part : Part) (past : List Round) → StandsSo S.tells S.view part self.old past steps.old.steps
            (message_in given ++ latest_first self.old.inbox) (lapse_in given)
            → OnOk result (StandsSo S.tells S.view part self.new past steps.new.steps (latest_first self.new.inbox) 0) }
        ensures went { S.tells → (came : List MessageOf) → HasAllOf came self.old → AreIn came (message_in given)
            → GoesOn came (S.view self.old.keeper.store) (S.view self.new.keeper.store) }
        ensures all { S.tells → (came : List MessageOf) → HasAllOf came self.old → AreIn came (message_in given)
            → OnOk result (HasAllOf came self.new) }
        ensures stays { HasServed S.tells S.view self.old self.new }
        ensures failed { result ≡ Err StoreFailed → HasFailed S.tells S.view self.old self.new }
    {
        match self.make_room(steps) {
            Ok(()) => self.put(given),
            Err(fault) => Err(fault),
        }
    }

    // Takes the give-backs that were kept, where there is no room for one more.
    fn make_room(&mut self, steps: &mut Pending) -> Result<(), NodeFault>
        requires ready { IsReady S.tells S.view self.old }
        requires rested { self.old.exporter.rested ≡ true }
        requires theirs { AreTheirs self.old.exporter.tables self.old.inbox }
        ensures ready { OnOk result (IsReady S.tells S.view self.new) }
        ensures rested { OnOk result (self.new.exporter.rested ≡ true) }
        ensures theirs { OnOk result (AreTheirs self.new.exporter.tables self.new.inbox) }
        ensures works { (part : Part) (past : List Round) (came : List MessageOf) (lapses : ℕ)
            → StandsSo S.tells S.view part self.old past steps.old.steps (came ++ latest_first self.old.inbox) lapses
            → OnOk result (StandsSo S.tells S.view part self.new past steps.new.steps
            (came ++ latest_first self.new.inbox) lapses) }
        ensures went { S.tells → (came : List MessageOf) → HasAllOf came self.old
            → GoesOn came (S.view self.old.keeper.store) (S.view self.new.keeper.store) }
        ensures all { S.tells → (came : List MessageOf) → HasAllOf came self.old
            → OnOk result (HasAllOf came self.new) }
        ensures stays { HasServed S.tells S.view self.old self.new }
        ensures failed { result ≡ Err StoreFailed → HasFailed S.tells S.view self.old self.new }
    {
        let is_full = self.inbox.len() >= GIVES_MAX;
        if !is_full {
            return Ok(());
        }
        self.take_kept(steps)
    }

    // A message that came is kept, to be taken later.
    fn put(&mut self, given: Option<Given>) -> Result<(), NodeFault>
        requires { IsGiveBackTo given }
        ensures rest { self.new ≡ record self.old { inbox = self.new.inbox } }
        ensures kept { (message : MessageOf) → given ≡ Some (Came message)
            → OnOk result (self.new.inbox ≡ self.old.inbox ++ message ∷ []) }
        ensures err { IfErr result (λ fault. fault ≡ Memory) }
    {
        let Some(Given::Message(message)) = given else {
            return Ok(());
        };
        match self.inbox.push(message) {
            Ok(()) => Ok(()),
            Err(NoMemory) => Err(NodeFault::Memory),
        }
    }

    // Takes the give-backs that were kept, in their order, and stores what they bring at once.
    fn take_kept(&mut self, steps: &mut Pending) -> Result<(), NodeFault>
        requires ready { IsReady S.tells S.view self.old }
        requires rested { self.old.exporter.rested ≡ true }
        requires theirs { AreTheirs self.old.exporter.tables self.old.inbox }
        ensures ready { OnOk result (IsReady S.tells S.view self.new) }
        ensures rested { OnOk result (self.new.exporter.rested ≡ true) }
        ensures inbox { OnOk result (self.new.inbox ≡ []) }
        ensures works { (part : Part) (past : List Round) (came : List MessageOf) (lapses : ℕ)
            → StandsSo S.tells S.view part self.old past steps.old.steps (came ++ latest_first self.old.inbox) lapses
            → OnOk result (StandsSo S.tells S.view part self.new past steps.new.steps came lapses) }
        ensures went { S.tells → (came : List MessageOf) → HasAllOf came self.old
            → GoesOn came (S.view self.old.keeper.store) (S.view self.new.keeper.store) }
        ensures all { S.tells → (came : List MessageOf) → HasAllOf came self.old
            → OnOk result (HasAllOf came self.new) }
        ensures stays { HasServed S.tells S.view self.old self.new }
        ensures failed { result ≡ Err StoreFailed → HasFailed S.tells S.view self.old self.new }
    {
        let mut waiting = Items::new(self.inbox.alloc());
        while !self.inbox.is_empty() {
            match self.gather_next(&mut waiting, steps) {
                Ok(()) => {}
                Err(fault) => return Err(fault),
            }
        }
        self.store(&mut waiting)
    }

    // Takes the first that was kept. What it brings may wait to be stored, where no Change is left to be decided.
    fn gather_next(
        &mut self,
        waiting: &mut Items<Act>,
        steps: &mut Pending,
    ) -> Result<(), NodeFault>
        requires some { 0 < length self.old.inbox }
        requires ready { IsReady S.tells S.view self.old }
        requires rested { self.old.exporter.rested ≡ true }
        requires theirs { AreTheirs self.old.exporter.tables self.old.inbox }
        requires gives { AreGives (S.view self.old.keeper.store).state waiting.old }
        ensures ready { OnOk result (IsReady S.tells S.view self.new) }
        ensures rested { OnOk result (self.new.exporter.rested ≡ true) }
        ensures inbox { OnOk result (self.new.inbox ≡ remove self.old.inbox 0) }
        ensures gives { OnOk result (AreGives (S.view self.new.keeper.store).state waiting.new) }
        ensures works { (part : Part) (past : List Round) (came : List MessageOf) (lapses : ℕ)
            → (S.tells → IsLimited (S.view self.old.keeper.store).state)
            → StandsAt S.tells S.view (state_after (S.view self.old.keeper.store).state waiting.old) part self.old past
            steps.old.steps (came ++ latest_first self.old.inbox) lapses
            → OnOk result ((S.tells → IsLimited (S.view self.new.keeper.store).state)
            × StandsAt S.tells S.view (state_after (S.view self.new.keeper.store).state waiting.new) part self.new past
            steps.new.steps (came ++ latest_first self.new.inbox) lapses) }
        ensures went { S.tells → (came : List MessageOf) → HasAllOf came self.old → Each (IsDoneFor came) waiting.old
            → GoesOn came (S.view self.old.keeper.store) (S.view self.new.keeper.store) }
        ensures all { S.tells → (came : List MessageOf) → HasAllOf came self.old → Each (IsDoneFor came) waiting.old
            → OnOk result (HasAllOf came self.new) }
        ensures done_for { (came : List MessageOf) → AreIn came self.old.inbox
            → Each (IsDoneFor came) waiting.old → OnOk result (Each (IsDoneFor came) waiting.new) }
        ensures stays { HasServed S.tells S.view self.old self.new }
        ensures failed { result ≡ Err StoreFailed → HasFailed S.tells S.view self.old self.new }
    {
        match self.gather(waiting, steps) {
            Ok(()) => self.settle_gathered(waiting, steps),
            Err(fault) => Err(fault),
        }
    }

    // Stores what waits, where a Change is left to be decided, and decides what is left.
    fn settle_gathered(
        &mut self,
        waiting: &mut Items<Act>,
        steps: &mut Pending,
    ) -> Result<(), NodeFault>
        requires ready { IsReady S.tells S.view self.old }
        requires gives { AreGives (S.view self.old.keeper.store).state waiting.old }
        ensures ready { OnOk result (IsReady S.tells S.view self.new) }
        ensures rested { OnOk result (self.new.exporter.rested ≡ true) }
        ensures inbox { self.new.inbox ≡ self.old.inbox }
        ensures gives { OnOk result (AreGives (S.view self.new.keeper.store).state waiting.new) }
        ensures works { (part : Part) (past : List Round) (came : List MessageOf) (lapses : ℕ)
            → (S.tells → IsLimited (S.view self.old.keeper.store).state)
            → StandsAt S.tells S.view (state_after (S.view self.old.keeper.store).state waiting.old) part self.old past
            steps.old.steps came lapses
            → OnOk result ((S.tells → IsLimited (S.view self.new.keeper.store).state)
            × StandsAt S.tells S.view (state_after (S.view self.new.keeper.store).state waiting.new) part self.new past
            steps.new.steps came lapses) }
        ensures went { S.tells → (came : List MessageOf) → HasAllOf came self.old → Each (IsDoneFor came) waiting.old
            → GoesOn came (S.view self.old.keeper.store) (S.view self.new.keeper.store) }
        ensures all { S.tells → (came : List MessageOf) → HasAllOf came self.old → Each (IsDoneFor came) waiting.old
            → OnOk result (HasAllOf came self.new) }
        ensures done_for { (came : List MessageOf)
            → Each (IsDoneFor came) waiting.old → OnOk result (Each (IsDoneFor came) waiting.new) }
        ensures stays { HasServed S.tells S.view self.old self.new }
        ensures failed { result ≡ Err StoreFailed → HasFailed S.tells S.view self.old self.new }
    {
        if self.exporter.is_rested() {
            return Ok(());
        }
        match self.store(waiting) {
            Ok(()) => self.settle(steps),
            Err(fault) => Err(fault),
        }
    }

    // Takes the first that was kept, where what it brings may wait to be stored.
    fn gather(&mut self, waiting: &mut Items<Act>, steps: &mut Pending) -> Result<(), NodeFault>
        requires some { 0 < length self.old.inbox }
        requires ready { IsReady S.tells S.view self.old }
        requires rested { self.old.exporter.rested ≡ true }
        requires theirs { AreTheirs self.old.exporter.tables self.old.inbox }
        requires gives { AreGives (S.view self.old.keeper.store).state waiting.old }
        ensures ready { OnOk result (IsReady S.tells S.view self.new) }
        ensures inbox { self.new.inbox ≡ remove self.old.inbox 0 }
        ensures gives { OnOk result (AreGives (S.view self.new.keeper.store).state waiting.new) }
        ensures works { (part : Part) (past : List Round) (came : List MessageOf) (lapses : ℕ)
            → (S.tells → IsLimited (S.view self.old.keeper.store).state)
            → StandsAt S.tells S.view (state_after (S.view self.old.keeper.store).state waiting.old) part self.old past
            steps.old.steps (came ++ latest_first self.old.inbox) lapses
            → OnOk result ((S.tells → IsLimited (S.view self.new.keeper.store).state)
            × StandsAt S.tells S.view (state_after (S.view self.new.keeper.store).state waiting.new) part self.new past
            steps.new.steps (came ++ latest_first self.new.inbox) lapses) }
        ensures went { S.tells → (came : List MessageOf) → HasAllOf came self.old → Each (IsDoneFor came) waiting.old
            → GoesOn came (S.view self.old.keeper.store) (S.view self.new.keeper.store) }
        ensures all { S.tells → (came : List MessageOf) → HasAllOf came self.old → Each (IsDoneFor came) waiting.old
            → OnOk result (HasAllOf came self.new) }
        ensures done_for { (came : List MessageOf) → AreIn came self.old.inbox
            → Each (IsDoneFor came) waiting.old → OnOk result (Each (IsDoneFor came) waiting.new) }
        ensures stays { HasServed S.tells S.view self.old self.new }
        ensures failed { result ≡ Err StoreFailed → HasFailed S.tells S.view self.old self.new }
    {
        let message = self.inbox.remove(0);
        let made = self.exporter.gather(&mut self.keeper, waiting, message);
        push_made(steps, made)
    }

    // Stores what waits, and then nothing does.
    fn store(&mut self, waiting: &mut Items<Act>) -> Result<(), NodeFault>
        requires ready { IsReady S.tells S.view self.old }
        requires gives { AreGives (S.view self.old.keeper.store).state waiting.old }
        ensures rest { self.new ≡ record self.old { keeper = self.new.keeper } }
        ensures ready { OnOk result (IsReady S.tells S.view self.new) }
        ensures none { OnOk result (waiting.new ≡ []) }
        ensures state { S.tells → IsLimited (S.view self.old.keeper.store).state → OnOk result
            ((S.view self.new.keeper.store).state ≡ state_after (S.view self.old.keeper.store).state waiting.old) }
        ensures went { S.tells → (came : List MessageOf) → Each (IsDoneFor came) waiting.old
            → GoesOn came (S.view self.old.keeper.store) (S.view self.new.keeper.store) }
        ensures stays { HasServed S.tells S.view self.old self.new }
        ensures failed { result ≡ Err StoreFailed → HasFailed S.tells S.view self.old self.new }
    {
        fault_of(store_all(&mut self.keeper, waiting))
    }

    // What came of a turn: something was given or made, or all is done, or neither.
    fn turned(&self, came: bool, steps: &Pending) -> Turned
        ensures quiet { (result ≡ Worked → ⊥) → (came ≡ false) × (steps.now.steps ≡ []) }
        ensures gone { result ≡ Ended → length self.now.lines.lines ≤ self.now.lines.gone }
        ensures alone { result ≡ Ended → is_alone self.now.exporter.tables.hosts ≡ true }
        ensures undone { result ≡ Idle → length self.now.lines.lines ≤ self.now.lines.gone
            → is_alone self.now.exporter.tables.hosts ≡ true → ⊥ }
    {
        if came || !steps.as_slice().is_empty() {
            return Turned::Worked;
        }
        if self.lines.are_gone() && self.exporter.is_alone() {
            return Turned::Ended;
        }
        Turned::Idle
    }
}

// Whether a host says it to a server.
fn is_to_server(message: &Message) -> bool
    ensures { IsTrue result ↔ (message.now.direction ≡ ToServer) }
{
    matches!(message.direction, Direction::ToServer)
}

// Whether a host gives something back to a server by it.
fn is_give_back(message: &Message) -> bool
    ensures { IsTrue result → message.now.direction ≡ ToServer }
{
    is_to_server(message) && matches!(message.body, Body::GiveBack(_))
}

// What a node answers where its machine has tried its store.
fn fault_of(tried: Result<(), ExporterFault>) -> Result<(), NodeFault>
    ensures ok { OnOk result (IsOk tried) }
    ensures err { result ≡ Err StoreFailed → tried ≡ Err OfStore }
{
    match tried {
        Ok(()) => Ok(()),
        Err(ExporterFault::Store) => Err(NodeFault::Store),
        Err(ExporterFault::Memory) => Err(NodeFault::Memory),
    }
}

// The step that a machine has made is handed in next.
fn push_made(steps: &mut Pending, made: Result<Step, ExporterFault>) -> Result<(), NodeFault>
    ensures made { OnOk result (IsOk made) }
    ensures ok { IfOk made (λ step. OnOk result (steps.new.steps ≡ steps.old.steps ++ step ∷ [])) }
    ensures err { result ≡ Err StoreFailed → made ≡ Err OfStore }
{
    match made {
        Ok(step) => push(steps, step),
        Err(ExporterFault::Store) => Err(NodeFault::Store),
        Err(ExporterFault::Memory) => Err(NodeFault::Memory),
    }
}

// The same of one that asks nothing of its store.
fn push_sent(steps: &mut Pending, made: Result<Step, NoMemory>) -> Result<(), NodeFault>
    ensures made { OnOk result (IsOk made) }
    ensures ok { IfOk made (λ step. OnOk result (steps.new.steps ≡ steps.old.steps ++ step ∷ [])) }
    ensures err { IfErr result (λ fault. fault ≡ Memory) }
{
    match made {
        Ok(step) => push(steps, step),
        Err(NoMemory) => Err(NodeFault::Memory),
    }
}

fn push(steps: &mut Pending, step: Step) -> Result<(), NodeFault>
    ensures ok { OnOk result (steps.new.steps ≡ steps.old.steps ++ step ∷ []) }
    ensures err { IfErr result (λ fault. fault ≡ Memory) }
{
    let reserved = steps.reserve(1);
    let pushed = steps.push(step);
    if reserved.is_err() || pushed.is_err() {
        return Err(NodeFault::Memory);
    }
    Ok(())
}

impl<'a, S: Store + Drop> Node for ServerNode<'a, S> {
    ghost use Rattle.server_node.specs.Standing.{HasBroken, HasFailedBy, HasServed, Stands};
    ghost use Rattle.hub_node.specs.Lines.{next_number};
    ghost use Rattle.server_node.specs.Laws.{fails_on, hands_in, lacks, stays_on, stays_so};

    ghost tells = { S.tells };

    ghost stands = { Stands S.tells S.view };

    ghost stays = { HasServed S.tells S.view };

    ghost failed = { HasFailedBy S.tells S.view };

    ghost broken = { HasBroken S.tells S.view };

    ghost next = { λ n. next_number n.lines };

    fn waiting(&self) -> Option<u32> {
        self.lines.waiting()
    }

    fn work(&mut self, given: Option<Given>, steps: &mut Pending) -> Result<Turned, NodeFault> {
        let came = given.is_some();
        match self.take_turn(given, steps) {
            Ok(()) => Ok(self.turned(came, steps)),
            Err(fault) => Err(fault),
        }
    }

    ghost hands_in = { hands_in S.tells S.view };

    ghost stays_so = { stays_so S.tells S.view };

    ghost stays_on = { stays_on S.tells S.view };

    ghost fails_on = { fails_on S.tells S.view };

    ghost lacks = { lacks S.tells S.view };
}
