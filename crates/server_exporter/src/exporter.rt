ghost use Rattle.std.specs.Prelude.{◌≡◌, ◌↔◌, true, [], IfOk, IsTrue, List, OnOk};
ghost use Rattle.base_types.specs.declared.ids.Node.TheVariants.{Server};
ghost use Rattle.message_types.specs.Soundness.{Each};
ghost use Rattle.message_types.specs.declared.message.Message.{Message as MessageOf};
ghost use Rattle.run_rules.specs.Past.{In};
ghost use Rattle.run_rules.specs.Steps.{bare};
ghost use Rattle.run_rules.specs.declared.step.Cause.TheVariants.{Flushed, Lapse, Line, Message as Came, Restart};
ghost use Rattle.server_decides.specs.Acts.{IsLimited, epoch_begun};
ghost use Rattle.server_decides.specs.Gathering.{AreGives, IsStoredOrSame};
ghost use Rattle.server_decides.specs.Keepers.{GoesOn, HasTried, IsDoneFor, IsFit};
ghost use Rattle.server_tables.specs.Counting.{IsCounted};
ghost use Rattle.server_tables.specs.Sound.{AreSound};
ghost use Rattle.server_tables.specs.Updates.{begun};
ghost use Rattle.server_decides.specs.Messages.{IsFor};
ghost use Rattle.store_acts.specs.Acts.{state_after};
ghost use Rattle.store_state.specs.declared.state.StoreState.{StoreState};
ghost use Rattle.tree_answers.specs.declared.tree.Tree.{Tree};
ghost use Rattle.server_decides.specs.Hailing.{restarting};
ghost use Rattle.server_tables.specs.Listing.{is_alone};
ghost use Rattle.server_exporter.specs.Machines.{
  Follows,
  FollowsAlone,
  IsNew,
  IsNoRestart,
  IsRestart,
  IsSame,
  Keeps,
  Meets,
  MeetsAlone,
  MeetsOnLine,
  Says,
};
ghost use Rattle.server_decides.specs.Serving.{AreBrought, IsServed};

use crate::stepping::step_if_stored;
use base_types::{Items, NoMemory, ServerId};
use message_types::Message;
use run_rules::{Cause, Step};
use server_decides::{
    Draft, ExporterFault, Keeper, bare, begin_epoch, finish, hail_step, lapse_step,
    take_and_finish, take_or_gather,
};
use server_tables::Tables;
use std::alloc::Global;
use store_memory::{Act, Store};
use tree_calls::Roster;

/// A server's machine. Each call that answers a step has given the step's acts to the store, so that the step may enter
/// the journal at once, and its messages may leave.
///
/// A step may leave a Change that could be decided, as one does that ends a grace period: then `settle` is called until
/// none is left, and nothing else before that. After an error the machine takes nothing more.
pub struct Exporter {
    pub tables: Tables,
    /// Whether no Change is left that is to be decided.
    pub rested: bool,
}

impl Drop for Exporter {
    fn drop(self) {
        let Exporter {
            tables: _,
            rested: _,
        } = self;
    }
}

impl Exporter {
    /// The machine of a server that starts, in an epoch.
    pub fn new(
        alloc: Global,
        server: ServerId,
        epoch: u64,
        roster: &Roster,
    ) -> Result<Exporter, NoMemory>
        ensures { IfOk result (λ x. IsNew x server epoch roster.now) }
    {
        Ok(Exporter {
            tables: Tables::new(alloc, server, epoch, roster)?,
            rested: true,
        })
    }

    /// Whether no Change is left that could be decided. It takes no memory.
    pub fn is_rested(&self) -> bool
        ensures { result ≡ self.now.rested }
    {
        self.rested
    }

    /// Whether each host that came on its list is down or has ended. It takes no memory.
    pub fn is_alone(&self) -> bool
        ensures { result ≡ is_alone self.now.tables.hosts }
    {
        self.tables.hosts.is_alone()
    }

    /// Whether no want waits to be answered. It takes no memory.
    pub fn is_free(&self) -> bool
        ensures { IsTrue result ↔ (self.now.tables.pending ≡ []) }
    {
        self.tables.pending.is_empty()
    }

    /// Takes a message that is addressed to the server and sound.
    pub fn take<S: Store>(
        &mut self,
        keeper: &mut Keeper<S>,
        message: Message,
    ) -> Result<Step, ExporterFault>
        requires given { IsFor self.old.tables.server self.old.tables.roster message }
        requires rested { self.old.rested ≡ true }
        requires served { IsServed self.old.tables (S.view keeper.old.store).state }
        requires fit { IsFit (S.view keeper.old.store) keeper.old.left }
        ensures meets { S.tells → IfOk result (Meets (S.view keeper.old.store).state self.old) }
        ensures follows { S.tells → IfOk result (λ step.
            Follows (S.view keeper.old.store).state self.old step (S.view keeper.new.store).state self.new) }
        ensures cause { IfOk result (λ step. step.cause ≡ Came message) }
        ensures node { IfOk result (λ step. step.node ≡ Server self.old.tables.server) }
        ensures sends { AreSound self.old.tables → IfOk result (Says self.old.tables) }
        ensures served { OnOk result (IsServed self.new.tables (S.view keeper.new.store).state) }
        ensures same { OnOk result (IsSame self.old self.new) }
        ensures sound { AreSound self.old.tables → OnOk result (AreSound self.new.tables) }
        ensures tried { HasTried result (S.view keeper.old.store) (S.view keeper.new.store) keeper.new.left }
        ensures went { S.tells → (came : List MessageOf) → In message came → AreBrought came self.old.tables.pending
            → GoesOn came (S.view keeper.old.store) (S.view keeper.new.store) }
        ensures brought { S.tells → (came : List MessageOf) → In message came
            → AreBrought came self.old.tables.pending → OnOk result (AreBrought came self.new.tables.pending) }
    {
        let server = self.tables.server;
        let mut draft = Draft::new(self.tables.alloc());
        let made = take_and_finish(&mut self.tables, keeper, &mut draft, &message);
        let step = draft.into_step(server, Cause::Message(message));
        step_if_stored(&mut self.rested, made, step)
    }

    /// Takes a message as `take` does, but that what a give-back brings may wait to be stored, behind what waits
    /// already, up to `GIVES_MAX` of them: then its step may enter the journal, and its messages leave, once nothing
    /// waits. Where the store has to be asked what waits is stored first.
    pub fn gather<S: Store>(
        &mut self,
        keeper: &mut Keeper<S>,
        waiting: &mut Items<Act>,
        message: Message,
    ) -> Result<Step, ExporterFault>
        requires given { IsFor self.old.tables.server self.old.tables.roster message }
        requires rested { self.old.rested ≡ true }
        requires served { IsServed self.old.tables (S.view keeper.old.store).state }
        requires gives { AreGives (S.view keeper.old.store).state waiting.old }
        requires fit { IsFit (S.view keeper.old.store) keeper.old.left }
        ensures meets { S.tells → IsLimited (S.view keeper.old.store).state → IfOk result
            (Meets (state_after (S.view keeper.old.store).state waiting.old) self.old) }
        ensures follows { S.tells → IsLimited (S.view keeper.old.store).state → IfOk result (λ step.
            Follows (state_after (S.view keeper.old.store).state waiting.old) self.old step
            (state_after (S.view keeper.new.store).state waiting.new) self.new) }
        ensures cause { IfOk result (λ step. step.cause ≡ Came message) }
        ensures node { IfOk result (λ step. step.node ≡ Server self.old.tables.server) }
        ensures sends { AreSound self.old.tables → IfOk result (Says self.old.tables) }
        ensures served { OnOk result (IsServed self.new.tables (S.view keeper.new.store).state) }
        ensures gives { OnOk result (AreGives (S.view keeper.new.store).state waiting.new) }
        ensures stays { OnOk result
            (IsStoredOrSame S.tells (S.view keeper.old.store).state (S.view keeper.new.store).state waiting.new) }
        ensures same { OnOk result (IsSame self.old self.new) }
        ensures sound { AreSound self.old.tables → OnOk result (AreSound self.new.tables) }
        ensures tried { HasTried result (S.view keeper.old.store) (S.view keeper.new.store) keeper.new.left }
        ensures went { S.tells → (came : List MessageOf) → In message came → AreBrought came self.old.tables.pending
            → Each (IsDoneFor came) waiting.old
            → GoesOn came (S.view keeper.old.store) (S.view keeper.new.store) }
        ensures brought { S.tells → (came : List MessageOf) → In message came
            → AreBrought came self.old.tables.pending → OnOk result (AreBrought came self.new.tables.pending) }
        ensures waits { (came : List MessageOf) → In message came → Each (IsDoneFor came) waiting.old
            → OnOk result (Each (IsDoneFor came) waiting.new) }
    {
        let server = self.tables.server;
        let mut draft = Draft::new(self.tables.alloc());
        let made = take_or_gather(&mut self.tables, keeper, waiting, &mut draft, &message);
        let step = draft.into_step(server, Cause::Message(message));
        step_if_stored(&mut self.rested, made, step)
    }

    /// Decides what is left, in a step of its own, whose cause is that all is on the disk.
    pub fn settle<S: Store>(&mut self, keeper: &mut Keeper<S>) -> Result<Step, ExporterFault>
        requires served { IsServed self.old.tables (S.view keeper.old.store).state }
        requires fit { IsFit (S.view keeper.old.store) keeper.old.left }
        ensures meets { S.tells → IfOk result (Meets (S.view keeper.old.store).state self.old) }
        ensures follows { S.tells → IfOk result (λ step.
            Follows (S.view keeper.old.store).state self.old step (S.view keeper.new.store).state self.new) }
        ensures cause { IfOk result (λ step. step.cause ≡ Flushed) }
        ensures node { IfOk result (λ step. step.node ≡ Server self.old.tables.server) }
        ensures sends { AreSound self.old.tables → IfOk result (Says self.old.tables) }
        ensures served { OnOk result (IsServed self.new.tables (S.view keeper.new.store).state) }
        ensures same { OnOk result (IsSame self.old self.new) }
        ensures sound { AreSound self.old.tables → OnOk result (AreSound self.new.tables) }
        ensures tried { HasTried result (S.view keeper.old.store) (S.view keeper.new.store) keeper.new.left }
        ensures went { S.tells → (came : List MessageOf) → AreBrought came self.old.tables.pending
            → GoesOn came (S.view keeper.old.store) (S.view keeper.new.store) }
        ensures brought { S.tells → (came : List MessageOf) → AreBrought came self.old.tables.pending
            → OnOk result (AreBrought came self.new.tables.pending) }
    {
        let server = self.tables.server;
        let mut draft = Draft::new(self.tables.alloc());
        let made = finish(&mut self.tables, keeper, &mut draft);
        let step = draft.into_step(server, Cause::Flushed);
        step_if_stored(&mut self.rested, made, step)
    }

    /// Sends again what may be lost: that the server has restarted, and what was asked back. Nothing is stored.
    pub fn lapse(&mut self) -> Result<Step, NoMemory>
        requires rested { self.old.rested ≡ true }
        ensures meets { IfOk result (MeetsAlone self.old) }
        ensures follows { IfOk result (λ step. FollowsAlone self.old step self.new) }
        ensures cause { IfOk result (λ step. step.cause ≡ Lapse) }
        ensures node { IfOk result (λ step. step.node ≡ Server self.old.tables.server) }
        ensures sends { AreSound self.old.tables → IfOk result (Says self.old.tables) }
        ensures applied { IfOk result (λ step. step.applied ≡ []) }
        ensures served { (state : StoreState) → IsServed self.old.tables state
            → OnOk result (IsServed self.new.tables state) }
        ensures keeps { (tree : Tree) (state : StoreState) → Keeps self.old.tables tree state
            → OnOk result (Keeps self.new.tables tree state) }
        ensures brought { (came : List MessageOf) → AreBrought came self.old.tables.pending
            → OnOk result (AreBrought came self.new.tables.pending) }
        ensures same { OnOk result (IsSame self.old self.new) }
        ensures sound { AreSound self.old.tables → OnOk result (AreSound self.new.tables) }
    {
        lapse_step(&mut self.tables)
    }

    /// A line that isn't `restart` goes.
    pub fn line(&self, line: u32) -> Step
        requires rested { self.now.rested ≡ true }
        ensures step { result ≡ bare (Server self.now.tables.server) (Line line) }
        ensures sends { Says self.now.tables result }
        ensures meets { MeetsOnLine IsNoRestart line self.now result }
        ensures follows { FollowsAlone self.now result self.now }
    {
        bare(self.tables.alloc(), self.tables.server, Cause::Line(line))
    }

    /// A line `restart` goes: the epoch rises, and what belongs to an epoch is forgotten.
    pub fn restart<S: Store>(
        &mut self,
        keeper: &mut Keeper<S>,
        line: u32,
    ) -> Result<Step, ExporterFault>
        requires served { IsServed self.old.tables (S.view keeper.old.store).state }
        requires fit { IsFit (S.view keeper.old.store) keeper.old.left }
        ensures meets { IfOk result (MeetsOnLine IsRestart line self.old) }
        ensures follows { S.tells → IfOk result (λ step.
            Follows (S.view keeper.old.store).state self.old step (S.view keeper.new.store).state self.new) }
        ensures cause { IfOk result (λ step. step.cause ≡ Restart line) }
        ensures node { IfOk result (λ step. step.node ≡ Server self.old.tables.server) }
        ensures sends { AreSound self.old.tables → IfOk result (Says self.old.tables) }
        ensures served { OnOk result (IsServed self.new.tables (S.view keeper.new.store).state) }
        ensures same { OnOk result (IsSame self.old self.new) }
        ensures sound { AreSound self.old.tables → OnOk result (AreSound self.new.tables) }
        ensures tried { HasTried result (S.view keeper.old.store) (S.view keeper.new.store) keeper.new.left }
        ensures went { S.tells → (came : List MessageOf)
            → GoesOn came (S.view keeper.old.store) (S.view keeper.new.store) }
        ensures brought { (came : List MessageOf) → OnOk result (AreBrought came self.new.tables.pending) }
    {
        self.begin(keeper, line)
    }

    /// The next epoch begins, and each live host is told of it.
    fn begin<S: Store>(&mut self, keeper: &mut Keeper<S>, line: u32) -> Result<Step, ExporterFault>
        requires fit { IsFit (S.view keeper.old.store) keeper.old.left }
        ensures step { IfOk result (λ step. step ≡ restarting self.old.tables line) }
        ensures after { OnOk result (self.new ≡ record { tables = begun self.old.tables; rested = true }) }
        ensures state { S.tells → OnOk result ((S.view keeper.new.store).state
            ≡ epoch_begun (S.view keeper.old.store).state) }
        ensures counted { IsCounted self.old.tables → OnOk result (IsCounted self.new.tables) }
        ensures tried { HasTried result (S.view keeper.old.store) (S.view keeper.new.store) keeper.new.left }
        ensures went { S.tells → (came : List MessageOf)
            → GoesOn came (S.view keeper.old.store) (S.view keeper.new.store) }
    {
        self.tables.begin()?;
        self.rested = true;
        begin_epoch(keeper)?;
        Ok(hail_step(&self.tables, Cause::Restart(line))?)
    }
}
