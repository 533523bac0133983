ghost use Rattle.std.specs.Prelude.{◌≡◌, if◌then◌else◌, List, OnOk};
ghost use Rattle.message_types.specs.Soundness.{IsHost};
ghost use Rattle.message_types.specs.declared.message.Body.TheVariants.{Bye, Reclaimed as IsWelcome, Restarted};
ghost use Rattle.message_types.specs.declared.message.Message.{Message as MessageOf};
ghost use Rattle.run_rules.specs.ServerDue.{empty_reclaimed};
ghost use Rattle.server_looks.specs.Acts.{host_noted};
ghost use Rattle.server_looks.specs.Keepers.{GoesOn, HasTried, HasWord, IsFit};
ghost use Rattle.server_tables.specs.Counting.{IsCounted};
ghost use Rattle.server_tables.specs.Greetings.{welcoming};
ghost use Rattle.server_tables.specs.Updates.{gone_away};
ghost use Rattle.server_takes.specs.Taking.{bye_draft, bye_state, bye_tables, down_draft, down_tables};
ghost use Rattle.server_takes.specs.Taking.{ends_late, ends_now};
ghost use Rattle.server_takes.specs.Taking.{comes_new, hello_draft, hello_state};
ghost use Rattle.server_takes.specs.Taking.{hello_tables, is_late};
ghost use Rattle.store_state.specs.declared.state.HostState.TheVariants.{Ended, IsDown, Live};

use crate::draft::Draft;
use base_types::{HostId, Items, NoMemory};
use message_types::{Body, Reclaimed};
use run_rules::Applied;
use server_looks::{ExporterFault, Keeper, note_host};
use server_tables::Tables;
use std::alloc::Global;
use store_memory::{HostState, Store};

/// A host greets: it comes on the list, unless it came there before. One that came in an earlier epoch, and is live,
/// learns that the server has restarted.
pub(crate) fn take_hello<S: Store>(
    tables: &mut Tables,
    keeper: &mut Keeper<S>,
    draft: &mut Draft,
    host: HostId,
) -> Result<(), ExporterFault>
    requires counted { IsCounted tables.old }
    requires host { IsHost (S.view keeper.old.store).state.roster host }
    requires fit { IsFit (S.view keeper.old.store) keeper.old.left }
    ensures tables { OnOk result (tables.new ≡ hello_tables tables.old host) }
    ensures draft { OnOk result (draft.new ≡ hello_draft tables.old draft.old host) }
    ensures state { S.tells → OnOk result ((S.view keeper.new.store).state
        ≡ hello_state tables.old host (S.view keeper.old.store).state) }
    ensures counted { OnOk result (IsCounted tables.new) }
    ensures tried { HasTried result (S.view keeper.old.store) (S.view keeper.new.store) keeper.new.left }
    ensures went { S.tells → (came : List MessageOf) → HasWord came host
        → GoesOn came (S.view keeper.old.store) (S.view keeper.new.store) }
{
    let word = hello_word(tables.alloc(), is_late(tables, host));
    draft.say(tables, host, word)?;
    if !comes_new(tables, host) {
        return Ok(());
    }
    welcome(tables, keeper, host)
}

/// Whether a host that greets comes on the list.
fn comes_new(tables: &Tables, host: HostId) -> bool
    ensures { result ≡ comes_new tables.now host }
{
    !is_late(tables, host) && !tables.hosts.is_listed(host)
}

/// A host comes on the list.
fn welcome<S: Store>(
    tables: &mut Tables,
    keeper: &mut Keeper<S>,
    host: HostId,
) -> Result<(), ExporterFault>
    requires counted { IsCounted tables.old }
    requires host { IsHost (S.view keeper.old.store).state.roster host }
    requires fit { IsFit (S.view keeper.old.store) keeper.old.left }
    ensures tables { OnOk result (tables.new ≡ welcoming tables.old host) }
    ensures state { S.tells → OnOk result ((S.view keeper.new.store).state
        ≡ host_noted (S.view keeper.old.store).state host Live) }
    ensures counted { OnOk result (IsCounted tables.new) }
    ensures tried { HasTried result (S.view keeper.old.store) (S.view keeper.new.store) keeper.new.left }
    ensures went { S.tells → (came : List MessageOf) → HasWord came host
        → GoesOn came (S.view keeper.old.store) (S.view keeper.new.store) }
{
    note_host(keeper, host, HostState::Live)?;
    tables.welcome(host)?;
    Ok(())
}

/// Whether a live host came on the list in an earlier epoch.
fn is_late(tables: &Tables, host: HostId) -> bool
    ensures { result ≡ is_late tables.now host }
{
    tables.hosts.is_live(host) && !tables.hosts.is_listed_now(host)
}

/// What a host that greets is told.
fn hello_word(alloc: Global, late: bool) -> Body
    ensures { result ≡ (if late then Restarted else IsWelcome empty_reclaimed) }
{
    if late {
        Body::Restarted
    } else {
        Body::Reclaimed(Reclaimed {
            applied: Items::new(alloc),
            left_out: Items::new(alloc),
        })
    }
}

/// A host says that it ends.
pub(crate) fn take_bye<S: Store>(
    tables: &mut Tables,
    keeper: &mut Keeper<S>,
    draft: &mut Draft,
    host: HostId,
    epoch: u64,
) -> Result<(), ExporterFault>
    requires counted { IsCounted tables.old }
    requires host { IsHost (S.view keeper.old.store).state.roster host }
    requires fit { IsFit (S.view keeper.old.store) keeper.old.left }
    ensures tables { OnOk result (tables.new ≡ bye_tables tables.old host epoch) }
    ensures draft { OnOk result (draft.new ≡ bye_draft tables.old draft.old host epoch) }
    ensures state { S.tells → OnOk result ((S.view keeper.new.store).state
        ≡ bye_state tables.old host epoch (S.view keeper.old.store).state) }
    ensures counted { OnOk result (IsCounted tables.new) }
    ensures tried { HasTried result (S.view keeper.old.store) (S.view keeper.new.store) keeper.new.left }
    ensures went { S.tells → (came : List MessageOf) → HasWord came host
        → GoesOn came (S.view keeper.old.store) (S.view keeper.new.store) }
{
    let word = bye_word(ends_late(tables, host, epoch));
    draft.say(tables, host, word)?;
    if !ends_now(tables, host, epoch) {
        return Ok(());
    }
    end(tables, keeper, host)
}

/// Whether a live host says in this epoch that it ends.
fn ends_now(tables: &Tables, host: HostId, epoch: u64) -> bool
    ensures { result ≡ ends_now tables.now host epoch }
{
    tables.hosts.is_live(host) && epoch == tables.hosts.epoch
}

/// Whether a live host says in another epoch that it ends.
fn ends_late(tables: &Tables, host: HostId, epoch: u64) -> bool
    ensures { result ≡ ends_late tables.now host epoch }
{
    tables.hosts.is_live(host) && epoch != tables.hosts.epoch
}

/// What a host is told that says that it ends.
fn bye_word(late: bool) -> Body
    ensures { result ≡ (if late then Restarted else Bye) }
{
    if late { Body::Restarted } else { Body::Bye }
}

/// A live host ends.
fn end<S: Store>(
    tables: &mut Tables,
    keeper: &mut Keeper<S>,
    host: HostId,
) -> Result<(), ExporterFault>
    requires counted { IsCounted tables.old }
    requires host { IsHost (S.view keeper.old.store).state.roster host }
    requires fit { IsFit (S.view keeper.old.store) keeper.old.left }
    ensures tables { OnOk result (tables.new ≡ gone_away tables.old host) }
    ensures state { S.tells → OnOk result ((S.view keeper.new.store).state
        ≡ host_noted (S.view keeper.old.store).state host Ended) }
    ensures counted { OnOk result (IsCounted tables.new) }
    ensures tried { HasTried result (S.view keeper.old.store) (S.view keeper.new.store) keeper.new.left }
    ensures went { S.tells → (came : List MessageOf) → HasWord came host
        → GoesOn came (S.view keeper.old.store) (S.view keeper.new.store) }
{
    note_host(keeper, host, HostState::Ended)?;
    tables.go_away(host)?;
    Ok(())
}

/// The server learns that a host has stopped.
pub(crate) fn take_down<S: Store>(
    tables: &mut Tables,
    keeper: &mut Keeper<S>,
    draft: &mut Draft,
    host: HostId,
) -> Result<(), ExporterFault>
    requires counted { IsCounted tables.old }
    requires host { IsHost (S.view keeper.old.store).state.roster host }
    requires fit { IsFit (S.view keeper.old.store) keeper.old.left }
    ensures tables { OnOk result (tables.new ≡ down_tables tables.old host) }
    ensures draft { OnOk result (draft.new ≡ down_draft draft.old host) }
    ensures state { S.tells → OnOk result ((S.view keeper.new.store).state
        ≡ host_noted (S.view keeper.old.store).state host IsDown) }
    ensures counted { OnOk result (IsCounted tables.new) }
    ensures tried { HasTried result (S.view keeper.old.store) (S.view keeper.new.store) keeper.new.left }
    ensures went { S.tells → (came : List MessageOf) → HasWord came host
        → GoesOn came (S.view keeper.old.store) (S.view keeper.new.store) }
{
    note_host(keeper, host, HostState::IsDown)?;
    stop(tables, host)?;
    draft.applied.push(Applied::IsDown(host))?;
    Ok(())
}

/// A host has stopped, and goes away.
fn stop(tables: &mut Tables, host: HostId) -> Result<(), NoMemory>
    requires counted { IsCounted tables.old }
    ensures tables { OnOk result (tables.new ≡ down_tables tables.old host) }
    ensures counted { OnOk result (IsCounted tables.new) }
{
    tables.hosts.stop(host)?;
    tables.go_away(host)
}
