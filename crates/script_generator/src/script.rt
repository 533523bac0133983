ghost use Rattle.std.specs.Prelude.{◌≡◌, ◌≤◌, [], ◌∷◌, None, codes, replicate, IfOk};
ghost use Rattle.base_types.specs.declared.limits.TheConstants.{CACHED_TOKENS_DEFAULT, CAPACITY_DEFAULT, HOSTS_MAX};
ghost use Rattle.tree_calls.specs.declared.roster.Roster.{Roster as RosterOf};
ghost use Rattle.script_lines.specs.Headers.{setup_line};
ghost use Rattle.script_lines.specs.Sound.{IsSound};
ghost use Rattle.script_reader.specs.Walk.{stuck_at};
ghost use Rattle.script_generator.specs.declared.script.TheConstants.{CALLS_MAX};
ghost use Rattle.script_generator.specs.Workload.{owner, roster_of, setup_of, generated};

use crate::calls::name_of;
use crate::lines::lines_of;
use base_types::{
    CACHED_TOKENS_DEFAULT, CAPACITY_DEFAULT, HostId, Items, NoMemory, Node, OBJECTS_MAX, ServerId,
    User,
};
use script_lines::{Deed, Line, Script};
use std::alloc::Global;
use tree_calls::{Call, HostLine, Roster};

/// Calls that a host of the generated workload makes, at most.
pub const CALLS_MAX: u32 = 400;

fn owner(alloc: Global) -> Result<User, NoMemory>
    ensures { IfOk result (λ user. user ≡ owner) }
{
    let mut groups = Items::new(alloc);
    groups.push(name_of(alloc, b"g")?)?;
    Ok(User {
        name: name_of(alloc, b"u")?,
        groups,
    })
}

fn roster_of(alloc: Global, hosts: u8) -> Result<Roster, NoMemory>
    ensures { IfOk result (λ roster. roster ≡ roster_of hosts) }
{
    let host = HostLine {
        user: 0,
        limit: CACHED_TOKENS_DEFAULT,
    };
    let mut users = Items::new(alloc);
    users.push(owner(alloc)?)?;
    Ok(Roster {
        users,
        hosts: Items::from_vec(vec![in alloc; host; hosts as usize]?),
        capacity: Items::from_slice(alloc, &[CAPACITY_DEFAULT])?,
    })
}

fn setup_of(alloc: Global, number: u32) -> Result<Items<Line>, NoMemory>
    ensures { IfOk result (λ setup. setup ≡ setup_of number) }
{
    let call = Call::NewFileset {
        server: ServerId(1),
        name: name_of(alloc, b"work")?,
        objects: OBJECTS_MAX,
        owner: owner(alloc)?,
    };
    let mut setup = Items::new(alloc);
    setup.push(Line {
        number,
        node: Node::Host(HostId::SETUP),
        deed: Deed::Call(call),
    })?;
    Ok(setup)
}

/// The generated script of a seed, for so many hosts, each of which makes so many calls after the first lines. No host
/// reads what another writes, and in the file that all share each writes bytes of its own. The workload is this
/// project's own.
///
/// It keeps the limits of the service (`IsSound`), and its lines don't wait for one another.
#[tactic(auto, unfolding(crate::specs::Workload::generated))]
pub fn generate(alloc: Global, seed: u64, hosts: u8, calls: u32) -> Result<Script, NoMemory>
    requires some_hosts { 1 ≤ hosts }
    requires few_hosts { hosts ≤ HOSTS_MAX }
    requires some_calls { 1 ≤ calls }
    requires few_calls { calls ≤ CALLS_MAX }
    ensures value { IfOk result (λ script. script ≡ generated seed hosts calls) }
    ensures sound { IfOk result (λ script. IsSound script) }
    ensures goes { IfOk result (λ script. stuck_at script.lines ≡ None) }
{
    let first = u32::from(hosts) + 5;
    Ok(Script {
        servers: 1,
        roster: roster_of(alloc, hosts)?,
        setup: setup_of(alloc, first - 2)?,
        plan: Items::new(alloc),
        net: None,
        lines: lines_of(alloc, first, seed, hosts, calls)?,
    })
}
