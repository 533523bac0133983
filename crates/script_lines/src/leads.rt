ghost use Rattle.std.specs.Prelude.{◌≡◌, Some, slice_get, IfOk, IfSome};
ghost use Rattle.script_lines.specs.Clones.{clone_place, placed_by};
ghost use Rattle.script_lines.specs.Leads.{way_from, goes_on, way_in, all_lead, steps_after, doubled, server_at_end};
ghost use Rattle.script_lines.specs.declared.leads.TheConstants.{DOUBLINGS};

use crate::clones::{CloneLine, Way, way_of};
use crate::context::Placed;
use base_types::{Items, Name, NoMemory, Plain, ServerId};
use std::alloc::Global;

/// How often steps are doubled: at last they are more than a script has lines.
pub(crate) const DOUBLINGS: usize = 14;

// One step from the source of a clone.
fn way_from(placed: &Items<Placed>, clones: &Items<CloneLine>, clone: usize) -> Way
    ensures { result ≡ way_from placed.now clones.now (slice_get clones.now clone) }
{
    match clones.at(clone) {
        Some(clone) => way_of(placed, clones, &clone.source),
        None => Way::Nowhere,
    }
}

// A way, and on from where it leads by a list of ways.
fn goes_on(way: Way, ways: &Items<Way>) -> Way
    ensures { result ≡ goes_on way (way_in ways.now) }
{
    match way {
        Way::Clone(clone) => way_in(ways, clone),
        way => way,
    }
}

fn way_in(ways: &Items<Way>, clone: usize) -> Way
    ensures { result ≡ way_in ways.now clone }
{
    match ways.at(clone) {
        Some(way) => *way,
        None => Way::Nowhere,
    }
}

#[tactic(auto, using(crate::proofs::Leading::ways_start, crate::proofs::Leading::ways_more, crate::proofs::Leading::ways_end))]
fn first_ways(
    alloc: Global,
    placed: &Items<Placed>,
    clones: &Items<CloneLine>,
) -> Result<Items<Way>, NoMemory>
    ensures { IfOk result (λ ways. ways ≡ all_lead 0 placed.now clones.now) }
{
    let mut ways = Items::new(alloc);
    for clone in 0..clones.len() {
        ways.push(way_from(placed, clones, clone))?;
    }
    Ok(ways)
}

// Twice as many steps.
#[tactic(auto, using(crate::proofs::Leading::doubled_start, crate::proofs::Leading::doubled_more, crate::proofs::Leading::doubled_end))]
fn doubled(alloc: Global, ways: &Items<Way>) -> Result<Items<Way>, NoMemory>
    ensures { IfOk result (λ more. more ≡ doubled ways.now) }
{
    let mut more = Items::new(alloc);
    for clone in 0..ways.len() {
        more.push(goes_on(way_in(ways, clone), ways))?;
    }
    Ok(more)
}

// Where the source of each clone leads, by more steps than a script has lines.
#[tactic(auto, using(crate::proofs::Leading::doubled_leads))]
fn all_ways(
    alloc: Global,
    placed: &Items<Placed>,
    clones: &Items<CloneLine>,
) -> Result<Items<Way>, NoMemory>
    ensures { IfOk result (λ ways. ways ≡ all_lead (steps_after DOUBLINGS) placed.now clones.now) }
{
    let mut ways = first_ways(alloc, placed, clones)?;
    for round in 0..DOUBLINGS {
        ways = doubled(alloc, &ways)?;
    }
    Ok(ways)
}

fn server_at_end(way: Way) -> Option<ServerId>
    ensures { result ≡ server_at_end way }
{
    match way {
        Way::At(server) => Some(server),
        _ => None,
    }
}

// The server to which the first clone of a name leads.
#[tactic(auto, using(crate::proofs::Leading::way_tells))]
fn led_to(
    placed: &Items<Placed>,
    clones: &Items<CloneLine>,
    ways: &Items<Way>,
    name: &Name,
) -> Option<ServerId>
    requires { ways.now ≡ all_lead (steps_after DOUBLINGS) placed.now clones.now }
    ensures { IfSome result (λ server. clone_place placed.now clones.now name.now ≡ Some server) }
{
    server_at_end(goes_on(way_of(placed, clones, name), ways))
}

/// The names that clones place, where the first clone of each leads to a server.
pub(crate) fn placed_at_once(
    alloc: Global,
    placed: &Items<Placed>,
    clones: &Items<CloneLine>,
) -> Result<Option<Items<Placed>>, NoMemory>
    ensures { IfOk result (λ led. IfSome led (λ more. more ≡ placed_by placed.now clones.now)) }
{
    let ways = all_ways(alloc, placed, clones)?;
    let mut more = Items::new(alloc);
    for clone in clones.as_slice() {
        let Some(server) = led_to(placed, clones, &ways, &clone.new) else {
            return Ok(None);
        };
        let name = clone.new.copy()?;
        more.push(Placed { name, server })?;
    }
    Ok(Some(more))
}
