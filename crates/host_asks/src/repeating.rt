//! What a host sends again at a lapse.
ghost use Rattle.std.specs.Prelude.{◌≡◌, fold, OnOk};
ghost use Rattle.host_leaves.specs.Sending.{filesets_given, sending_give};
ghost use Rattle.host_asks.specs.Claiming.{claiming_again, helloing, parting_again, repeating};

use crate::claiming::claim;
use base_types::{FilesetId, NoMemory};
use host_leaves::{given_filesets, say, send_give, send_request};
use host_tables::{Draft, Site, Tables};
use message_types::Body;

/// Sends again all that is outstanding. The only error is that memory ran out.
pub fn repeat_all(tables: &Tables, draft: &mut Draft) -> Result<(), NoMemory>
    ensures { OnOk result (draft.new ≡ repeating tables.now draft.old) }
{
    repeat_hellos(tables, draft)?;
    repeat_gives(tables, draft)?;
    repeat_claims(tables, draft)?;
    send_request(tables, draft)?;
    repeat_byes(tables, draft)
}

fn repeat_hellos(tables: &Tables, draft: &mut Draft) -> Result<(), NoMemory>
    ensures { OnOk result (draft.new ≡ fold (helloing tables.now) draft.old tables.now.sites) }
{
    for site in tables.sites.as_slice() {
        repeat_hello(tables, draft, *site)?;
    }
    Ok(())
}

fn repeat_hello(tables: &Tables, draft: &mut Draft, site: Site) -> Result<(), NoMemory>
    ensures { OnOk result (draft.new ≡ helloing tables.now draft.old site) }
{
    if site.greeted && !site.welcome {
        return say(tables, draft, site.server, Body::Hello);
    }
    Ok(())
}

fn repeat_gives(tables: &Tables, draft: &mut Draft) -> Result<(), NoMemory>
    ensures { OnOk result (draft.new
        ≡ fold (sending_give tables.now) draft.old (filesets_given tables.now.gives.gives)) }
{
    let filesets = given_filesets(tables)?;
    give_again(tables, draft, filesets.as_slice())
}

// Sends the outstanding give-backs of some filesets.
fn give_again(tables: &Tables, draft: &mut Draft, filesets: &[FilesetId]) -> Result<(), NoMemory>
    ensures { OnOk result (draft.new ≡ fold (sending_give tables.now) draft.old filesets.now) }
{
    for fileset in filesets {
        send_give(tables, draft, *fileset)?;
    }
    Ok(())
}

fn repeat_claims(tables: &Tables, draft: &mut Draft) -> Result<(), NoMemory>
    ensures { OnOk result (draft.new ≡ fold (claiming_again tables.now) draft.old tables.now.sites) }
{
    for site in tables.sites.as_slice() {
        repeat_claim(tables, draft, *site)?;
    }
    Ok(())
}

fn repeat_claim(tables: &Tables, draft: &mut Draft, site: Site) -> Result<(), NoMemory>
    ensures { OnOk result (draft.new ≡ claiming_again tables.now draft.old site) }
{
    if site.claimed {
        return claim(tables, draft, site.server);
    }
    Ok(())
}

fn repeat_byes(tables: &Tables, draft: &mut Draft) -> Result<(), NoMemory>
    ensures { OnOk result (draft.new ≡ fold (parting_again tables.now) draft.old tables.now.sites) }
{
    for site in tables.sites.as_slice() {
        repeat_bye(tables, draft, *site)?;
    }
    Ok(())
}

fn repeat_bye(tables: &Tables, draft: &mut Draft, site: Site) -> Result<(), NoMemory>
    ensures { OnOk result (draft.new ≡ parting_again tables.now draft.old site) }
{
    if site.said_bye && !site.has_bye {
        return say(tables, draft, site.server, Body::Bye);
    }
    Ok(())
}
