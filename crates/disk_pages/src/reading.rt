// What pages say.
ghost use Rattle.std.specs.Prelude.{◌≡◌, ◌<◌, ◌*◌, IfOk, IfErr};
ghost use Rattle.disk_log.specs.Log.{IsSoundLog};
ghost use Rattle.disk_log.specs.Contents.{Reads, contents_of, page_in};
ghost use Rattle.disk_log.specs.declared.fault.LogFault.TheVariants.{Failed as DiskFailed};
ghost use Rattle.disk_pages.specs.Server.{server_of as facts_in};
ghost use Rattle.disk_pages.specs.Numbers.{record_at as record_there};

use crate::numbers::record_at;
use crate::server::{ServerFacts, server_of};
use base_types::Disk;
use disk_layout::PAGE;
use disk_log::{Log, LogFault};
use tree_calls::Record;

// The page of the server.
const SERVER_PAGE: u32 = 0;

/// The facts of the server. The only error is `Failed`.
pub fn facts_of<D: Disk>(log: &mut Log<D>) -> Result<ServerFacts, LogFault>
    requires sound { IsSoundLog D.tells D.view log.old }
    ensures reads { Reads D.tells D.view result log.old log.new }
    ensures facts { D.tells → IfOk result (λ facts. facts ≡ facts_in (page_in (contents_of D.view log.old) 0)) }
    ensures only { IfErr result (λ fault. fault ≡ DiskFailed) }
{
    let mut page = [0; PAGE];
    log.page(SERVER_PAGE, &mut page)?;
    Ok(server_of(&page))
}

/// What is kept of a host, 0 to 16. `page` has call numbers. The only error is `Failed`.
pub fn record_of<D: Disk>(log: &mut Log<D>, page: u32, host: u8) -> Result<Record, LogFault>
    requires sound { IsSoundLog D.tells D.view log.old }
    requires page { page < 1058 }
    requires host { host < 17 }
    ensures reads { Reads D.tells D.view result log.old log.new }
    ensures kept { D.tells
        → IfOk result (λ kept. kept ≡ record_there (24 * host) (page_in (contents_of D.view log.old) page)) }
    ensures only { IfErr result (λ fault. fault ≡ DiskFailed) }
{
    let mut bytes = [0; PAGE];
    log.page(page, &mut bytes)?;
    Ok(record_at(&bytes, host))
}
