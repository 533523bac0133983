ghost use Rattle.disk_layout.specs.Server.{IsNewServer};

use crate::numbers::{put_bytes, put_u32};
use crate::places::PAGE;

const FORMAT: u8 = 2;

/// The first server page of an aggregate without filesets: epoch 0, next fileset number 1 and format 2.
pub fn new_server_page() -> [u8; PAGE]
    ensures { IsNewServer result }
{
    let mut page = [0; PAGE];
    put_u32(&mut page, 8, 1);
    put_bytes(&mut page, 29, &[FORMAT]);
    page
}
