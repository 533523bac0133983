//! A journal of two steps that is written, byte by byte: a call that a host answers from cache, with bytes that JSON
//! spells in each of its ways; and a give-back that ends a lock, which a server takes and answers.
#![tactic(auto)]

mod made;

use anyhow::{Result, bail};
use base_io::StdSink;
use made::journal;
use run_journal::write_journal;

fn main(rt: HostRuntime) -> Result<()> {
    let journal = journal(rt.alloc())?;
    let mut sink = StdSink::new(rt.stdout());
    if write_journal(rt.alloc(), &journal, &mut sink).is_err() {
        bail!("it wasn't written");
    }
    Ok(())
}
