//! What ties a run of the plain engine to the stores of servers: each function does nothing, and what it ensures is a
//! law.
ghost use Rattle.service_stores.specs.Laws.{GeneratedIsSayable, HaveServers, ReadIsSayable, RunsMayHappen};

/// A run of a script is a history that stores can keep: from a tree at rest on, where no server keeps room, each host
/// stores at once what it wrote and numbers its calls from 1, each call may be asked, and what is stored lies within a
/// file.
pub fn played_law()
    ensures { RunsMayHappen }
{}

/// Each call of a script that is read can be said.
#[tactic(auto, using(crate::proofs::Read::read_is_sayable))]
pub fn read_law()
    ensures { ReadIsSayable }
{}

/// A script that is read for so many disks has at least as many servers.
#[tactic(auto, using(crate::proofs::Read::have_servers))]
pub fn servers_law()
    ensures { HaveServers }
{}

/// Each call of a script that is generated can be said.
#[tactic(auto, using(crate::proofs::Generated::generated_is_sayable))]
pub fn generated_law()
    ensures { GeneratedIsSayable }
{}
