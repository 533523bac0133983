//! What a host knows of servers, filesets, calls and claims, and of what it has: the tables of its machine (Kazar et
//! al., "DEcorum File System Architectural Overview", 1990; the protocol is this project's own).
#![tactic(auto)]

mod calls;
mod draft;
mod files;
mod laws;
mod numbers;
mod sites;
mod tables;

pub use calls::{Home, Request, home_of, put_home};
pub use draft::{Draft, bare_step};
pub use files::{Floor, floor_of, put_floor};
pub use laws::{tables_laws, updates_law};
pub use numbers::{Changed, Fetched, next_change, next_fetch};
pub use sites::{Site, home, new_sites, put_site, site_at};
pub use tables::Tables;
