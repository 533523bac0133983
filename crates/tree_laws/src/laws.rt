//! Each function does nothing, and what it ensures is a law.
ghost use Rattle.std.specs.Prelude.{◌≡◌};
ghost use Rattle.tree_laws.specs.Fates.{PartsChangeSo};
ghost use Rattle.tree_laws.specs.Limits.{LimitsAre};
ghost use Rattle.tree_laws.specs.Promises.{PromisesAreSo};
ghost use Rattle.tree_laws.specs.Stores.{HostsStoreTheirOwn};
ghost use Rattle.tree_laws.specs.Uniques.{AllUniquesRise, RootsAreFirst};
ghost use Rattle.tree_laws.specs.Writes.{WritesChangeTheirSpans};

use base_types::HostId;

/// Each legal entry leaves of each part of each object of a well formed tree, also of one that isn't there, what its
/// fate says, as a function of what was kept and unsaved there before.
pub fn part_law()
    ensures { PartsChangeSo }
{}

/// A host may store exactly what is its own and unsaved. It is kept then, and no reader sees a change.
pub fn store_law()
    ensures { HostsStoreTheirOwn }
{}

/// The unique numbers of a fileset never fall, a new object's is above those before it at its anode, and that of the
/// root is 1.
pub fn unique_law()
    ensures rise { AllUniquesRise }
    ensures roots { RootsAreFirst }
{}

/// The blocks that filesets are promised.
pub fn promise_law()
    ensures { PromisesAreSo }
{}

/// The limits of the service, and the numbers of the setup host and of a server's exporter.
pub fn limit_law()
    ensures limits { LimitsAre }
    ensures setup { HostId.SETUP ≡ record { 0 = 0 } }
    ensures exporter { HostId.EXPORTER ≡ record { 0 = 17 } }
{}

/// A write changes one object at most, and of it the size and the bytes of its span. What is kept stays so.
pub fn write_law()
    ensures { WritesChangeTheirSpans }
{}
