// Laws of the acts.
ghost use Rattle.disk_acts.specs.Laws.{ActsKeepTables, StaleActsChangeNothing};

/// Acts keep the sizes of a store's tables, and one that isn't done now leaves all as it is.
pub fn tables_law()
    ensures tables { ActsKeepTables }
    ensures stale { StaleActsChangeNothing }
{}
