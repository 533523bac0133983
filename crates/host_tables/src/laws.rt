ghost use Rattle.host_tables.specs.Asking.{FetchesMay};
ghost use Rattle.host_tables.specs.Causes.{RepliesMay};
ghost use Rattle.host_tables.specs.Giving.{GivesAreRight};
ghost use Rattle.host_tables.specs.Letting.{LeavesMay};
ghost use Rattle.host_tables.specs.Quiet.{QuietSettles};
ghost use Rattle.host_tables.specs.Sending.{MayAssembled};
ghost use Rattle.host_tables.specs.Settling.{SettlesRight};
ghost use Rattle.host_tables.specs.UpdateLaws.{ReadsAfter};

/// What a host's tables say is enough for each of these kinds of steps to do what it may: any, from what each of its
/// messages and tokens owes; one that answers a call, that asks for tokens, in which tokens leave; and after a step
/// that does what it may the tables that were changed by it stand, and so after one that is quiet.
pub fn tables_laws()
    ensures may { MayAssembled }
    ensures replies { RepliesMay }
    ensures fetches { FetchesMay }
    ensures gives { GivesAreRight }
    ensures leaves { LeavesMay }
    ensures settles { SettlesRight }
    ensures quiet { QuietSettles }
{}

/// What is read of a table once it has changed.
pub fn updates_law()
    ensures { ReadsAfter }
{}
