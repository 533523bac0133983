//! Each function does nothing, and what it ensures is a law.
ghost use Rattle.server_keeps.specs.Acting.{DraftsStand, NumbersStay};
ghost use Rattle.server_keeps.specs.Asking.{ChangesAreTold};
ghost use Rattle.server_keeps.specs.Granting.{GrantsTell};
ghost use Rattle.server_keeps.specs.Repeating.{ActsAreSteady};

/// Why a Change is refused, and what it needs, can be read from the store: these are what the rules say on what the
/// server keeps.
pub fn ask_law()
    ensures { ChangesAreTold }
{}

/// A Grant that is made of what the store tells of the needs of its Fetch tells what the server keeps.
pub fn grant_law()
    ensures { GrantsTell }
{}

/// While a step is made its store keeps what the server keeps after what the step has applied so far, where each act is
/// given with what is applied; and the numbers that it keeps of requests stay below those that the server knows.
pub fn act_law()
    ensures drafts { DraftsStand }
    ensures numbers { NumbersStay }
{}

/// An act that a host asked for under a number, and that was done, changes nothing when it is given once more, and has
/// the same reply.
pub fn steady_law()
    ensures { ActsAreSteady }
{}
