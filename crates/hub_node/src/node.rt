ghost use Rattle.std.specs.Prelude.{◌≡◌, [], ◌∷◌, ℕ, List, None, Option, Ok, IfErr, IfOk, OnErr, OnOk};
ghost use Rattle.hub_board.specs.declared.given.Turned.TheVariants.{Ended, Idle, Worked};
ghost use Rattle.run_rules.specs.declared.step.Step.{Step as StepOf};
ghost use Rattle.hub_laws.specs.Keeping.{Round, steps_in};
ghost use Rattle.hub_node.specs.Nodes.{HandsIn, IsDone, IsGivenTo, Knows, Part};
ghost use Rattle.hub_node.specs.declared.node.NodeFault.{NodeFault as FaultOf};
ghost use Rattle.hub_node.specs.declared.node.NodeFault.TheVariants.{Memory};

use hub_turns::{Given, Pending, Turned};

/// Why a node can't go on.
#[derive(Clone, Copy, PartialEq, Eq)]
pub enum NodeFault {
    /// The disk of its store failed twice.
    Store,
    /// Memory ran out.
    Memory,
}

/// A node of a run: a host or a server. It has no hub and waits for nobody; who drives it takes its turns.
pub trait Node: Drop {
    /// Whether it is known what its store keeps, where it has one. If not, nothing is said of a server's rules.
    ghost tells: { Type 0 };

    /// In this part of a run it has taken what these rounds gave, the newest first, and made these steps since it
    /// handed any in.
    ghost stands: { Part → Self → List Round → List StepOf → Type 0 };

    /// What stays of a node as long as nothing fails there, from before to after.
    ghost stays: { Self → Self → Type 0 };

    /// What has become of a node where this failed, from before to after.
    ghost failed: { FaultOf → Self → Self → Type 0 };

    /// What has become of it in this part of a run where something failed in the newest of these rounds.
    ghost broken: { Part → Self → List Round → Type 0 };

    /// The number of its next line, where one is left.
    ghost next: { Self → Option ℕ };

    /// The number of its next line, where one is left.
    fn waiting(&self) -> Option<u32>
        ensures { result ≡ next self.now };

    /// Takes what was given, if anything was, and does what can be done; the steps that it makes are handed in at its
    /// next turn. It answers `Worked` wherever anything was given or made, `Ended` only where it is done by its own
    /// steps, and `Idle` only where it isn't.
    fn work(&mut self, given: Option<Given>, steps: &mut Pending) -> Result<Turned, NodeFault>
        requires none { steps.old.steps ≡ [] }
        requires stands { (part : Part) × ((past : List Round) × ((made : List StepOf)
            × (stands part self.old past made × IsGivenTo part given))) }
        ensures works { (part : Part) (past : List Round) (made : List StepOf) → stands part self.old past made
            → IsGivenTo part given
            → OnOk result (stands part self.new (record { steps = made; given = given } ∷ past) steps.new.steps) }
        ensures quiet { IfOk result (λ turned. (turned ≡ Worked → ⊥) → (given ≡ None) × (steps.new.steps ≡ [])) }
        ensures done { (part : Part) (past : List Round) (made : List StepOf) → stands part self.old past made
            → IsGivenTo part given → result ≡ Ok Ended → Knows tells part.node
            → IsDone part.run part.node (steps_in (record { steps = made; given = given } ∷ past)) }
        ensures undone { (part : Part) (past : List Round) (made : List StepOf) → stands part self.old past made
            → IsGivenTo part given → result ≡ Ok Idle → Knows tells part.node
            → IsDone part.run part.node (steps_in (record { steps = made; given = given } ∷ past)) → ⊥ }
        ensures stays { OnOk result (stays self.old self.new) }
        ensures failed { IfErr result (λ fault. failed fault self.old self.new) }
        ensures broken { (part : Part) (past : List Round) (made : List StepOf) → stands part self.old past made
            → IsGivenTo part given
            → OnErr result (broken part self.new (record { steps = made; given = given } ∷ past)) };

    /// It may hand in what it has made.
    ghost hands_in: { (n : Self) → HandsIn tells stands n };

    ghost stays_so: { (a : Self) → stays a a };

    ghost stays_on: { (a b c : Self) → stays a b → stays b c → stays a c };

    ghost fails_on: { (fault : FaultOf) (a b c : Self) → stays a b → failed fault b c → failed fault a c };

    /// Memory may run out before it does anything.
    ghost lacks: { (a : Self) → failed Memory a a };
}
