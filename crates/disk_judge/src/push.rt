// Faults that are found.
ghost use Rattle.std.specs.Prelude.{◌≡◌, ◌++◌, ℕ, List, OnOk};
ghost use Rattle.disk_image.specs.Anodes.{unless, unless_block};
ghost use Rattle.disk_judge.specs.Metadata.{IsSized, over};

use crate::metadata::Metadata;
use disk_image::{Fault, Rule};
use std::alloc::AllocError;

/// Adds the fault of a place where a test fails. The error is want of memory.
pub fn push_unless(
    faults: &mut Vec<Fault>,
    test: bool,
    place: u64,
    rule: Rule,
) -> Result<(), AllocError>
    ensures { OnOk result (faults.new.items ≡ faults.old.items ++ unless test place rule) }
{
    if !test {
        faults.push(Fault { place, rule })?;
    }
    Ok(())
}

/// Adds the fault of the block that a pointer names, where it names one and a test fails. The error is want of
/// memory.
pub fn push_unless_block(
    faults: &mut Vec<Fault>,
    metadata: &Metadata,
    pointer: u32,
    test: bool,
    rule: Rule,
) -> Result<(), AllocError>
    requires { IsSized metadata.now }
    ensures { OnOk result ((image : List ℕ)
        → faults.new.items ≡ faults.old.items ++ unless_block (over metadata.now image) pointer test rule) }
{
    if metadata.names_block(pointer) {
        push_unless(faults, test, metadata.block_place(pointer), rule)
    } else {
        Ok(())
    }
}
