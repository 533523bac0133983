// Whether all is well with each anode's page, and with each page of counts.
ghost use Rattle.std.specs.Prelude.{◌≡◌, ◌+◌, ◌/◌, ℕ, List, IfOk, length};
ghost use Rattle.disk_image.specs.Counts.{uses_of};
ghost use Rattle.disk_judge.specs.Metadata.{IsSized, over, plain};
ghost use Rattle.disk_judge.specs.Marks.{AreMarks};
ghost use Rattle.disk_judge.specs.Judged.{AreAnodesJudged, AreCountsJudged};

use crate::anode::is_slot_anode;
use crate::counts::{Mark, is_count_page};
use crate::metadata::Metadata;
use std::alloc::{AllocError, Global};

const ANODES: usize = 64;

const SLOTS: usize = 16;

const COUNTS: usize = 256;

/// For each anode of all slots, in their order, whether all is well with its page. The error is want of memory.
pub fn anodes_judged(alloc: Global, metadata: &Metadata) -> Result<Vec<bool>, AllocError>
    requires sized { IsSized metadata.now }
    ensures size { IfOk result (λ rights. length rights.items ≡ 1024) }
    ensures each { IfOk result (λ rights. AreAnodesJudged (plain metadata.now) rights.items) }
{
    let mut rights = Vec::new(alloc);
    for k in 0..ANODES * SLOTS {
        rights.push(is_slot_anode(metadata, k / ANODES, k % ANODES))?;
    }
    Ok(rights)
}

/// For each page of counts whether all is well with it, by the marks of all blocks. The error is want of memory.
pub fn counts_judged(
    alloc: Global,
    metadata: &Metadata,
    marks: &[Mark],
) -> Result<Vec<bool>, AllocError>
    requires sized { IsSized metadata.now }
    requires size { length marks.now ≡ metadata.now.blocks }
    ensures size { IfOk result (λ rights. length rights.items ≡ (metadata.now.blocks + 255) / 256) }
    ensures each { IfOk result (λ rights. (image : List ℕ)
        → AreMarks (uses_of (over metadata.now image)) metadata.now.blocks marks.now
        → AreCountsJudged (over metadata.now image) rights.items) }
{
    let mut rights = Vec::new(alloc);
    for p in 0..marks.len().div_ceil(COUNTS) {
        rights.push(is_count_page(metadata, marks, p))?;
    }
    Ok(rights)
}
