//! Laws of the record of a store on a disk. Each function does nothing, and what it ensures is a law.
ghost use Rattle.store_records.specs.Laws.{ActsKeepStorable, NewIsStorable};

/// A new store has a record that a disk can have, and acts leave one that fit, bring names, and name other servers.
pub fn acts_law()
    ensures acts { ActsKeepStorable }
    ensures new { NewIsStorable }
{}
