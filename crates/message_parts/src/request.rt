use crate::number::push_number;
use crate::part::{Part, Stopped};
use crate::place::bits_at;
use base_types::{FilesetId, Items, NoMemory};
use message_types::{AppliedGive, Outstanding};
use std::alloc::Global;
use tree_calls::Record;

impl Part for Outstanding {
    const BYTES_MIN: usize = 24;

    ghost use Rattle.message_parts.specs.Requests.{spell_outstanding, outstanding_at};

    ghost spelled = { spell_outstanding };

    ghost reading = { outstanding_at };

    #[tactic(auto, unfolding(crate::specs::Requests::spell_outstanding))]
    fn write(&self, out: &mut Items<u8>) -> Result<(), NoMemory> {
        self.fileset.write(out)?;
        self.moves.write(out)?;
        self.give.write(out)?;
        self.change.write(out)
    }

    #[tactic(auto, unfolding(crate::specs::Requests::outstanding_at))]
    fn read(alloc: Global, bytes: &[u8]) -> Result<(Outstanding, &[u8]), Stopped> {
        let (fileset, rest) = FilesetId::read(alloc, bytes)?;
        let (moves, rest) = u32::read(alloc, rest)?;
        let (give, rest) = u64::read(alloc, rest)?;
        let (change, rest) = u64::read(alloc, rest)?;
        Ok((
            Outstanding {
                fileset,
                moves,
                give,
                change,
            },
            rest,
        ))
    }
}

impl Part for AppliedGive {
    const BYTES_MIN: usize = 12;

    ghost use Rattle.message_parts.specs.Requests.{spell_applied, applied_at};

    ghost spelled = { spell_applied };

    ghost reading = { applied_at };

    #[tactic(auto, unfolding(crate::specs::Requests::spell_applied))]
    fn write(&self, out: &mut Items<u8>) -> Result<(), NoMemory> {
        self.fileset.write(out)?;
        self.number.write(out)
    }

    #[tactic(auto, unfolding(crate::specs::Requests::applied_at))]
    fn read(alloc: Global, bytes: &[u8]) -> Result<(AppliedGive, &[u8]), Stopped> {
        let (fileset, rest) = FilesetId::read(alloc, bytes)?;
        let (number, rest) = u64::read(alloc, rest)?;
        Ok((AppliedGive { fileset, number }, rest))
    }
}

impl Part for Record {
    const BYTES_MIN: usize = 18;

    ghost use Rattle.message_parts.specs.Requests.{spell_record, record_at};

    ghost spelled = { spell_record };

    ghost reading = { record_at };

    #[tactic(auto, unfolding(crate::specs::Requests::spell_record, crate::specs::Spelled::number))]
    fn write(&self, out: &mut Items<u8>) -> Result<(), NoMemory> {
        self.change.write(out)?;
        self.give.write(out)?;
        self.code.write(out)?;
        push_number(out, 1, self.right as u64)
    }

    #[tactic(auto, unfolding(crate::specs::Requests::record_at))]
    fn read(alloc: Global, bytes: &[u8]) -> Result<(Record, &[u8]), Stopped> {
        let (change, rest) = u64::read(alloc, bytes)?;
        let (give, rest) = u64::read(alloc, rest)?;
        let (code, rest) = u8::read(alloc, rest)?;
        let (right, rest) = bits_at(rest)?;
        Ok((
            Record {
                change,
                give,
                code,
                right,
            },
            rest,
        ))
    }
}
