use crate::number::{number_at, push_number, whole_at};
use crate::part::{Part, Stopped};
use base_types::{FilesetId, HostId, Items, NoMemory, ServerId};
use std::alloc::Global;

impl Part for u8 {
    const BYTES_MIN: usize = 1;

    ghost use Rattle.message_parts.specs.Words.{spell_u8, u8_at};

    ghost spelled = { spell_u8 };

    ghost reading = { u8_at };

    #[tactic(auto, unfolding(crate::specs::Words::spell_u8, crate::specs::Spelled::number))]
    fn write(&self, out: &mut Items<u8>) -> Result<(), NoMemory> {
        push_number(out, 1, *self as u64)
    }

    #[tactic(auto, unfolding(crate::specs::Words::u8_at))]
    fn read(_alloc: Global, bytes: &[u8]) -> Result<(u8, &[u8]), Stopped> {
        let (number, rest) = whole_at(bytes, 1)?;
        Ok((number as u8, rest))
    }
}

impl Part for u32 {
    const BYTES_MIN: usize = 4;

    ghost use Rattle.message_parts.specs.Words.{spell_u32, u32_at};

    ghost spelled = { spell_u32 };

    ghost reading = { u32_at };

    #[tactic(auto, unfolding(crate::specs::Words::spell_u32, crate::specs::Spelled::number))]
    fn write(&self, out: &mut Items<u8>) -> Result<(), NoMemory> {
        push_number(out, 4, *self as u64)
    }

    #[tactic(auto, unfolding(crate::specs::Words::u32_at))]
    fn read(_alloc: Global, bytes: &[u8]) -> Result<(u32, &[u8]), Stopped> {
        let (number, rest) = whole_at(bytes, 4)?;
        Ok((number as u32, rest))
    }
}

impl Part for u64 {
    const BYTES_MIN: usize = 8;

    ghost use Rattle.message_parts.specs.Words.{spell_u64, u64_at};

    ghost spelled = { spell_u64 };

    ghost reading = { u64_at };

    #[tactic(auto, unfolding(crate::specs::Words::spell_u64, crate::specs::Spelled::number))]
    fn write(&self, out: &mut Items<u8>) -> Result<(), NoMemory> {
        push_number(out, 8, *self)
    }

    #[tactic(auto, unfolding(crate::specs::Words::u64_at))]
    fn read(_alloc: Global, bytes: &[u8]) -> Result<(u64, &[u8]), Stopped> {
        whole_at(bytes, 8)
    }
}

impl Part for bool {
    const BYTES_MIN: usize = 1;

    ghost use Rattle.message_parts.specs.Words.{spell_flag, flag_at};

    ghost spelled = { spell_flag };

    ghost reading = { flag_at };

    #[tactic(auto, unfolding(crate::specs::Words::coded, crate::specs::Spelled::number))]
    fn write(&self, out: &mut Items<u8>) -> Result<(), NoMemory> {
        push_number(out, 1, if *self { 1 } else { 0 })
    }

    #[tactic(auto, unfolding(crate::specs::Words::coded_at))]
    fn read(_alloc: Global, bytes: &[u8]) -> Result<(bool, &[u8]), Stopped> {
        let (number, rest) = number_at(bytes, 1, 0, 1)?;
        Ok((number == 1, rest))
    }
}

impl Part for HostId {
    const BYTES_MIN: usize = 1;

    ghost use Rattle.message_parts.specs.Words.{spell_host, host_at};

    ghost spelled = { spell_host };

    ghost reading = { host_at };

    #[tactic(auto, unfolding(crate::specs::Words::coded, crate::specs::Spelled::number))]
    fn write(&self, out: &mut Items<u8>) -> Result<(), NoMemory> {
        push_number(out, 1, self.0 as u64)
    }

    #[tactic(auto, unfolding(crate::specs::Words::coded_at))]
    fn read(_alloc: Global, bytes: &[u8]) -> Result<(HostId, &[u8]), Stopped> {
        let (number, rest) = number_at(bytes, 1, 0, 17)?;
        Ok((HostId(number as u8), rest))
    }
}

impl Part for ServerId {
    const BYTES_MIN: usize = 1;

    ghost use Rattle.message_parts.specs.Words.{spell_server, server_at};

    ghost spelled = { spell_server };

    ghost reading = { server_at };

    #[tactic(auto, unfolding(crate::specs::Words::coded, crate::specs::Spelled::number))]
    fn write(&self, out: &mut Items<u8>) -> Result<(), NoMemory> {
        push_number(out, 1, self.0 as u64)
    }

    #[tactic(auto, unfolding(crate::specs::Words::coded_at))]
    fn read(_alloc: Global, bytes: &[u8]) -> Result<(ServerId, &[u8]), Stopped> {
        let (number, rest) = number_at(bytes, 1, 1, 4)?;
        Ok((ServerId(number as u8), rest))
    }
}

impl Part for FilesetId {
    const BYTES_MIN: usize = 4;

    ghost use Rattle.message_parts.specs.Words.{spell_fileset, fileset_at};

    ghost spelled = { spell_fileset };

    ghost reading = { fileset_at };

    #[tactic(auto, unfolding(crate::specs::Words::spell_fileset))]
    fn write(&self, out: &mut Items<u8>) -> Result<(), NoMemory> {
        self.0.write(out)
    }

    #[tactic(auto, unfolding(crate::specs::Words::fileset_at))]
    fn read(alloc: Global, bytes: &[u8]) -> Result<(FilesetId, &[u8]), Stopped> {
        let (number, rest) = u32::read(alloc, bytes)?;
        Ok((FilesetId(number), rest))
    }
}

impl<T: Part> Part for Option<T> {
    const BYTES_MIN: usize = 1;

    ghost use Rattle.message_parts.specs.Words.{spell_optional, optional_at};

    ghost spelled = { spell_optional T.spelled };

    ghost reading = { optional_at T.reading };

    #[tactic(auto, unfolding(crate::specs::Words::spell_optional))]
    fn write(&self, out: &mut Items<u8>) -> Result<(), NoMemory> {
        match self {
            Some(value) => {
                true.write(out)?;
                value.write(out)
            }
            None => false.write(out),
        }
    }

    #[tactic(auto, unfolding(crate::specs::Words::optional_at))]
    fn read(alloc: Global, bytes: &[u8]) -> Result<(Option<T>, &[u8]), Stopped> {
        let (there, rest) = bool::read(alloc, bytes)?;
        if !there {
            return Ok((None, rest));
        }
        let (value, rest) = T::read(alloc, rest)?;
        Ok((Some(value), rest))
    }
}
