ghost use Rattle.std.specs.Prelude.{◌≡◌, ◌++◌, OnOk, IfOk, bit_and};
ghost use Rattle.message_parts.specs.Reading.{Gives};
ghost use Rattle.message_parts.specs.Places.{which_code, which_of, rights_at};

use crate::number::{number_at, push_number};
use crate::part::{Part, Stopped, short_at, write_short};
use base_types::{Items, Name, NoMemory, Rights, ServerId, User};
use std::alloc::Global;
use tree_calls::{Place, Which};

impl Part for User {
    const BYTES_MIN: usize = 4;

    ghost use Rattle.message_parts.specs.Places.{spell_user, user_at};

    ghost spelled = { spell_user };

    ghost reading = { user_at };

    #[tactic(auto, unfolding(crate::specs::Places::spell_user))]
    fn write(&self, out: &mut Items<u8>) -> Result<(), NoMemory> {
        self.name.write(out)?;
        write_short(&self.groups, out)
    }

    #[tactic(auto, unfolding(crate::specs::Places::user_at))]
    fn read(alloc: Global, bytes: &[u8]) -> Result<(User, &[u8]), Stopped> {
        let (name, rest) = Name::read(alloc, bytes)?;
        let (groups, rest) = short_at(alloc, rest)?;
        Ok((User { name, groups }, rest))
    }
}

impl Part for Place {
    const BYTES_MIN: usize = 5;

    ghost use Rattle.message_parts.specs.Places.{spell_place, place_at};

    ghost spelled = { spell_place };

    ghost reading = { place_at };

    #[tactic(auto, unfolding(crate::specs::Places::spell_place))]
    fn write(&self, out: &mut Items<u8>) -> Result<(), NoMemory> {
        self.server.write(out)?;
        self.fileset.write(out)?;
        write_short(&self.path, out)
    }

    #[tactic(auto, unfolding(crate::specs::Places::place_at))]
    fn read(alloc: Global, bytes: &[u8]) -> Result<(Place, &[u8]), Stopped> {
        let (server, rest) = ServerId::read(alloc, bytes)?;
        let (fileset, rest) = Name::read(alloc, rest)?;
        let (path, rest) = short_at(alloc, rest)?;
        Ok((
            Place {
                server,
                fileset,
                path,
            },
            rest,
        ))
    }
}

fn which_code(which: Which) -> u64
    ensures { result ≡ which_code which }
{
    match which {
        Which::Own => 0,
        Which::Files => 1,
        Which::Dirs => 2,
    }
}

fn which_of(code: u64) -> Which
    ensures { result ≡ which_of code }
{
    match code {
        0 => Which::Own,
        1 => Which::Files,
        _ => Which::Dirs,
    }
}

impl Part for Which {
    const BYTES_MIN: usize = 1;

    ghost use Rattle.message_parts.specs.Places.{spell_which, which_at};

    ghost spelled = { spell_which };

    ghost reading = { which_at };

    #[tactic(auto, unfolding(crate::specs::Words::coded, crate::specs::Spelled::number))]
    fn write(&self, out: &mut Items<u8>) -> Result<(), NoMemory> {
        push_number(out, 1, which_code(*self))
    }

    #[tactic(auto, unfolding(crate::specs::Words::coded_at))]
    fn read(_alloc: Global, bytes: &[u8]) -> Result<(Which, &[u8]), Stopped> {
        let (code, rest) = number_at(bytes, 1, 0, 2)?;
        Ok((which_of(code), rest))
    }
}

impl Part for Rights {
    const BYTES_MIN: usize = 1;

    ghost use Rattle.message_parts.specs.Places.{spell_rights, rights_at};

    ghost spelled = { spell_rights };

    ghost reading = { rights_at };

    #[tactic(auto, unfolding(crate::specs::Spelled::number))]
    fn write(&self, out: &mut Items<u8>) -> Result<(), NoMemory> {
        push_number(out, 1, self.bits() as u64)
    }

    fn read(_alloc: Global, bytes: &[u8]) -> Result<(Rights, &[u8]), Stopped> {
        let (bits, rest) = bits_at(bytes)?;
        Ok((Rights::from_bits(bits), rest))
    }
}

/// Reads the bits of rights.
#[tactic(auto, using(crate::proofs::Plain::six_bits))]
pub fn bits_at(bytes: &[u8]) -> Result<(u8, &[u8]), Stopped>
    ensures bits { Gives (λ x. (x.0, x.1.now)) result (rights_at bytes.now) }
    ensures within { IfOk result (λ x. bit_and x.0 63 ≡ x.0) }
{
    let (bits, rest) = number_at(bytes, 1, 0, 63)?;
    Ok((bits as u8, rest))
}
