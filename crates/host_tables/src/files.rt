ghost use Rattle.std.specs.Prelude.{◌≡◌, OnOk, OnErr, option_copied};
ghost use Rattle.std.specs.List.{find, position};
ghost use Rattle.host_tables.specs.Tables.{floor_of};
ghost use Rattle.host_tables.specs.Updates.{is_floor, with_floor};

use base_types::{Fid, Items, NoMemory};

/// The highest stamp that was seen of a file since its floors began anew.
#[derive(Clone, Copy)]
pub struct Floor {
    pub fid: Fid,
    pub stamp: u64,
}

/// The floor of a file; 0 where none was seen.
pub fn floor_of(floors: &[Floor], fid: Fid) -> u64
    ensures { result ≡ floor_of floors.now fid }
{
    match floor_at(floors, fid) {
        Some(floor) => floor.stamp,
        None => 0,
    }
}

fn floor_at(floors: &[Floor], fid: Fid) -> Option<&Floor>
    ensures { option_copied result ≡ find (is_floor fid) floors.now }
{
    floors.iter().find(|floor| floor.fid == fid)
}

/// Makes this the floor of a file. The only error is that memory ran out; then nothing changes.
pub fn put_floor(floors: &mut Items<Floor>, floor: Floor) -> Result<(), NoMemory>
    ensures after { OnOk result (floors.new ≡ with_floor floor floors.old) }
    ensures err { OnErr result (floors.new ≡ floors.old) }
{
    match floor_place(floors.as_slice(), floor.fid) {
        Some(place) => floors.put(place, floor),
        None => floors.push(floor)?,
    }
    Ok(())
}

fn floor_place(floors: &[Floor], fid: Fid) -> Option<usize>
    ensures { result ≡ position (is_floor fid) floors.now }
{
    floors.iter().position(|floor| floor.fid == fid)
}
