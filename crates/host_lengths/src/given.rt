ghost use Rattle.std.specs.Prelude.{◌≡◌};
ghost use Rattle.host_lengths.specs.Giving.{known_by};

use base_types::{Fid, FilesetId};

/// The last length of a file that was given back since a token for update of its status was taken.
#[derive(Clone, Copy)]
pub struct Given {
    pub fid: Fid,
    /// The number of the give-back.
    pub number: u64,
    pub length: u32,
    /// Whether the give-back is known as applied.
    pub known: bool,
}

/// A length, where a give-back of a fileset is known as applied.
pub(crate) fn known_by(given: Given, fileset: FilesetId, number: u64) -> Given
    ensures { result ≡ known_by fileset number given }
{
    let is_known = given.known || (given.fid.fileset == fileset && given.number == number);
    Given {
        known: is_known,
        ..given
    }
}
