ghost use Rattle.std.specs.Prelude.{◌≡◌, ⊤, [], IsOk};
ghost use Rattle.base_outside.specs.Calls.{NoneFails};
ghost use Rattle.base_io.specs.Memory.{left_of, source_calls};

use crate::MemSource;
use base_types::{Failed, Source};

/// Input that lies in memory and no call of which fails.
#[derive(Drop)]
pub struct NeverFails {
    source: MemSource,
    ghost none_fails: { NoneFails (source_calls source) },
}

impl NeverFails {
    ghost use Rattle.base_io.specs.NeverFails.{input_of};

    /// The same input. No call of the source may be listed as failing.
    pub fn new(source: MemSource) -> NeverFails
        requires { NoneFails (source_calls source) }
        ensures { input_of result ≡ left_of source }
    {
        NeverFails { source }
    }
}

impl Source for NeverFails {
    ghost use Rattle.base_io.specs.NeverFails.{input_of};

    ghost tells = { ⊤ };

    ghost left = { input_of };

    ghost faults = { λ _. 0 };

    fn take(&mut self, out: &mut [u8]) -> Result<usize, Failed> {
        match self.source.take(out) {
            Ok(n) => Ok(n),
            Err(_) => unreachable!(),
        }
    }
}
