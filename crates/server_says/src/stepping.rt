ghost use Rattle.std.specs.Prelude.{◌≡◌};
ghost use Rattle.server_says.specs.Running.{step_if};

use base_types::NoMemory;
use run_rules::Step;

/// The step, if it could be made.
pub(crate) fn step_if(made: Result<(), NoMemory>, step: Step) -> Result<Step, NoMemory>
    ensures { result ≡ step_if made step }
{
    match made {
        Ok(()) => Ok(step),
        Err(NoMemory) => {
            drop(step);
            Err(NoMemory)
        }
    }
}
