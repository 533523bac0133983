ghost use Rattle.std.specs.Prelude.{◌≡◌, IfOk};
ghost use Rattle.server_decides.specs.Going.{step_if};

use run_rules::Step;
use server_decides::ExporterFault;

/// The step, if it could be made and its acts were given to the store. Then it is noted whether no Change is left that
/// is to be decided.
pub(crate) fn step_if_stored(
    rested: &mut bool,
    made: Result<bool, ExporterFault>,
    step: Step,
) -> Result<Step, ExporterFault>
    ensures step { result ≡ step_if made step }
    ensures rested { IfOk made (λ is. rested.new ≡ is) }
{
    match made {
        Ok(is_rested) => {
            *rested = is_rested;
            Ok(step)
        }
        Err(fault) => {
            drop(step);
            Err(fault)
        }
    }
}
