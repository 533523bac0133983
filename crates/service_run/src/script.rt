//! The second stage: the script that a command runs.
ghost use Rattle.std.specs.Prelude.{◌≡◌, true, false, take, Some, None, Ok, IfOk, IfErr, IsErrOf};
ghost use Rattle.base_types.specs.Faults.{RoseBy};
ghost use Rattle.base_types.specs.declared.limits.TheConstants.{SCRIPT_BYTES};
ghost use Rattle.script_lines.specs.Sound.{IsSound};
ghost use Rattle.script_reader.specs.Walk.{stuck_at};
ghost use Rattle.script_reader.specs.Scripts.{script_of};
ghost use Rattle.script_commands.specs.Command.{IsPlayWithin};
ghost use Rattle.service_run.specs.Scripts.{IsRead, IsCause, reads, disks_of, not_read};
ghost use Rattle.service_run.specs.World.{shown};

use base_io::{ReadRefused, read_all};
use base_types::{NoMemory, SCRIPT_BYTES, Source};
use script_commands::Play;
use script_generator::generate;
use script_lines::Script;
use script_reader::{ScriptRefused, read_script};
use std::alloc::Global;

/// Why there is no script.
#[derive(Clone, Copy)]
pub(crate) enum NotRead {
    /// The source failed.
    Input,
    /// The bytes are no script.
    Script(ScriptRefused),
    /// Memory ran out.
    Memory,
}

/// The script that a command runs.
#[tactic(auto, unfolding(crate::specs::Scripts::script_for))]
pub(crate) fn script_for<R: Source>(
    alloc: Global,
    play: Play,
    source: &mut R,
) -> Result<Script, NotRead>
    requires within { IsPlayWithin play }
    ensures sound { IfOk result (λ script. IsSound script) }
    ensures goes { IfOk result (λ script. stuck_at script.lines ≡ None) }
    ensures read { IfOk result
        (λ script. IsRead (shown R.tells (R.left source.old) (R.faults source.old)) play (Ok script)) }
    ensures cause { IfErr result (IsCause (shown R.tells (R.left source.old) (R.faults source.old)) play) }
    ensures input { IsErrOf result NotRead.Input → RoseBy 1 (R.faults source.old) (R.faults source.new) }
    ensures untouched { reads play ≡ false → source.new ≡ source.old }
{
    match play {
        Play::Run { disks, .. } => read(alloc, play, disks, source),
        Play::Gen {
            seed,
            hosts,
            calls,
            ..
        } => match generate(alloc, seed, hosts, calls) {
            Ok(script) => Ok(script),
            Err(NoMemory) => Err(NotRead::Memory),
        },
    }
}

// Reads the script of a command that reads one.
#[tactic(auto, unfolding(crate::specs::Scripts::script_for))]
fn read<R: Source>(alloc: Global, play: Play, disks: u32, source: &mut R) -> Result<Script, NotRead>
    requires reads { reads play ≡ true }
    requires disks { disks_of play ≡ disks }
    ensures sound { IfOk result (λ script. IsSound script) }
    ensures goes { IfOk result (λ script. stuck_at script.lines ≡ None) }
    ensures read { IfOk result
        (λ script. IsRead (shown R.tells (R.left source.old) (R.faults source.old)) play (Ok script)) }
    ensures cause { IfErr result (IsCause (shown R.tells (R.left source.old) (R.faults source.old)) play) }
    ensures input { IsErrOf result NotRead.Input → RoseBy 1 (R.faults source.old) (R.faults source.new) }
{
    let bytes = match read_all(alloc, source, SCRIPT_BYTES) {
        Ok(bytes) => bytes,
        Err(ReadRefused::Failed) => return Err(NotRead::Input),
        Err(ReadRefused::Memory) => return Err(NotRead::Memory),
    };
    match read_script(alloc, bytes.as_slice(), disks) {
        Ok(script) => Ok(script),
        Err(why) => Err(not_read(why)),
    }
}

// Why there is no script where the bytes are refused.
fn not_read(why: ScriptRefused) -> NotRead
    ensures { result ≡ not_read why }
{
    match why {
        ScriptRefused::Memory => NotRead::Memory,
        ScriptRefused::BadLine(..) | ScriptRefused::Stuck(..) => NotRead::Script(why),
    }
}
