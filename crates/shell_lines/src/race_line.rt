//! Lines of a race: commands of numbered jobs.

ghost use Rattle.std.specs.Prelude.{◌≡◌, ℕ, List, IfOk, IsErrOf};
ghost use Rattle.std.specs.Option.{option_and_then};
ghost use Rattle.shell_lines.specs.Fields.{fields_of};
ghost use Rattle.shell_lines.specs.Number.{number_of};
ghost use Rattle.shell_lines.specs.RaceLine.{GivesJobCommand, SaysOfJob, job_command_in, job_number};
ghost use Rattle.shell_lines.specs.Request.{IsShortCommand};
ghost use Rattle.shell_lines.specs.declared.race_line.JobCommand.{JobCommand as JobCommandSeen};

use crate::fields::next_field;
use crate::number::read_number;
use crate::request::read_command;
use crate::token::{LineError, needed};
use bw_model::Command;

/// How many job numbers there are, from 0.
pub const JOBS: u32 = 4096;

/// A command of a job, which is named by its number.
#[derive(Drop)]
pub struct JobCommand {
    pub job: u32,
    pub command: Command,
}

// A job's number.
fn read_job(text: &[u8]) -> Option<u32>
    ensures { result ≡ option_and_then job_number (number_of text.now) }
{
    let number = u32::try_from(read_number(text)?).ok()?;
    if number < JOBS { Some(number) } else { None }
}

#[tactic(auto, unfolding(crate::specs::RaceLine::job_command_in))]
fn read_job_command(line: &[u8]) -> Result<JobCommand, LineError>
    ensures { GivesJobCommand result (job_command_in (fields_of line.now)) }
{
    let (number, rest) = needed(next_field(Some(line)))?;
    let job = needed(read_job(number))?;
    let command = read_command(rest)?;
    Ok(JobCommand { job, command })
}

/// Which command of which job a line of a race asks for, by the grammar.
pub fn parse_job_command(line: &[u8]) -> Result<JobCommand, LineError>
    ensures ok { IfOk result (λ asks. SaysOfJob line.now asks × IsShortCommand asks.command) }
    ensures malformed { IsErrOf result LineError.Malformed → (asks : JobCommandSeen) → SaysOfJob line.now asks → ⊥ }
    ensures too_long { IsErrOf result LineError.TooLong → (asks : JobCommandSeen) × SaysOfJob line.now asks × (IsShortCommand asks.command → ⊥) }
{
    if line.len() > 1024 {
        return Err(LineError::Malformed);
    }
    read_job_command(line)
}

/// A line of a race asks for one command of one job at most.
pub fn job_commands_are_exact()
    ensures { (line : List ℕ) (a b : JobCommandSeen) → SaysOfJob line a → SaysOfJob line b → a ≡ b }
{}
