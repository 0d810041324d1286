//! The words of the command line.
ghost use Rattle.std.specs.Prelude.{◌≡◌, ◌≢◌, IfOk, MatchOption};
ghost use Rattle.clock.specs.Names.{pick_name, task_name, IsNumber};
ghost use Rattle.clock.specs.declared.command.Task.{Task as TheTask};

use crate::error::Error;
use crate::pick::PickName;

/// What is done again and again.
#[derive(Clone, Copy, PartialEq, Eq, Debug)]
pub enum Task {
    /// Load the file.
    Load,
    /// Load, open, tidy, keep.
    Tidy,
    /// Load, open, abandon.
    Abandon,
    /// Load, open, propose what a rule yields, abandon.
    Propose,
    /// Write the held unit's file out.
    Write,
    /// Run the held unit once.
    Run,
    /// Solve an analysis that has as many nodes as the unit has instructions.
    Solve,
}

/// Whether to measure the task, or to do it once and print what it answers.
#[derive(Clone, Copy, PartialEq, Eq, Debug)]
pub enum Ask {
    Time,
    Answers,
}

/// What the program is asked to do.
#[derive(Clone, Copy)]
pub struct Command<'a> {
    pub ask: Ask,
    pub task: Task,
    /// The unit file.
    pub file: &'a str,
    /// How often to do the task; of a run its budget.
    pub times: u32,
    pub policy: PickName,
}

impl Task {
    /// The task of this name, if there is one.
    pub fn of(word: &str) -> Option<Task>
        ensures { MatchOption result ((task : TheTask) → word.now ≢ task_name task) (λ task. word.now ≡ task_name task) }
    {
        match word {
            "load" => Some(Task::Load),
            "tidy" => Some(Task::Tidy),
            "abandon" => Some(Task::Abandon),
            "propose" => Some(Task::Propose),
            "write" => Some(Task::Write),
            "run" => Some(Task::Run),
            "solve" => Some(Task::Solve),
            _ => None,
        }
    }
}

/// The command that the words after the program's name are.
pub fn parse(words: &[String]) -> Result<Command<'_>, Error<'_>> {
    match words {
        [first, operands @ ..] if first.as_str() == "answers" => {
            with_operands(Ask::Answers, operands)
        }
        operands => with_operands(Ask::Time, operands),
    }
}

/// The command with these words after what is asked.
fn with_operands(ask: Ask, operands: &[String]) -> Result<Command<'_>, Error<'_>> {
    match operands {
        [task, file, times] => spelled(ask, task, file, times, PickName::FirstIn),
        [task, file, times, policy] => spelled(ask, task, file, times, policy_of(policy)?),
        _ => Err(Error::WrongWords),
    }
}

/// The command that names its task and says its times by these words.
fn spelled<'a>(
    ask: Ask,
    task: &'a str,
    file: &'a str,
    times: &'a str,
    policy: PickName,
) -> Result<Command<'a>, Error<'a>>
    ensures asked { IfOk result (λ command. (command.ask ≡ ask) × (command.policy ≡ policy) × (command.file.now ≡ file.now)) }
    ensures task { IfOk result (λ command. task.now ≡ task_name command.task) }
    ensures times { IfOk result (λ command. IsNumber times.now command.times) }
{
    Ok(Command {
        ask,
        task: Task::of(task).ok_or(Error::UnknownTask(task))?,
        file,
        times: times.parse().map_err(|_| Error::NotNumber(times))?,
        policy,
    })
}

/// The policy of this name.
fn policy_of(word: &str) -> Result<PickName, Error<'_>>
    ensures { IfOk result (λ name. word.now ≡ pick_name name) }
{
    PickName::of(word).ok_or(Error::UnknownPolicy(word))
}
