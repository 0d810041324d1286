//! How long one time of each task takes.
use crate::command::Task;
use crate::error::Fault;
use crate::find::lowest_change;
use crate::line::Code;
use crate::pick::Picks;
use crate::supply::Supply;
use crate::task;
use crate::timer::{Tenths, time};
use dataflow::policy::Policy;
use std::rt::Clock;
use workspace::workspace::Workspace;

/// How many bytes the longest unit file has.
pub const LONGEST_FILE: usize = 774;

/// Does a task `times` times, after a first loading of the file, and answers how long one time takes; of a run, which is done
/// once, `times` is the budget in steps. Fails where the file is not loaded, where there is nothing to propose or to measure,
/// and where memory or the clock fails.
pub fn measure<P: Policy>(
    rt: &(impl Clock + AllocGlobal),
    task: Task,
    space: &mut Workspace,
    file: &[u8],
    times: u32,
    picks: &mut Picks<P>,
) -> Result<Tenths, Fault> {
    // So that a bad file is refused before the clock starts, whatever the task is.
    space.load(file, picks)?;
    match task {
        Task::Load => time(rt, times, || Ok(space.load(file, picks)?)),
        Task::Tidy => time(rt, times, || {
            task::tidy(space, file, picks)?;
            Ok(())
        }),
        Task::Abandon => time(rt, times, || Ok(task::abandon(space, file, picks)?)),
        Task::Propose => {
            let change = lowest_change(space)?.ok_or(Fault::NothingToPropose)?;
            time(rt, times, || task::propose(space, file, &change, picks))
        }
        Task::Write => {
            let mut buffer = [0u8; LONGEST_FILE];
            time(rt, times, || {
                space.write_out(&mut buffer)?;
                Ok(())
            })
        }
        Task::Run => {
            let mut supply = Supply::new(rt.alloc())?;
            time(rt, 1, || {
                space.run(
                    supply.inputs.as_slice(),
                    supply.outputs.as_mut_slice(),
                    times,
                )?;
                Ok(())
            })
        }
        Task::Solve => {
            let code = Code::from_the_last(space.unit()?.len);
            let mut facts = [false; 128];
            time(rt, times, || {
                task::solve(&code, &mut picks.types, &mut facts);
                Ok(())
            })
        }
    }
}
