//! How long one time takes.
ghost use Rattle.std.specs.Prelude.{◌≡◌, ◌*◌, ◌/◌, Some, MatchOption};
ghost use Rattle.std.specs.Duration.{as_nanos};

use crate::error::Fault;
use std::fmt;
use std::rt::Clock;
use std::time::{Duration, Instant};

/// A span in tenths of a nanosecond; prints as nanoseconds with one decimal.
#[derive(Clone, Copy, PartialEq, Eq, Debug)]
pub struct Tenths {
    count: u128,
}

impl Tenths {
    /// The span of one time, rounded down, where so many took this long; none where there was no time.
    fn of_one(elapsed: Duration, times: u32) -> Option<Tenths>
        ensures { MatchOption result (times ≡ 0) (λ tenths. tenths.count ≡ as_nanos elapsed * 10 / times) }
    {
        let count = (elapsed.as_nanos() * 10).checked_div(u128::from(times))?;
        Some(Tenths { count })
    }
}

impl fmt::Display for Tenths {
    ghost use Rattle.clock.specs.Spans.{spelled};

    ghost output = { λ tenths. Some (spelled tenths.count) };

    fn fmt<W: fmt::Write>(&self, f: &mut fmt::Formatter<W>) -> fmt::Result {
        write!(f, "{}.{}", self.count / 10, self.count % 10)
    }
}

/// Does a task so many times, and answers how long one of them takes. Fails at the task's first fault, where there is no time,
/// and where the clock fails.
pub fn time<F: FnMut() -> Result<(), Fault>>(
    clock: &impl Clock,
    times: u32,
    mut once: F,
) -> Result<Tenths, Fault>
    requires { F.IsAlwaysCallable once }
{
    let start = Instant::now(clock)?;
    for _ in 0..times {
        once()?;
    }
    let elapsed = start.elapsed(clock)?;
    Tenths::of_one(elapsed, times).ok_or(Fault::NoTimes)
}
