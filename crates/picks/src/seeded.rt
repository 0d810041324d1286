//! A pick policy that takes by a seed.
ghost use Rattle.std.specs.Prelude.{◌≡◌, ℕ};
ghost use Rattle.dataflow.specs.FirstIn.{is_member};
ghost use Rattle.dataflow.specs.Pending.{IsEmpty};

use dataflow::first_in::FirstIn;
use dataflow::policy::Policy;

/// Passes over so many nodes as its stream says, up to seven, and takes the next. Those that it passes over go behind the others.
#[derive(Drop)]
pub struct Seeded {
    queue: FirstIn,
    state: u64,
}

impl Seeded {
    pub fn new(seed: u64) -> Seeded
        ensures { IsEmpty (is_member result.queue) }
    {
        Seeded {
            queue: FirstIn::new(),
            state: seed,
        }
    }

    /// How many nodes are passed over next, 0 to 7.
    fn next_skips(&mut self) -> u32
        ensures { self.new.queue ≡ self.old.queue }
    {
        self.state = self
            .state
            .wrapping_mul(0x5851_f42d_4c95_7f2d)
            .wrapping_add(1);
        (self.state >> 61) as u32
    }
}

/// Puts the node that was added longest ago behind the others.
fn rotate(queue: &mut FirstIn)
    ensures { (v : ℕ) → is_member queue.new v ≡ is_member queue.old v }
{
    if let Some(node) = queue.take() {
        queue.add(node);
    }
}

impl Policy for Seeded {
    ghost pending = { λ s. is_member s.queue };

    fn clear(&mut self) {
        self.queue.clear();
    }

    fn add(&mut self, node: usize) -> bool {
        self.queue.add(node)
    }

    fn take(&mut self) -> Option<usize> {
        let skips = self.next_skips();
        for _ in 0..skips {
            rotate(&mut self.queue);
        }
        self.queue.take()
    }
}
