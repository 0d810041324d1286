//! The workspace, and the token of an open attempt.
ghost use Rattle.std.specs.Prelude.{◌≡◌, List, None};
ghost use Rattle.workspace.specs.Does.{depth, Model as TheModel};
ghost use Rattle.workspace.specs.Histories.{Event, Runs, KeptPromise};
ghost use Rattle.workspace.specs.Stored.{model_of};

mod attempts;
mod load;
mod reads;
pub mod replay;
#[cfg(test)]
mod tests;

use crate::found::Found;
use crate::held::Held;
use analyses::graph::Graph;
use bytecode::unit::Unit;
use facts::cell::TypeCell;
use facts::frame::Frame;
use std::marker::Model;

/// An open attempt: only keep and abandon spend it.
pub struct Attempt {
    depth: u8,
}

// A token counts by its depth alone.
impl Model for Attempt {
    ghost use Rattle.std.specs.Prelude.{ℕ};

    ghost Value = { ℕ };

    ghost view = { λ a. a.depth };
}

/// One unit with its facts, or none.
// What is held stays where it is, and is meant only once `loaded` is set. The last two are for a solving's work alone.
#[derive(Drop)]
pub struct Workspace {
    loaded: bool,
    held: Held,
    graph: Graph,
    types: Found<Frame<TypeCell>>,
}

impl Model for Workspace {
    ghost use Rattle.std.specs.Prelude.{Option, Some, None, cond};
    ghost use Rattle.workspace.specs.Stored.{Stored};

    ghost Value = { Option Stored };

    ghost view = { λ w. cond w.loaded (Some w.held) None };
}

impl Workspace {
    /// A workspace without a unit.
    pub fn new() -> Workspace
        ensures empty { model_of result ≡ None }
        ensures promise { (made : List Event) (m : TheModel) → Runs (model_of result) made m → KeptPromise made }
    {
        Workspace {
            loaded: false,
            held: Held::new(),
            graph: Graph::new(&Unit::halt()),
            types: Found {
                facts: [Frame::Unreached; 128],
                takes: 0,
            },
        }
    }

    /// How many attempts are open.
    fn depth(&self) -> u8
        ensures { result ≡ depth (model_of self.now) }
    {
        if self.loaded { self.held.depth() } else { 0 }
    }
}
