//! Loading a unit file.
ghost use Rattle.workspace.specs.Calls.{load};
ghost use Rattle.workspace.specs.Does.{Does};
ghost use Rattle.workspace.specs.Policies.{EmptiedByLoad, EmptiedByExamining};
ghost use Rattle.workspace.specs.Stored.{model_of};
ghost use Rattle.workspace.specs.Views.{loading, ExaminedIn};

use super::Workspace;
use crate::found::{Found, solve};
use crate::policies::Policies;
use crate::refusal::LoadFault;
use analyses::graph::Graph;
use analyses::types::Types;
use analyses::verify::judge_solved;
use dataflow::policy::Policy;
use facts::cell::TypeCell;
use facts::frame::Frame;

impl Workspace {
    /// Replaces what is held by the unit of a file, if the verifier accepts it.
    pub fn load<T: Policy, C: Policy, L: Policy>(
        &mut self,
        file: &[u8],
        policies: &mut Policies<T, C, L>,
    ) -> Result<(), LoadFault>
        ensures does { Does (load file.now) (model_of self.old) (loading result) (model_of self.new) }
        ensures policies { EmptiedByLoad T.pending C.pending L.pending result policies.old policies.new }
    {
        if self.depth() > 0 {
            return Err(LoadFault::AttemptOpen);
        }
        examine(file, &mut self.graph, &mut self.types, &mut policies.types)?;
        self.held.load(
            &self.graph,
            &self.types,
            &mut policies.constants,
            &mut policies.lives,
        );
        self.loaded = true;
        Ok(())
    }
}

/// Reads a file's unit and solves its types, if the verifier accepts it.
fn examine<T: Policy>(
    file: &[u8],
    graph: &mut Graph,
    types: &mut Found<Frame<TypeCell>>,
    policy: &mut T,
) -> Result<(), LoadFault>
    ensures found { ExaminedIn file.now graph.new types.new.facts types.new.takes result }
    ensures policy { EmptiedByExamining T.pending result policy.old policy.new }
{
    graph.read(file)?;
    solve::<Types, T>(graph, policy, types);
    judge_solved(graph, &types.facts)?;
    Ok(())
}
