//! What is known at each place of a unit that the verifier accepts.
use crate::error::Error;
use analyses::constants::Constants;
use analyses::graph::Graph;
use analyses::live::Live;
use analyses::solution::solution;
use analyses::verify::verify;
use bytecode::unit::Unit;
use dataflow::first_in::FirstIn;
use facts::cell::{ConstCell, TypeCell};
use facts::frame::Frame;
use facts::live::LiveSet;

/// The facts at each place; those past the unit's last place say nothing.
#[derive(Drop)]
pub struct Known {
    /// Before the place.
    pub types: [Frame<TypeCell>; 128],
    /// Before the place.
    pub constants: [Frame<ConstCell>; 128],
    /// After the place.
    pub live: [LiveSet; 128],
}

impl Known {
    /// The facts of the unit in the file `name`.
    pub fn of<'a>(name: &'a str, unit: &Unit) -> Result<Known, Error<'a>> {
        let graph = Graph::new(unit);
        let mut policy = FirstIn::new();
        let types = verified(name, &graph, &mut policy)?;
        let mut constants = [Frame::Unreached; 128];
        solution::<Constants, _>(&graph, &mut policy, &mut constants);
        let mut live = [LiveSet::new(); 128];
        solution::<Live, _>(&graph, &mut policy, &mut live);
        Ok(Known {
            types,
            constants,
            live,
        })
    }
}

/// The type frames, where the verifier accepts the unit.
fn verified<'a>(
    name: &'a str,
    graph: &Graph,
    policy: &mut FirstIn,
) -> Result<[Frame<TypeCell>; 128], Error<'a>> {
    let mut types = [Frame::Unreached; 128];
    match verify(graph, policy, &mut types) {
        Ok(_) => Ok(types),
        Err(fault) => Err(Error::Unverified {
            name,
            fault,
            frame: types[fault.place],
        }),
    }
}
