//! Why a call is refused.

/// What found the fault of a file.
#[derive(Clone, Copy, PartialEq, Eq, Debug)]
pub enum Layer {
    File,
    Unit,
    Verifier,
}

/// The number of the refusal, and the layer that found the fault of a load. `place` and `reason` are 0 where there is none.
#[derive(Clone, Copy, PartialEq, Eq, Debug)]
pub struct Fault {
    pub layer: Option<Layer>,
    pub number: u8,
    pub place: usize,
    pub reason: u8,
}

impl Fault {
    /// A refusal that names neither a layer nor a place.
    pub const fn plain(number: u8) -> Fault {
        Fault {
            layer: None,
            number,
            place: 0,
            reason: 0,
        }
    }

    /// What a layer finds at a place.
    pub const fn at(layer: Layer, number: u8, place: usize, reason: u8) -> Fault {
        Fault {
            layer: Some(layer),
            number,
            place,
            reason,
        }
    }
}
