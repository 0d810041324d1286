//! A cursor over the instructions of a lent file.
ghost use Rattle.std.specs.Prelude.{◌≡◌, ◌+◌, ◌/◌, ◌^◌, ◌<◌, length};
ghost use Rattle.std.specs.Iterator.{at_most};

/// Hands out the bytes that are left six at a time, each part with its place; fewer are not handed out.
// A cursor and no `as_chunks`: bytes are taken from a file in this one place, each part with its place.
#[derive(Drop)]
pub struct Parts<'a> {
    rest: &'a [u8],
    place: usize,
    ghost countable: { place + length rest.now < 2 ^ 64 },
}

impl<'a> Parts<'a> {
    /// A cursor at place 0 of the instructions in `bytes`.
    pub fn new(bytes: &'a [u8]) -> Parts<'a>
        ensures rest { result.rest.now ≡ bytes.now }
        ensures place { result.place ≡ 0 }
    {
        Parts {
            rest: bytes,
            place: 0,
        }
    }
}

impl<'a> Iterator for Parts<'a> {
    type Item = (usize, &'a [u8; 6]);

    ghost use Rattle.bytecode.specs.Cursor.{HandsOut};

    ghost next_gives = { HandsOut };

    ghost remaining = { λ parts. at_most (length parts.rest.now / 6) };

    fn next(&mut self) -> Option<(usize, &'a [u8; 6])> {
        let (part, rest) = self.rest.split_first_chunk::<6>()?;
        let place = self.place;
        self.rest = rest;
        self.place = place + 1;
        Some((place, part))
    }
}
