//! Where a fault is, and the numbers of the attributes that lead to it.

ghost use Rattle.std.specs.Prelude.{◌≡◌, ◌+◌, ◌^◌, ◌<◌, ◌≤◌, [], length, IfSome};
ghost use Rattle.link_msg.specs.FaultPath.{numbers_to, Extends};

use nla_wire::NLA_HEADER_SIZE;

/// How many lists stand in one another at most: attributes, virtual functions, what is said of one, and its counters.
const MOST_DEPTH: usize = 4;

/// Where the first fault of a message is, and which attributes lead to it.
#[derive(Clone, Copy, Debug)]
pub struct FaultPath {
    /// How many bytes of the message stand before the innermost frame that is refused, or before the bytes that are no
    /// frame.
    pub offset: usize,
    /// The numbers, of which `depth` count.
    numbers: [u16; MOST_DEPTH],
    /// How many numbers there are.
    depth: usize,
}

impl FaultPath {
    /// The numbers of the frames at fault, without their two flags, the outermost first: at most four. Bytes that are
    /// no frame have none, so that there is none where they stand in the outermost list, or where the header is short.
    pub fn numbers(&self) -> &[u16]
        ensures all { result.now ≡ numbers_to self.now }
        ensures few { length result.now ≤ 4 }
    {
        &self.numbers[..self.depth.min(MOST_DEPTH)]
    }

    /// Bytes that are no frame, in front of which so many stand.
    pub(crate) fn stray(offset: usize) -> FaultPath
        ensures place { result.offset ≡ offset }
        ensures depth { result.depth ≡ 0 }
        ensures none { numbers_to result ≡ [] }
    {
        FaultPath {
            offset,
            numbers: [0; MOST_DEPTH],
            depth: 0,
        }
    }

    /// The same place in bytes that have so many more in front.
    pub(crate) fn after(self, more: usize) -> FaultPath
        requires { more + self.offset < 2 ^ 64 }
        ensures place { result.offset ≡ more + self.offset }
        ensures numbers { numbers_to result ≡ numbers_to self }
        ensures depth { result.depth ≡ self.depth }
    {
        FaultPath {
            offset: more + self.offset,
            ..self
        }
    }

    /// A frame of this number that starts there, and the fault inside of its payload, if there is one.
    pub(crate) fn frame(at: usize, number: u16, inside: Option<FaultPath>) -> FaultPath
        requires { IfSome inside (λ q. (q.depth ≤ 3) × (at + 4 + q.offset < 2 ^ 64)) }
        ensures { Extends at number inside result }
    {
        match inside {
            Some(inner) => FaultPath {
                offset: at + NLA_HEADER_SIZE + inner.offset,
                numbers: [number, inner.numbers[0], inner.numbers[1], inner.numbers[2]],
                depth: inner.depth + 1,
            },
            None => FaultPath {
                offset: at,
                numbers: [number, 0, 0, 0],
                depth: 1,
            },
        }
    }
}
