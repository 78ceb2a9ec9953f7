// A way's nodes, each four numbers of a lent slice.
ghost use Rattle.std.specs.Fmt.{decimal};
ghost use Rattle.std.specs.Prelude.{◌≡◌, ◌++◌, Some, codes};
ghost use Rattle.ways.specs.Nodes.{node_at, numbers_of, Reads};

use crate::parts::Orientation;
use std::error::Error;
use std::fmt;

/// What is done with a part of the sheet. What the parts that a cut leaves are named by, P says: the numbers of their nodes, in a
/// way that is lent. That is an arena of numbers, and no tree of boxes, since it is written into the room that users lend.
#[derive(Clone, Copy, Debug, PartialEq, Eq)]
pub enum Node<P> {
    Scrap,
    Take { piece: u16 },
    Saw(Cut<P>),
}

/// A cut through a part, so far from the left or from below, and the two parts that it leaves: the left or the lower one first.
#[derive(Clone, Copy, Debug, PartialEq, Eq)]
pub struct Cut<P> {
    pub orientation: Orientation,
    pub at: u16,
    pub first: P,
    pub second: P,
}

/// Four numbers of which the first is no kind of node.
#[derive(Clone, Copy, Debug, PartialEq, Eq)]
pub struct UnknownKind(pub u16);

impl Node<u16> {
    /// Node i of numbers in fours, if it is there.
    pub fn read(numbers: &[u16], i: usize) -> Option<Node<u16>>
        ensures { result ≡ node_at numbers.now i }
    {
        let (nodes, _) = numbers.as_chunks::<4>();
        Node::try_from(*nodes.get(i)?).ok()
    }
}

impl TryFrom<[u16; 4]> for Node<u16> {
    type Error = UnknownKind;

    ghost try_from_gives = { Reads };

    #[tactic(auto, unfolding(crate::specs::Nodes::node_from))]
    fn try_from([kind, x, a, b]: [u16; 4]) -> Result<Node<u16>, UnknownKind> {
        let orientation = match kind {
            0 => return Ok(Node::Scrap),
            1 => return Ok(Node::Take { piece: x }),
            2 => Orientation::Upright,
            3 => Orientation::Level,
            _ => return Err(UnknownKind(kind)),
        };
        Ok(Node::Saw(Cut {
            orientation,
            at: x,
            first: a,
            second: b,
        }))
    }
}

// The four numbers that stand for a node; those that it doesn't need are 0.
impl From<Node<u16>> for [u16; 4] {
    ghost from_gives = { λ node numbers. numbers ≡ numbers_of node };

    fn from(node: Node<u16>) -> [u16; 4] {
        match node {
            Node::Scrap => [0, 0, 0, 0],
            Node::Take { piece } => [1, piece, 0, 0],
            Node::Saw(cut) => {
                let kind = match cut.orientation {
                    Orientation::Upright => 2,
                    Orientation::Level => 3,
                };
                [kind, cut.at, cut.first, cut.second]
            }
        }
    }
}

impl fmt::Display for UnknownKind {
    ghost output = { λ k. Some (codes "no node is of kind " ++ decimal k.0) };

    fn fmt<W: fmt::Write>(&self, f: &mut fmt::Formatter<W>) -> fmt::Result {
        write!(f, "no node is of kind {}", self.0)
    }
}

impl Error for UnknownKind {}
