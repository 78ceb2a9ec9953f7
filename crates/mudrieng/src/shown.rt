// A way in lines: a node a line, its parts two spaces further in.
ghost use Rattle.std.specs.Prelude.{◌≡◌, ℕ, ◌/◌, ◌<◌, ◌≤◌, true, length};
ghost use Rattle.ways.specs.Nodes.{node_ok};

use crate::jobs::Named;
use std::fmt;
use ways::Node;

// Nodes of which each names later ones among them only, and the pieces that they name.
#[derive(Clone, Copy)]
pub(crate) struct Shown<'a> {
    pub nodes: &'a [u16],
    pub pieces: &'a [Named],
    ghost some: { 0 < length nodes.now / 4 },
    ghost later: { (k : ℕ) → k < length nodes.now / 4 → node_ok nodes.now (length nodes.now / 4) k ≡ true },
}

impl fmt::Display for Shown<'_> {
    fn fmt<W: fmt::Write>(&self, f: &mut fmt::Formatter<W>) -> fmt::Result {
        self.part(f, 0, 0)
    }
}

impl Shown<'_> {
    // The lines of the part that node i says.
    fn part<W: fmt::Write>(&self, f: &mut fmt::Formatter<W>, i: usize, depth: usize) -> fmt::Result
        requires within { i < length self.now.nodes.now / 4 }
        requires inner { depth ≤ i }
    {
        let Some(node) = Node::read(self.nodes, i) else {
            unreachable()
        };
        write!(f, "{:indent$}", "", indent = 2 * depth)?;
        match node {
            Node::Scrap => writeln!(f, "scrap"),
            Node::Take { piece } => match self.pieces.get(piece as usize) {
                Some(named) => writeln!(f, "piece {}", named.name),
                None => writeln!(f, "piece {piece}"),
            },
            Node::Saw(cut) => {
                writeln!(f, "{} {}", cut.orientation, cut.at)?;
                self.part(f, cut.first as usize, depth + 1)?;
                self.part(f, cut.second as usize, depth + 1)
            }
        }
    }
}
