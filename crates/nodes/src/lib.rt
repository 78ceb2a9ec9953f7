// A way written out as nodes of four numbers each, whoever chooses what is done with each part of the sheet.
#![tactic(auto)]

ghost use Rattle.std.specs.Prelude.{◌≡◌, ℕ, ◌+◌, ◌*◌, ◌<◌, ◌≤◌, ◌++◌, length, drop};
ghost use Rattle.nodes.specs.Chosen.{Fair};
ghost use Rattle.nodes.specs.Written.{Leaves, Written};
ghost use Rattle.ways.specs.Nodes.{numbers_of};
ghost use Rattle.ways.specs.Sheet.{Way};

use ways::{Cut, Node};

/// Who chooses what is done with each part.
pub trait Chooser {
    // What a part is known by: its size, and whatever else the choice depends on.
    type Part;

    // What has to hold for a part to be asked for.
    ghost ready: { Self → Self.Part → Type 0 };

    // So many nodes besides the first are enough for a part.
    ghost spare: { Self → Self.Part → ℕ };

    // What is wanted of a part's way.
    ghost good: { Self → Self.Part → Way → Type 0 };

    fn choose(&self, part: Self::Part) -> Node<Self::Part>
        requires { ready self.now part }
        ensures { Fair (ready self.now) (spare self.now) (good self.now) part result };
}

/// Writes a good way of a part from the front of the room on, and answers how many nodes it has. The caller shows that the part
/// may be asked for and that there is room: only who chooses knows what that takes, so nothing here could test it.
pub fn write_way<C: Chooser>(chooser: &C, part: C::Part, room: &mut [u16]) -> usize
    requires ready { C.ready chooser.now part }
    requires numbered { C.spare chooser.now part < 65536 }
    requires enough { 4 * (1 + C.spare chooser.now part) ≤ length room.old }
    ensures { Leaves (C.good chooser.now part) room.old result room.new }
{
    write_from(chooser, part, 0, room)
}

// Writes a part's nodes, of which the first has number i, to the front of what is lent. What is free behind its own node is
// lent on to the first part, and what is then free to the second.
fn write_from<C: Chooser>(chooser: &C, part: C::Part, i: usize, room: &mut [u16]) -> usize
    requires ready { C.ready chooser.now part }
    requires numbered { i + C.spare chooser.now part < 65536 }
    requires enough { 4 * (1 + C.spare chooser.now part) ≤ length room.old }
    ensures { Written (C.good chooser.now part) (C.spare chooser.now part) i room.old result room.new }
{
    match chooser.choose(part) {
        Node::Scrap => {
            put_node(room, Node::Scrap);
            1
        }
        Node::Take { piece } => {
            put_node(room, Node::Take { piece });
            1
        }
        Node::Saw(cut) => {
            let near = write_from(chooser, cut.first, i + 1, &mut room[4..]);
            let far = write_from(chooser, cut.second, i + 1 + near, &mut room[4 + 4 * near..]);
            let (first, second) = ((i + 1) as u16, (i + 1 + near) as u16);
            put_node(
                room,
                Node::Saw(Cut {
                    orientation: cut.orientation,
                    at: cut.at,
                    first,
                    second,
                }),
            );
            1 + near + far
        }
    }
}

// A node in the first four numbers of the room.
fn put_node(room: &mut [u16], node: Node<u16>)
    requires { 4 ≤ length room.old }
    ensures { room.new ≡ numbers_of node ++ drop 4 room.old }
{
    room[0..4].copy_from_slice(&<[u16; 4]>::from(node));
}
