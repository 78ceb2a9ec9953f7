// The entry: what is asked for is checked, and a way of sawing the sheet is left in the lent room.
#![tactic(auto)]

ghost use Rattle.std.specs.Prelude.{◌≡◌, length, Some, MatchResult, ⊤};
ghost use Rattle.saw.specs.Entry.{Accepted, DoneSays, JudgeAgrees, WayOf};
ghost use Rattle.ways.specs.Input.{pieces_in};
ghost use Rattle.ways.specs.Refusals.{refusal};
ghost use Rattle.ways.specs.Sheet.{scrap};

use nodes::{Chooser, write_way};
use ways::{Node, Pieces, Refusal, Sheet};

/// What the entry answers: numbers alone, and no `Result`, since its signature is fixed, for other languages to take up. Whoever
/// wants the refusal itself asks `Sheet::new` and `Pieces::try_from`, as the entry does.
#[derive(Clone, Copy, Debug, PartialEq, Eq)]
pub enum Done {
    // How many nodes the way has, and what it is worth.
    Sawn(u64, u64),
    // The number of the refusal.
    Refused(u64),
}

/// Saws a sheet with a blade for pieces of three numbers each: wide, high, worth. The way is left from the front of the room on,
/// four numbers a node.
pub fn saw(wide: u64, high: u64, blade: u64, pieces: &[u32], room: &mut [u16]) -> Done
    ensures done { DoneSays (refusal wide high blade pieces.now (length room.old)) (WayOf blade (pieces_in pieces.now) wide high) room.old result room.new }
    ensures judged { JudgeAgrees wide high blade (pieces_in pieces.now) result room.new }
{
    match accept(wide, high, blade, pieces, room.len()) {
        Ok(_) => {
            let nodes = write_way(&AllScrap, (), room);
            Done::Sawn(nodes as u64, 0)
        }
        Err(refusal) => Done::Refused(refusal.number()),
    }
}

// The sheet and the pieces, or the first refusal that applies. It takes the entry's numbers as they come, and once: a struct of them
// would be made for this call alone.
#[tactic(auto, using(ways::proofs::Taken::taken), unfolding(ways::specs::Refusals::room_fault))]
fn accept(
    wide: u64,
    high: u64,
    blade: u64,
    pieces: &[u32],
    room: usize,
) -> Result<(Sheet, Pieces), Refusal>
    ensures { MatchResult result (Accepted wide high blade pieces.now room) (λ e. refusal wide high blade pieces.now room ≡ Some e) }
{
    let sheet = Sheet::new(wide, high, blade)?;
    let pieces = Pieces::try_from(pieces)?;
    if room < sheet.room() {
        return Err(Refusal::Room(room));
    }
    Ok((sheet, pieces))
}

// No cut is looked for yet: the whole sheet is scrap.
struct AllScrap;

impl Chooser for AllScrap {
    type Part = ();

    ghost ready = { λ _ _. ⊤ };

    ghost spare = { λ _ _. 0 };

    ghost good = { λ _ _ a. a ≡ scrap };

    fn choose(&self, _sheet: ()) -> Node<()> {
        Node::Scrap
    }
}
