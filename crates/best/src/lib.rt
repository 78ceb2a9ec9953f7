// A best way of sawing a sheet, left in the lent room; and the entry, which checks what is asked for.
#![tactic(auto)]

ghost use Rattle.std.specs.Prelude.{length};
ghost use Rattle.best.specs.Entry.{BestWay, SawnOrRefused};
ghost use Rattle.best.specs.Wanted.{BestWorth};
ghost use Rattle.saw.specs.Entry.{DoneSays, JudgeAgrees};
ghost use Rattle.ways.specs.Input.{pieces_in};
ghost use Rattle.ways.specs.Refusals.{refusal, room_fault};

mod table;

use nodes::write_way;
use saw::Done;
use table::ByTable;
use ways::{Pieces, Refusal, Sheet};
use worths::{Lying, values_of};

/// How many nodes a way has, and what it is worth.
#[derive(Clone, Copy, Debug, PartialEq, Eq)]
pub struct Plan {
    pub nodes: usize,
    pub worth: u32,
}

/// Saws a sheet with a blade for pieces of three numbers each: wide, high, worth. A best way is left from the front of the room
/// on, four numbers a node. The other entry, `saw::saw`, leaves scrap, and is what the program prints until it takes this one up.
#[tactic(auto, using(crate::proofs::Sawn::done))]
pub fn saw(wide: u64, high: u64, blade: u64, pieces: &[u32], room: &mut [u16]) -> Done
    ensures done { DoneSays (refusal wide high blade pieces.now (length room.old)) (BestWay blade (pieces_in pieces.now) wide high) room.old result room.new }
    ensures judged { JudgeAgrees wide high blade (pieces_in pieces.now) result room.new }
{
    match saw_checked(wide, high, blade, pieces, room) {
        Ok(plan) => Done::Sawn(plan.nodes as u64, plan.worth as u64),
        Err(refusal) => Done::Refused(refusal.number()),
    }
}

// The same, with the first refusal that applies as it is. It takes the entry's numbers as they come, and once.
fn saw_checked(
    wide: u64,
    high: u64,
    blade: u64,
    pieces: &[u32],
    room: &mut [u16],
) -> Result<Plan, Refusal>
    ensures { SawnOrRefused (refusal wide high blade pieces.now (length room.old)) (BestWay blade (pieces_in pieces.now) wide high) room.old result room.new }
{
    let sheet = Sheet::new(wide, high, blade)?;
    let pieces = Pieces::try_from(pieces)?;
    saw_sheet(sheet, &pieces, room)
}

/// Saws a sheet for whatever can lie uncut, and leaves a best way, as that reckons ways, from the front of the room on. A room of
/// fewer than eight numbers for each square is refused, and left as it was.
pub fn saw_sheet<U: Lying>(sheet: Sheet, uncut: &U, room: &mut [u16]) -> Result<Plan, Refusal>
    ensures { SawnOrRefused (room_fault sheet.wide sheet.high (length room.old)) (BestWorth (U.reckoned uncut.now sheet.blade) (U.leaf uncut.now) sheet.blade (U.pieces uncut.now) sheet.wide sheet.high) room.old result room.new }
{
    if room.len() < sheet.room() {
        return Err(Refusal::Room(room.len()));
    }
    let values = values_of(sheet, uncut);
    let chooser = ByTable {
        uncut,
        values: &values,
    };
    let nodes = write_way(&chooser, sheet.whole(), room);
    Ok(Plan {
        nodes,
        worth: values.whole(),
    })
}
