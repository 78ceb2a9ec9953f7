// What is said in words, and that it can be.
use std::test::Fail;
use ways::{Orientation, Refusal, UnknownKind};

#[test]
fn refusals_in_words(rt: HostRuntime) -> Result<(), Fail> {
    let rows = [
        (
            Refusal::Wide,
            "refused 1 at 0: the sheet's width has to be 1 to 60",
        ),
        (
            Refusal::High,
            "refused 1 at 1: the sheet's height has to be 1 to 60",
        ),
        (
            Refusal::Blade,
            "refused 1 at 2: the blade may take 60 at most",
        ),
        (
            Refusal::Piece(16),
            "refused 2 at 16: there may be sixteen pieces, each at least 1 wide and high and worth 100000 at most",
        ),
        (
            Refusal::Room(95),
            "refused 3 at 95: the room has to have eight numbers for each square of the sheet",
        ),
        (
            Refusal::Line(0),
            "refused 4 at 0: a job has one line 'sheet WIDE HIGH blade BLADE' and lines 'piece NAME WIDE HIGH WORTH'",
        ),
    ];
    for (refusal, words) in rows {
        assert_eq!(rt; format!(in rt.alloc(); "{refusal}")?.as_str(), words);
    }
    Ok(())
}

#[test]
fn cuts_in_words(rt: HostRuntime) -> Result<(), Fail> {
    let (upright, level, kind) = (Orientation::Upright, Orientation::Level, UnknownKind(4));
    let said = format!(in rt.alloc(); "{upright}, {level}; {kind}")?;
    assert_eq!(rt; said.as_str(), "upright, level; no node is of kind 4");
    Ok(())
}
