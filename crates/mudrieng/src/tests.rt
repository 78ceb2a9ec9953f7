use crate::answer;
use crate::faults::Fault;
use std::test::Fail;

// Texts, and what is printed, or the number and place of their refusal.
#[test]
fn first_number_first(rt: HostRuntime) -> Result<(), Fail> {
    let rows: [(&str, Result<&str, (u64, usize)>); 28] = [
        ("sheet 10 6 blade 1", Ok("worth 0\nscrap\n")),
        (
            "\n# a board\r\n\tsheet  10 6\tblade 1 \r\n\npiece a 4 3 12\npiece a 4 3 12\n",
            Ok("worth 24\nscrap\n"),
        ),
        (
            "sheet 007 60 blade 60\npiece x 99999999999999999999 1 100000\n",
            Ok("worth 0\nscrap\n"),
        ),
        ("sheet 10 6 blade 00\n", Ok("worth 0\nscrap\n")),
        ("sheet 0 6 blade 1\n", Err((1, 0))),
        ("sheet 00 6 blade 1\n", Err((1, 0))),
        ("sheet 99999999999999999999999999 6 blade 1\n", Err((1, 0))),
        ("sheet 10 61 blade 61\n", Err((1, 1))),
        ("sheet 10 6 blade 61\n", Err((1, 2))),
        (
            "sheet 10 6 blade 1\npiece a 4 3 12\npiece b 0 3 12\n",
            Err((2, 1)),
        ),
        ("sheet 10 6 blade 1\npiece a 4 3 100001\n", Err((2, 0))),
        (
            "sheet 10 6 blade 1\npiece a 4 3 99999999999999999999\n",
            Err((2, 0)),
        ),
        ("", Err((4, 0))),
        ("# nothing\n\n", Err((4, 2))),
        ("sheet 10 6 blade 1\nsheet 10 6 blade 1\n", Err((4, 1))),
        ("sheet 10 6 blade\n", Err((4, 0))),
        ("sheet 10 6 blade 1 2\n", Err((4, 0))),
        ("sheet 10 6 kerf 1\n", Err((4, 0))),
        ("sheet 10 -6 blade 1\n", Err((4, 0))),
        ("sheet +10 6 blade 1\n", Err((4, 0))),
        ("sheet 0+1 6 blade 1\n", Err((4, 0))),
        ("sheet 10 6 blade 1\npiece a 4 3\n", Err((4, 1))),
        ("sheet 10 6 blade 1\npiece 4 3 12\n", Err((4, 1))),
        // The seventeenth is one too many, whatever those after it are; an earlier one comes first.
        (
            "sheet 10 6 blade 1\n\
             piece a 1 1 1\npiece a 1 1 1\npiece a 1 1 1\npiece a 1 1 1\npiece a 1 1 1\npiece a 1 1 1\n\
             piece a 1 1 1\npiece a 1 1 1\npiece a 1 1 1\npiece a 1 1 1\npiece a 1 1 1\npiece a 1 1 1\n\
             piece a 1 1 1\npiece a 1 1 1\npiece a 1 1 1\npiece a 1 1 1\npiece a 1 1 1\n\
             piece b 0 1 1\n",
            Err((2, 16)),
        ),
        (
            "sheet 10 6 blade 1\n\
             piece a 1 1 1\n\
             piece b 0 1 1\n\
             piece a 1 1 1\npiece a 1 1 1\npiece a 1 1 1\npiece a 1 1 1\npiece a 1 1 1\npiece a 1 1 1\n\
             piece a 1 1 1\npiece a 1 1 1\npiece a 1 1 1\npiece a 1 1 1\npiece a 1 1 1\npiece a 1 1 1\n\
             piece a 1 1 1\npiece a 1 1 1\npiece a 1 1 1\npiece a 1 1 1\npiece a 1 1 1\n",
            Err((2, 1)),
        ),
        // Of several, the first number of the list, wherever it stands.
        ("what\npiece a 0 3 12\nsheet 0 6 blade 1\n", Err((1, 0))),
        ("what\npiece a 0 3 12\nsheet 10 6 blade 1\n", Err((2, 0))),
        ("piece a 0 3 12\n", Err((2, 0))),
    ];
    for (text, expected) in rows {
        match (answer(rt.alloc(), text), expected) {
            (Ok(lines), Ok(printed)) => assert_eq!(rt; lines.as_str(), printed, "{}", text),
            (Err(Fault::Refused(refusal)), Err(place)) => {
                assert_eq!(rt; (refusal.number(), refusal.place()), place, "{}", text)
            }
            _ => return Err(Fail::new(text)),
        }
    }
    Ok(())
}
