// Whole sheets and their reports.
use sheet::report_sheet;
use std::process::Abort;
use std::test::Fail;

// Runs a sheet, and holds its report to the one that is expected.
fn prints(rt: &(impl Abort + AllocGlobal), sheet: &[u8], report: &str) -> Result<(), Fail> {
    let told = report_sheet(rt.alloc(), sheet)?;
    assert_eq!(rt; told.as_str(), report);
    Ok(())
}

#[test]
fn nothing_and_next_to_nothing(rt: HostRuntime) -> Result<(), Fail> {
    prints(&rt, b"", "")?;
    prints(&rt, b"\n", "1 no 13 4 1\n")?;
    prints(&rt, b"fade", "1 ok 0\n")?;
    prints(&rt, b"fade\n\nfade", "1 ok 0\n2 no 13 4 1\n3 ok 0\n")
}

#[test]
fn words_out_of_place(rt: HostRuntime) -> Result<(), Fail> {
    prints(
        &rt,
        b"show  0 w\n show 0 w\nfade \ndeliver now",
        "1 no 13 4 6\n2 no 13 4 1\n3 no 13 4 6\n4 no 13 4 9\n",
    )?;
    prints(
        &rt,
        b"ask 0 w 12\nask 0\nask\nenter 0 w\nenter 0 w ",
        "1 no 13 4 11\n2 no 13 4 6\n3 no 13 4 4\n4 no 13 4 10\n5 no 13 4 11\n",
    )?;
    prints(
        &rt,
        b"show\t0 w\nfade\r\n\xff\nfa\x00de",
        "1 no 13 4 1\n2 no 13 4 1\n3 no 13 4 1\n4 no 13 4 1\n",
    )?;
    prints(
        &rt,
        b"present 0 w\nFade\nshow 00 w\nshow 01 w\nshow 123456 w",
        "1 no 13 4 1\n2 no 13 4 1\n3 no 13 4 6\n4 no 13 4 6\n5 no 13 4 6\n",
    )?;
    prints(
        &rt,
        b"show 0 W\nshow 0 we\nask 0 w 12 f\nask 0 w 12 FF\nask 0 w +1 F",
        "1 no 13 4 8\n2 no 13 4 8\n3 no 13 4 12\n4 no 13 4 12\n5 no 13 4 9\n",
    )
}

#[test]
fn readable_and_turned_away(rt: HostRuntime) -> Result<(), Fail> {
    prints(
        &rt,
        b"ask 0 w 12 X\nask 0 w 0 F\nask 0 w 99999 F\nask 2 w 12 F\nask 99999 e 12 F",
        "1 no 1 1 4\n2 no 1 1 3\n3 no 1 1 3\n4 no 1 1 1\n5 no 1 1 1\n",
    )?;
    prints(
        &rt,
        b"withdraw 1 w\nshow 1 e\nenter 1 w 5\nform 1 e\narrive 0 w 5\nrepeat 0 e 5\ndeliver",
        "1 no 7 2 2\n2 no 7 2 3\n3 no 7 2 2\n4 no 7 2 3\n5 no 7 2 0\n6 no 7 2 1\n7 no 12 3 0\n",
    )?;
    prints(
        &rt,
        b"ask 1 w 5 F\nask 1 w 6 F\ndeliver\nask 1 e 6 F\ndeliver\nrepeat 1 w 5\nenter 1 w 6\nenter 1 w 5\narrive 1 e 6\narrive 1 e 5",
        "1 ok 1\n2 no 3 2 2\n3 ok 12\n4 no 2 2 3\n5 ok 21\n6 no 7 2 2\n7 no 8 2 2\n8 no 9 2 2\n9 no 8 2 3\n10 no 10 2 3\n",
    )
}

// Form A takes a train past a signal at Stop; a second one finds nothing held.
#[test]
fn a_journey_by_form(rt: HostRuntime) -> Result<(), Fail> {
    prints(
        &rt,
        b"ask 0 e 77 W\ndeliver\ndeliver\nform 0 e\nform 0 e\nask 0 e 77 W\nask 0 e 78 F\ndeliver\ndeliver\ndeliver\nform 0 e\ndeliver\narrive 0 w 77\narrive 0 w 78\ndeliver\ndeliver",
        "1 ok 1\n2 ok 12\n3 ok 21\n4 ok 1\n5 no 7 2 1\n6 no 5 2 1\n7 ok 2\n8 ok 51\n9 ok 12\n10 ok 31\n11 ok 1\n12 ok 51\n13 ok 1\n14 ok 1\n15 ok 61\n16 ok 61\n",
    )
}

// The wire is filled to its last place: 64 slips wait, and the next finds no room.
#[test]
fn a_wire_filled_to_the_last(rt: HostRuntime) -> Result<(), Fail> {
    let mut sheet = String::from_str(rt.alloc(), "ask 0 w 1 F\n")?;
    for _ in 0..64u32 {
        sheet.push_str("repeat 0 w 1\n")?;
    }
    sheet.push_str("withdraw 0 w\ndeliver\n")?;
    let told = report_sheet(rt.alloc(), sheet.as_bytes())?;
    assert!(rt;
        told.as_str()
            .ends_with("63 ok 1\n64 ok 1\n65 no 11 3 64\n66 ok 0\n67 ok 12\n")
    );
    Ok(())
}

// Only 65,536 bytes count, and a line that is cut there counts as it stands.
#[test]
fn a_sheet_cut_off(rt: HostRuntime) -> Result<(), Fail> {
    let mut sheet = String::from_str(rt.alloc(), "fade\n")?;
    for _ in 0..8200u32 {
        sheet.push_str("deliver\n")?;
    }
    let told = report_sheet(rt.alloc(), sheet.as_bytes())?;
    assert!(rt;
        told.as_str()
            .ends_with("8191 no 12 3 0\n8192 no 12 3 0\n8193 no 13 4 1\n")
    );
    Ok(())
}
