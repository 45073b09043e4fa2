// Journeys over real wires: a line of stations, its operators' calls, and what each answers.
use book::ClassBook;
use line::{Ends, Line};
use radio::Radio;
use rules::Delivered;
use slip::Fault;
use std::test::Fail;
use telegraph::Telegraph;
use wire::Wire;

// What a call comes to, by its numbers: its answer's, or its fault's number, layer and place.
type Told = Result<u32, (u8, u8, u32)>;

fn told<T: Into<u32>>(answer: Result<T, Fault>) -> Told {
    match answer {
        Ok(value) => Ok(value.into()),
        Err(fault) => Err((
            u8::from(fault.cause),
            u8::from(fault.cause.layer()),
            fault.place,
        )),
    }
}

// By its numbers, as a report prints them, so that a test holds each cause to its number.
fn no(number: u8, layer: u8, place: u32) -> Told {
    Err((number, layer, place))
}

#[test]
fn a_journey_over_the_telegraph(rt: HostRuntime) -> Result<(), Fail> {
    let mut bytes = [0u8; 640];
    let mut wire = Telegraph::new(&mut bytes);
    let mut line = Line::new(Ends::new(rt.alloc(), 3, 0)?, &mut wire, ClassBook);
    assert_eq!(rt; told(line.ask(1, 0, 12, 'F')), Ok(1));
    assert_eq!(rt; told(line.deliver()), Ok(12));
    assert_eq!(rt; told(line.deliver()), Ok(21));
    assert_eq!(rt; told(line.enter(1, 0, 12)), no(9, 2, 2));
    assert_eq!(rt; told(line.show(1, 0)), Ok(1));
    assert_eq!(rt; told(line.enter(1, 0, 12)), Ok(1));
    assert_eq!(rt; told(line.arrive(1, 1, 12)), no(10, 2, 3));
    assert_eq!(rt; told(line.deliver()), Ok(51));
    assert_eq!(rt; told(line.arrive(1, 1, 12)), Ok(1));
    assert_eq!(rt; told(line.deliver()), Ok(61));
    assert_eq!(rt; told(line.deliver()), no(12, 3, 0));
    Ok(())
}

// An asking stands in the lent buffer byte for byte, and nothing else does.
#[test]
fn an_asking_in_the_buffer(rt: HostRuntime) -> Result<(), Fail> {
    let mut bytes = [255u8; 30];
    let mut wire = Telegraph::new(&mut bytes);
    let mut line = Line::new(Ends::new(rt.alloc(), 2, 0)?, &mut wire, ClassBook);
    assert_eq!(rt; told(line.ask(0, 0, 12, 'F')), Ok(1));
    line.close();
    assert!(rt; bytes[0..11] == [1, 0, 1, b'F', 0, 12, 0, 0, 0, 1, 255]);
    Ok(())
}

// WANTED fades and is said again, CLEAR comes twice, and an OUT that fades is brought back by ENTERED.
#[test]
fn the_same_over_a_radio(rt: HostRuntime) -> Result<(), Fail> {
    // from 128 on a slip stays: here the CLEAR
    let mut wire = Radio::new(rt.alloc(), &[0, 0, 128, 0, 0, 0])?;
    let mut line = Line::new(Ends::new(rt.alloc(), 2, 0)?, &mut wire, ClassBook);
    assert_eq!(rt; told(line.ask(0, 1, 7, 'P')), Ok(1));
    line.fade();
    assert_eq!(rt; told(line.repeat(0, 1, 7)), Ok(1));
    assert_eq!(rt; told(line.deliver()), Ok(12));
    assert_eq!(rt; told(line.deliver()), Ok(21));
    assert_eq!(rt; told(line.show(0, 1)), Ok(1));
    assert_eq!(rt; told(line.enter(0, 1, 7)), Ok(1));
    assert_eq!(rt; told(line.deliver()), Ok(20));
    assert_eq!(rt; told(line.deliver()), Ok(51));
    assert_eq!(rt; told(line.arrive(0, 0, 7)), Ok(1));
    line.fade();
    assert_eq!(rt; told(line.repeat(0, 1, 7)), Ok(5));
    assert_eq!(rt; told(line.deliver()), Ok(52));
    assert_eq!(rt; told(line.deliver()), Ok(61));
    assert_eq!(rt; told(line.deliver()), no(12, 3, 0));
    Ok(())
}

#[test]
fn the_last_serial(rt: HostRuntime) -> Result<(), Fail> {
    let mut bytes = [0u8; 20];
    let mut wire = Telegraph::new(&mut bytes);
    let mut line = Line::new(Ends::new(rt.alloc(), 0, 4294967294)?, &mut wire, ClassBook);
    assert_eq!(rt; told(line.ask(0, 0, 1, 'L')), Ok(4294967295));
    assert_eq!(rt; told(line.withdraw(0, 0)), Ok(1));
    assert_eq!(rt; told(line.ask(1, 0, 1, 'L')), no(1, 1, 1));
    assert_eq!(rt; told(line.deliver()), Ok(12));
    assert_eq!(rt; told(line.deliver()), Ok(72));
    assert_eq!(rt; told(line.deliver()), Ok(20));
    assert_eq!(rt; told(line.deliver()), Ok(81));
    assert_eq!(rt; told(line.ask(0, 0, 1, 'L')), no(6, 2, 0));
    Ok(())
}

// Over ten bytes one slip waits, so that each call that puts finds the wire full.
#[test]
fn a_full_wire(rt: HostRuntime) -> Result<(), Fail> {
    let mut bytes = [0u8; 10];
    let mut wire = Telegraph::new(&mut bytes);
    let mut line = Line::new(Ends::new(rt.alloc(), 99, 0)?, &mut wire, ClassBook);
    assert_eq!(rt; told(line.ask(14, 0, 9, 'W')), Ok(1));
    assert_eq!(rt; told(line.ask(14, 1, 9, 'W')), no(11, 3, 1));
    assert_eq!(rt; told(line.ask(15, 0, 9, 'W')), no(1, 1, 1));
    assert_eq!(rt; told(line.repeat(14, 0, 9)), no(11, 3, 1));
    assert_eq!(rt; told(line.withdraw(14, 0)), Ok(0));
    assert_eq!(rt; told(line.deliver()), Ok(12));
    assert_eq!(rt; told(line.ask(13, 0, 3, 'F')), no(11, 3, 1));
    assert_eq!(rt; told(line.deliver()), Ok(20));
    assert_eq!(rt; told(line.repeat(14, 0, 9)), Ok(7));
    assert_eq!(rt; told(line.deliver()), Ok(72));
    assert_eq!(rt; told(line.deliver()), Ok(81));
    Ok(())
}

#[test]
fn what_a_station_turns_away(rt: HostRuntime) -> Result<(), Fail> {
    let mut bytes = [0u8; 640];
    let mut wire = Telegraph::new(&mut bytes);
    let mut line = Line::new(Ends::new(rt.alloc(), 16, 0)?, &mut wire, ClassBook);
    assert_eq!(rt; told(line.ask(2, 2, 5, 'F')), no(1, 1, 2));
    assert_eq!(rt; told(line.ask(2, 0, 10000, 'F')), no(1, 1, 3));
    assert_eq!(rt; told(line.ask(2, 0, 5, 'f')), no(1, 1, 4));
    assert_eq!(rt; told(line.show(2, 0)), no(7, 2, 4));
    assert_eq!(rt; told(line.ask(2, 0, 5, 'F')), Ok(1));
    assert_eq!(rt; told(line.ask(2, 0, 6, 'F')), no(3, 2, 4));
    assert_eq!(rt; told(line.deliver()), Ok(12));
    assert_eq!(rt; told(line.ask(2, 1, 6, 'F')), no(2, 2, 5));
    assert_eq!(rt; told(line.deliver()), Ok(21));
    assert_eq!(rt; told(line.enter(2, 0, 6)), no(8, 2, 4));
    assert_eq!(rt; told(line.arrive(2, 1, 6)), no(8, 2, 5));
    let form = line.write_form(2, 0)?.sign_as_conductor();
    assert_eq!(rt; told(line.present(form.sign_as_engineman())), Ok(1));
    assert_eq!(rt; told(line.ask(2, 0, 5, 'F')), no(5, 2, 4));
    Ok(())
}

// One train follows another through the block, and is in it.
fn follow<W: Wire>(line: &mut Line<W, ClassBook>, train: u32) -> Result<Delivered, Fault> {
    line.ask(0, 0, train, 'F')?;
    line.deliver()?;
    line.deliver()?;
    line.show(0, 0)?;
    line.enter(0, 0, train)?;
    line.deliver()
}

// An OUT that finds the wire full leaves its row behind, so that four rows come together.
#[test]
fn four_rows(rt: HostRuntime) -> Result<(), Fail> {
    let mut bytes = [0u8; 10];
    let mut wire = Telegraph::new(&mut bytes);
    let mut line = Line::new(Ends::new(rt.alloc(), 3, 0)?, &mut wire, ClassBook);
    assert_eq!(rt; told(follow(&mut line, 1)), Ok(51));
    assert_eq!(rt; told(follow(&mut line, 2)), Ok(51));
    assert_eq!(rt; told(follow(&mut line, 3)), Ok(51));
    assert_eq!(rt; told(follow(&mut line, 4)), no(7, 2, 0));
    assert_eq!(rt; told(line.ask(1, 0, 9, 'L')), Ok(1));
    assert_eq!(rt; told(line.arrive(0, 1, 1)), Ok(0));
    assert_eq!(rt; told(line.deliver()), Ok(12));
    assert_eq!(rt; told(line.deliver()), Ok(21));
    assert_eq!(rt; told(follow(&mut line, 4)), Ok(51));
    assert_eq!(rt; told(line.ask(0, 0, 5, 'F')), no(4, 2, 0));
    Ok(())
}
