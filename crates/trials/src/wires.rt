// Slips that are damaged, and wires that repeat, reorder and fill up.
use radio::Radio;
use slip::{Cause, Class, End, Fault, Message, Slip, Train, read, write};
use std::test::Fail;
use telegraph::Telegraph;
use wire::{Wire, full};

fn out_slip(serial: u32) -> Slip {
    Slip {
        block: 0,
        to: End::West,
        message: Message::Out,
        serial,
    }
}

fn wanted(block: u8, number: u16) -> Slip {
    Slip {
        block,
        to: End::East,
        message: Message::Wanted {
            train: Train { number },
            class: Class::Freight,
        },
        serial: 1,
    }
}

// A slip with one byte changed.
fn damaged(place: usize, byte: u8) -> Result<Slip, Fault> {
    let mut bytes = [1, 0, 1, 0x46, 0, 12, 0, 0, 0, 1];
    if place < 10 {
        bytes[place] = byte;
    }
    read(&bytes)
}

#[test]
fn each_field_is_named(rt: HostRuntime) {
    assert_eq!(rt; damaged(0, 9), Err(Cause::Unknown.at(1)));
    assert_eq!(rt; damaged(1, 15), Err(Cause::Unknown.at(2)));
    assert_eq!(rt; damaged(2, 2), Err(Cause::Unknown.at(3)));
    assert_eq!(rt; damaged(3, 0x66), Err(Cause::Unknown.at(4)));
    assert_eq!(rt; damaged(4, 0x28), Err(Cause::Unknown.at(5)));
    assert_eq!(rt; damaged(0, 2), Err(Cause::Unknown.at(4)));
    assert_eq!(rt; read(&[0u8; 11]), Err(Cause::Unknown.at(0)));
}

#[test]
fn the_first_bad_field_counts(rt: HostRuntime) {
    let mut bytes = [7u8; 12];
    assert_eq!(rt;
        write(&wanted(15, 0), &mut bytes),
        Err(Cause::Unknown.at(2))
    );
    assert_eq!(rt;
        write(&wanted(14, 10000), &mut bytes),
        Err(Cause::Unknown.at(5))
    );
    assert_eq!(rt; write(&wanted(14, 9999), &mut bytes), Ok(()));
    assert_eq!(rt; bytes, [1, 14, 1, 0x46, 0x27, 0x0f, 0, 0, 0, 1, 7, 7]);
    assert_eq!(rt;
        write(&wanted(14, 9999), &mut bytes[0..9]),
        Err(Cause::Unknown.at(0))
    );
}

#[test]
fn a_radio_repeats_and_reorders(rt: HostRuntime) -> Result<(), Fail> {
    let mut radio = Radio::new(rt.alloc(), &[5, 129, 0])?;
    assert_eq!(rt; radio.put(out_slip(1)), Ok(()));
    assert_eq!(rt; radio.put(out_slip(2)), Ok(()));
    assert_eq!(rt; radio.put(out_slip(3)), Ok(()));
    // 5 mod 3 is 2, and goes; 129 mod 2 is 1, and stays; then the oldest
    assert_eq!(rt; radio.take(), Some(out_slip(3)));
    assert_eq!(rt; radio.take(), Some(out_slip(2)));
    radio.fade();
    assert_eq!(rt; radio.take(), Some(out_slip(2)));
    assert_eq!(rt; radio.take(), None);
    Ok(())
}

#[test]
fn a_telegraph_of_two_places_goes_round(rt: HostRuntime) {
    let mut bytes = [9u8; 29];
    let mut telegraph = Telegraph::new(&mut bytes);
    assert_eq!(rt; telegraph.put(out_slip(1)), Ok(()));
    assert_eq!(rt; telegraph.put(out_slip(2)), Ok(()));
    assert_eq!(rt; telegraph.put(out_slip(3)), Err(full(2)));
    telegraph.fade();
    assert_eq!(rt; telegraph.take(), Some(out_slip(1)));
    assert_eq!(rt; telegraph.take(), Some(out_slip(2)));
    assert_eq!(rt; telegraph.put(out_slip(3)), Ok(()));
    assert_eq!(rt; telegraph.put(out_slip(4)), Ok(()));
    assert_eq!(rt; telegraph.take(), Some(out_slip(3)));
    assert!(rt; bytes[9] == 3 && bytes[19] == 4 && bytes[20] == 9);
}
