// Readings, weak lists, and the codeword test.
use crate::{equal_strengths, graded_bytes, least_sample, light_codeword};
use bch::PLACES;
use codes::{Word, encode};
use order::{KEPT, Ordered};
use readings::{Class, Grade, Graded, Hard, Magnitude, Signed, Soft};
use receiving::is_codeword;
use refusals::Refusal;
use std::array;
use std::process::Abort;
use std::test::Fail;
use weak::weak_list;

// A signed byte, as bit and strength.
fn signed_place(rt: &impl Abort, byte: u8, bit: bool, strength: u8) {
    let bytes = [byte];
    let reading = Signed::new(&bytes);
    assert_eq!(rt; reading.bit(0), Some(bit));
    assert_eq!(rt; reading.strength(0), Some(Magnitude { value: strength }));
}

#[test]
fn signed_bytes_are_bits_with_magnitudes(rt: HostRuntime) {
    signed_place(&rt, 0x7F, true, 127);
    signed_place(&rt, 0x00, true, 0);
    signed_place(&rt, 0xFF, false, 1);
    signed_place(&rt, 0x81, false, 127);
    signed_place(&rt, least_sample(), false, 128);
}

#[test]
fn beyond_the_last_place_nothing_is_told(rt: HostRuntime) {
    let bytes = [0x7F; 3];
    let signed = Signed::new(&bytes);
    let graded = Graded::new(&bytes);
    assert_eq!(rt; signed.len(), 3);
    assert_eq!(rt; signed.bit(3), None);
    assert_eq!(rt; signed.strength(3), None);
    assert_eq!(rt; graded.len(), 3);
    assert_eq!(rt; graded.bit(3), None);
    assert_eq!(rt; graded.strength(usize::MAX), None);
    assert_eq!(rt; Word::new().bit(254), Some(false));
    assert_eq!(rt; Word::new().bit(255), None);
}

#[test]
fn graded_bytes_are_bits_with_grades(rt: HostRuntime) {
    let bytes = graded_bytes();
    let reading = Graded::new(&bytes);
    assert_eq!(rt; reading.bit(0), Some(true));
    assert_eq!(rt;
        reading.strength(0),
        Some(Grade {
            class: Class::Clear,
            level: 5
        })
    );
    assert_eq!(rt; reading.bit(1), None, "unsound");
    assert_eq!(rt; reading.strength(1), None, "unsound");
    assert_eq!(rt; reading.bit(2), Some(false));
    assert_eq!(rt;
        reading.strength(2),
        Some(Grade {
            class: Class::Lost,
            level: 0
        })
    );
    assert_eq!(rt; reading.bit(3), Some(false));
    assert_eq!(rt;
        reading.strength(3),
        Some(Grade {
            class: Class::Lost,
            level: 31
        })
    );
}

// Whether the grade of the first byte is at most that of the second.
fn at_most(first: u8, second: u8) -> bool {
    match (Grade::of(first), Grade::of(second)) {
        (Some(a), Some(b)) => a.is_at_most(&b),
        _ => false,
    }
}

#[test]
fn grades_compare_by_class_and_then_by_level(rt: HostRuntime) {
    assert!(rt;
        at_most(0x00, 0x1F) && at_most(0x1F, 0x00),
        "lost places are equal"
    );
    assert!(rt;
        at_most(0x3F, 0x40) && !at_most(0x40, 0x3F),
        "the class decides"
    );
    assert!(rt;
        at_most(0x20, 0xA1) && !at_most(0xA1, 0x20),
        "then the level"
    );
    assert!(rt;
        at_most(0x1F, 0x20) && !at_most(0x20, 0x1F),
        "lost is weakest"
    );
}

// The weak lists of a reading: under code 3, and the first four under code 2.
fn listed<R: Soft>(rt: &impl Abort, reading: &R, places: [usize; KEPT]) -> Result<(), Refusal> {
    assert_eq!(rt; weak_list(reading, 2)?.places(), &places[..4]);
    assert_eq!(rt; weak_list(reading, 3)?.places(), places.as_slice());
    Ok(())
}

#[test]
fn equal_strengths_list_the_lowest_places(rt: HostRuntime) -> Result<(), Fail> {
    let bytes = [0x5F; PLACES];
    listed(&rt, &Signed::new(&bytes), equal_strengths())?;
    listed(&rt, &Graded::new(&bytes), equal_strengths())?;
    Ok(())
}

#[test]
fn the_weakest_samples_come_first(rt: HostRuntime) -> Result<(), Fail> {
    let mut bytes = [0x81; PLACES];
    bytes[254] = 0x00;
    bytes[10] = 0x01;
    bytes[3] = 0xFF;
    bytes[200] = 0x02;
    listed(&rt, &Signed::new(&bytes), [254, 3, 10, 200, 0, 1])?;
    Ok(())
}

#[test]
fn the_weakest_grades_come_first(rt: HostRuntime) -> Result<(), Fail> {
    let mut bytes = [0xDF; PLACES];
    bytes[7] = 0x1F;
    bytes[253] = 0x80;
    bytes[5] = 0x20;
    bytes[6] = 0x3F;
    listed(&rt, &Graded::new(&bytes), [7, 253, 5, 6, 0, 1])?;
    Ok(())
}

// A reading that both calls refuse so.
fn refused<R: Soft>(rt: &impl Abort, reading: &R, number: u32, refusal: Refusal) {
    assert_eq!(rt; is_codeword(reading, number), Err(refusal));
    assert_eq!(rt; weak_list(reading, number), Err(refusal));
}

#[test]
fn readings_are_refused_by_the_first_cause(rt: HostRuntime) {
    let mut bytes = [0x40; 256];
    bytes[9] = 0x60;
    bytes[100] = 0xE0;
    let none = Graded::new(&bytes[0..0]);
    let short = Graded::new(&bytes[0..254]);
    let right = Graded::new(&bytes[0..255]);
    let long = Graded::new(&bytes);
    refused(&rt, &long, 1, Refusal::UnknownCode);
    refused(&rt, &right, 4, Refusal::UnknownCode);
    refused(&rt, &none, 2, Refusal::WrongLength);
    refused(&rt, &short, 3, Refusal::WrongLength);
    refused(&rt, &long, 2, Refusal::WrongLength);
    refused(&rt, &right, 2, Refusal::Unsound { place: 9 });
}

#[test]
fn samples_are_refused_by_their_number(rt: HostRuntime) {
    let bytes = [0x7F; 256];
    let short = Signed::new(&bytes[0..254]);
    let long = Signed::new(&bytes);
    refused(&rt, &short, 2, Refusal::WrongLength);
    refused(&rt, &long, 3, Refusal::WrongLength);
}

// Bytes for a word: one value for the places that hold one, and another for the rest.
fn word_bytes(ones: &[usize], one: u8, zero: u8) -> [u8; PLACES] {
    array::from_fn(|place| if ones.contains(&place) { one } else { zero })
}

// What the codeword test says of a word, by signed and by graded bytes.
fn tested(rt: &impl Abort, ones: &[usize], number: u32, yes: bool) {
    let signed = word_bytes(ones, 0x7F, 0x81);
    let graded = word_bytes(ones, 0x80, 0x00);
    assert_eq!(rt; is_codeword(&Signed::new(&signed), number), Ok(yes));
    assert_eq!(rt; is_codeword(&Graded::new(&graded), number), Ok(yes));
}

#[test]
fn codewords_are_told_from_their_neighbours(rt: HostRuntime) {
    tested(&rt, &[], 2, true);
    tested(&rt, &[], 3, true);
    tested(&rt, &light_codeword(), 2, true);
    // Its fifth syndrome is not zero.
    tested(&rt, &light_codeword(), 3, false);
    tested(&rt, &light_codeword()[0..4], 2, false);
    tested(&rt, &[0, 1, 68, 102, 119, 136], 2, false);
    tested(&rt, &[254], 2, false);
    tested(&rt, &[0], 3, false);
}

#[test]
fn a_corrected_word_is_a_codeword(rt: HostRuntime) {
    let mut word = Word::new();
    let message = [0x40000001; 7];
    assert_eq!(rt; encode(&message, 3, &mut word), Ok(()));
    assert_eq!(rt; is_codeword(&word, 3), Ok(true));
    assert_eq!(rt;
        is_codeword(&word, 2),
        Ok(true),
        "codewords of code 3 are codewords of code 2"
    );
    assert_eq!(rt; is_codeword(&word, 0), Err(Refusal::UnknownCode));
    assert_eq!(rt; encode(&message, 2, &mut word), Ok(()));
    assert_eq!(rt; is_codeword(&word, 2), Ok(true));
    assert_eq!(rt; is_codeword(&word, 3), Ok(false));
}
