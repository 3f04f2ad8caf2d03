mod bursts;
mod lines;
mod sizes;

use bch::{MESSAGE_WORDS, lay_number, number_of};
use codes::{Word, encode, take_message};
use refusals::{Refusal, outcome_number};
use std::process::Abort;

const A: [u32; MESSAGE_WORDS] = [
    0x40000001, 0x40000000, 0x40000000, 0x40000000, 0x40000000, 0x40000000, 0x40000000,
];

const B: [u32; MESSAGE_WORDS] = [
    0x40000002, 0x40000000, 0x40000000, 0x40000000, 0x40000000, 0x40000000, 0x40000000,
];

// The parity places as a number, place i at bit i.
fn low_places(word: &Word, count: usize) -> u32 {
    number_of(&word.bits()[..count.min(32)])
}

// Encodes, compares the parity, and takes the message out again.
fn goes_through(
    rt: &impl Abort,
    message: [u32; MESSAGE_WORDS],
    code: u32,
    places: usize,
    parity: u32,
) {
    let mut word = Word::new();
    let mut out = [0; MESSAGE_WORDS];
    assert_eq!(rt; encode(&message, code, &mut word), Ok(()));
    assert_eq!(rt; u32::from(word.code()), code);
    assert_eq!(rt; low_places(&word, places), parity);
    assert_eq!(rt; take_message(&word, &mut out), Ok(()));
    assert_eq!(rt; out, message);
}

#[test]
fn messages_go_in_and_out(rt: HostRuntime) {
    goes_through(&rt, A, 2, 16, 0xEF46);
    goes_through(&rt, B, 2, 16, 0x5EE3);
    goes_through(&rt, A, 3, 24, 0x044C0A);
    goes_through(&rt, B, 3, 24, 0x730F60);
}

#[test]
fn numbers_stand_in_places(rt: HostRuntime) {
    let mut places = [true; 5];
    lay_number(6, &mut places);
    assert_eq!(rt; places, [false, true, true, false, false]);
    assert_eq!(rt; number_of(&places), 6);
}

#[test]
fn the_zero_word_carries_no_message(rt: HostRuntime) {
    let word = Word::new();
    let mut out = A;
    assert_eq!(rt; take_message(&word, &mut out), Err(Refusal::NoMessage));
    assert_eq!(rt; out, A, "the memory is as it was");
}

// A call that must be refused so, and leave the word as it was.
fn refused(rt: &impl Abort, words: &[u32], code: u32, refusal: Refusal) {
    let mut word = Word::new();
    let mut out = [0; MESSAGE_WORDS];
    assert_eq!(rt; encode(&A, 3, &mut word), Ok(()));
    assert_eq!(rt; encode(words, code, &mut word), Err(refusal));
    assert_eq!(rt; u32::from(word.code()), 3);
    assert_eq!(rt; take_message(&word, &mut out), Ok(()));
    assert_eq!(rt; out, A);
}

#[test]
fn refusals_leave_the_word(rt: HostRuntime) {
    let mut wrong = B;
    wrong[6] = 0x80000000;
    refused(&rt, &B, 4, Refusal::UnknownCode);
    // The first that fits.
    refused(&rt, &wrong, 0, Refusal::UnknownCode);
    refused(&rt, &wrong, 2, Refusal::NoMessage);
    refused(&rt, &B[0..6], 2, Refusal::NoMessage);
    refused(&rt, &[], 3, Refusal::NoMessage);
}

#[test]
fn outcomes_have_their_numbers(rt: HostRuntime) {
    let mut word = Word::new();
    assert_eq!(rt; outcome_number(&encode(&A, 2, &mut word)), 0);
    assert_eq!(rt; outcome_number(&encode(&A, 5, &mut word)), 1);
    assert_eq!(rt; outcome_number(&encode(&A[0..1], 3, &mut word)), 5);
}

#[test]
fn refusals_have_their_numbers(rt: HostRuntime) {
    assert_eq!(rt; u8::from(Refusal::UnknownCode), 1);
    assert_eq!(rt; u8::from(Refusal::WrongLength), 2);
    assert_eq!(rt; u8::from(Refusal::Unsound { place: 7 }), 3);
    assert_eq!(rt; u8::from(Refusal::Unreadable), 4);
    assert_eq!(rt; u8::from(Refusal::NoMessage), 5);
    assert_eq!(rt; u8::from(Refusal::CountFull), 6);
    assert_eq!(rt; u8::from(Refusal::TallyFull), 7);
    assert_eq!(rt; u8::from(Refusal::NoLine), 8);
    assert_eq!(rt; u8::from(Refusal::ShortOutput), 9);
}
