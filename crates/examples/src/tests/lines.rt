// Lines of a script: they are read and put where there is memory.
use bch::PLACES;
use line_fields::{Fields, Unread};
use printing::{Answer, put_line};
use refusals::Refusal;
use script_text::{Call, named_call, read_call};
use std::test::Fail;

#[test]
fn lines_are_put_after_what_stands(rt: HostRuntime) -> Result<(), Fail> {
    let mut out = Vec::from_slice(rt.alloc(), b"0 calls\n")?;
    put_line(&Answer::Tested(true), &mut out)?;
    put_line(&Answer::Refused(Refusal::Unsound { place: 9 }), &mut out)?;
    put_line(&Answer::Message(&[0x40000001, 0xABCDEF]), &mut out)?;
    put_line(&Answer::NotUnderstood, &mut out)?;
    let text = b"0 calls\nyes\nrefused 3 9\nmessage 40000001 00ABCDEF\nnot understood\n";
    assert!(rt; out.as_slice() == text.as_slice());
    Ok(())
}

#[test]
fn a_word_is_put_as_its_packed_bytes(rt: HostRuntime) -> Result<(), Fail> {
    let mut bits = [false; PLACES];
    bits[0] = true;
    bits[9] = true;
    let mut out = Vec::new(rt.alloc());
    put_line(&Answer::Word(&bits), &mut out)?;
    assert_eq!(rt; out.len(), 70);
    assert!(rt; out.as_slice().starts_with(b"word 010200"));
    Ok(())
}

#[test]
fn calls_are_read_by_their_fields(rt: HostRuntime) -> Result<(), Fail> {
    let read = read_call(rt.alloc(), Fields::new(b"encode 2 40000001 a"))?;
    let Call::Encode { code, words } = read else {
        assert!(rt; false, "an encode line is an encode call");
        return Ok(());
    };
    assert_eq!(rt; code, 2);
    assert!(rt; words.as_slice() == [0x40000001, 0xA].as_slice());
    let missing = read_call(rt.alloc(), Fields::new(b"encode"));
    assert!(rt; matches!(missing, Err(Unread::NotUnderstood)));
    Ok(())
}

#[test]
fn calls_are_read_by_their_name_and_fields(rt: HostRuntime) -> Result<(), Fail> {
    let read = named_call(rt.alloc(), b"encode", Fields::new(b"3 1 40000001"))?;
    let Call::Encode { code, words } = read else {
        assert!(rt; false, "an encode call has words");
        return Ok(());
    };
    assert_eq!(rt; code, 3);
    assert!(rt; words.as_slice() == [0x1, 0x40000001].as_slice());
    let more = named_call(rt.alloc(), b"take", Fields::new(b"2"));
    assert!(rt; matches!(more, Err(Unread::NotUnderstood)));
    Ok(())
}
