// Each refusal by its number and first value, into buffers that fit exactly and that are a byte too short.
use lines::refusal::*;
use std::test::Fail;

#[test]
fn numbers(rt: HostRuntime) {
    assert_eq!(rt; Refusal::Text(TextFault::TooLong).code(), (10, 65536));
    assert_eq!(rt; Refusal::Text(TextFault::Grammar(7)).code(), (11, 7));
    assert_eq!(rt; Refusal::Text(TextFault::TooDeep(8)).code(), (12, 8));
    assert_eq!(rt; Refusal::Text(TextFault::TooMany(9)).code(), (13, 9));
    assert_eq!(rt; Refusal::Text(TextFault::Sheet(10)).code(), (14, 10));
    assert_eq!(rt; Refusal::Check(CheckFault::Mismatch(3)).code(), (22, 3));
    assert_eq!(rt; Refusal::Nothing.code(), (25, 0));
    assert_eq!(rt; Refusal::ShortBuffer.code(), (34, 0));
    assert_eq!(rt;
        Refusal::Register(RegisterFault::NotFitted { site: 5, number: 6 }).code(),
        (40, 5)
    );
    assert_eq!(rt;
        Refusal::Register(RegisterFault::Silent { site: 1, number: 2 }).code(),
        (41, 1)
    );
    assert_eq!(rt; Refusal::Image(ImageFault::Length(139)).code(), (42, 139));
    assert_eq!(rt; Refusal::Image(ImageFault::Byte(142)).code(), (43, 142));
}

#[test]
fn exact(rt: HostRuntime) -> Result<(), Fail> {
    let mut out = [7u8; 17];
    match Refusal::Image(ImageFault::Length(139)).write_refused(&mut out) {
        Ok(length) => assert_eq!(rt; length, 17),
        Err(_) => return Err(Fail::new("refused")),
    }
    assert!(rt; &out[0..17] == b"(refused 42 139)\n".as_slice());
    Ok(())
}

#[test]
fn a_byte_short(rt: HostRuntime) -> Result<(), Fail> {
    let mut out = [7u8; 16];
    match Refusal::Image(ImageFault::Length(139)).write_refused(&mut out) {
        Ok(_) => return Err(Fail::new("written")),
        Err(refusal) => assert_eq!(rt; refusal.code(), (34, 0)),
    }
    assert!(rt; &out[0..16] == [7u8; 16].as_slice());
    Ok(())
}
