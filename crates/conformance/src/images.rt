// The bus image of two sites: a gauge at the first, a gate at the second.
use crate::outcomes::code_of;
use instruments::image::Image;
use instruments::laws::confirm;
use instruments::makes;
use instruments::works::{Gauges, Works};
use lines::refusal::RegisterFault;
use std::test::Fail;

fn two_sites() -> [u8; 280] {
    let mut bytes = [0u8; 280];
    bytes[0] = 1;
    bytes[4] = 1;
    bytes[12] = 4;
    bytes[13] = 180;
    bytes[141] = 1;
    bytes[148] = 1;
    bytes
}

fn made(rt: &HostRuntime, bytes: &[u8]) -> Result<Image, Fail> {
    match Image::new(rt.alloc(), bytes) {
        Ok(image) => Ok(image),
        Err(_) => Err(Fail::new("no image")),
    }
}

fn number(r: Result<u16, RegisterFault>) -> Result<u16, Fail> {
    match r {
        Ok(n) => Ok(n),
        Err(_) => Err(Fail::new("no number")),
    }
}

#[test]
fn shows_the_number_high_byte_first(rt: HostRuntime) -> Result<(), Fail> {
    let image = made(&rt, &two_sites())?;
    assert_eq!(rt; number(image.gauge(0, 0))?, 1204);
    assert_eq!(rt; number(image.gate(1, 0))?, 0);
    assert_eq!(rt; image.sites(), 2);
    assert_eq!(rt;
        (image.gauges(0), image.gauges(1), image.gauges(2)),
        (1, 0, 0)
    );
    assert_eq!(rt; (image.gates(0), image.gates(1), image.gates(2)), (0, 1, 0));
    Ok(())
}

#[test]
fn registers_that_do_not_answer(rt: HostRuntime) -> Result<(), Fail> {
    let mut bytes = two_sites();
    bytes[4] = 2;
    bytes[148] = 0;
    let mut image = made(&rt, &bytes)?;
    assert_eq!(rt; code_of(image.gauge(0, 0)), (41, 0));
    assert_eq!(rt; code_of(image.gauge(0, 1)), (40, 0));
    assert_eq!(rt; code_of(image.gauge(2, 0)), (40, 2));
    assert_eq!(rt; code_of(image.gate(1, 0)), (41, 1));
    assert_eq!(rt; code_of(image.set_gate(1, 0, 9)), (41, 1));
    assert_eq!(rt; code_of(image.set_gate(1, 1, 9)), (40, 1));
    assert!(rt; image.bytes() == bytes.as_slice());
    Ok(())
}

#[test]
fn a_set_gate_is_two_bytes(rt: HostRuntime) -> Result<(), Fail> {
    let mut bytes = two_sites();
    let mut image = made(&rt, &bytes)?;
    assert_eq!(rt; number(confirm(&mut image, 1, 0, 1204))?, 1204);
    bytes[216] = 4;
    bytes[217] = 180;
    assert!(rt; image.bytes() == bytes.as_slice());
    Ok(())
}

#[test]
fn lengths(rt: HostRuntime) {
    let bytes = [0u8; 2380];
    assert_eq!(rt; code_of(makes::check(&bytes[0..0])), (42, 0));
    assert_eq!(rt; code_of(makes::check(&bytes[0..139])), (42, 139));
    assert_eq!(rt; code_of(makes::check(&bytes[0..140])), (0, 0));
    assert_eq!(rt; code_of(makes::check(&bytes[0..141])), (42, 141));
    assert_eq!(rt; code_of(makes::check(&bytes[0..2240])), (0, 0));
    assert_eq!(rt; code_of(makes::check(&bytes[0..2380])), (42, 2380));
}

#[test]
fn counts_and_zero_bytes(rt: HostRuntime) {
    let mut bytes = two_sites();
    bytes[140] = 32;
    assert_eq!(rt; code_of(makes::check(&bytes)), (0, 0));
    bytes[143] = 1;
    assert_eq!(rt; code_of(makes::check(&bytes)), (43, 143));
    bytes[141] = 33;
    assert_eq!(rt; code_of(makes::check(&bytes)), (43, 141));
    bytes[140] = 33;
    assert_eq!(rt; code_of(makes::check(&bytes)), (43, 140));
    bytes[2] = 255;
    assert_eq!(rt; code_of(makes::check(&bytes)), (43, 2));
}
