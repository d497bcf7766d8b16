// Worked programs on a bench or an image: their steps, where the machine stands, and their answers.
use crate::outcomes::code_of;
use checker::accepted::Accepted;
use checker::checking::check as check_program;
use checker::scopes::ScopeList;
use instruments::bench::Bench;
use instruments::image::Image;
use instruments::sheet::{Sheet, Station};
use instruments::works::Works;
use lines::refusal::Refusal;
use machine::place::{Machine, Run};
use std::test::Fail;
use syntax::text::Text;

// A machine that was started with the program of a text.
fn started(rt: &HostRuntime, bytes: &[u8]) -> Result<Machine, Fail> {
    let mut text = Text::new(rt.alloc())?;
    let mut scopes = ScopeList::new(rt.alloc())?;
    let mut program = Accepted::new(rt.alloc())?;
    let mut machine = Machine::new(rt.alloc())?;
    if text.read(bytes).is_err() {
        return Err(Fail::new("not read"));
    }
    if check_program(&text, &mut scopes, &mut program).is_err() {
        return Err(Fail::new("not accepted"));
    }
    match machine.start(&program) {
        Ok(()) => Ok(machine),
        Err(_) => Err(Fail::new("not started")),
    }
}

// 0 for done, 1 for spent, else the refusal's number; and the steps, or the first value that the refusal names.
fn told(answer: Result<Run, Refusal>) -> (u16, usize) {
    match answer {
        Ok(Run::Done { steps }) => (0, steps as usize),
        Ok(Run::Spent { steps }) => (1, steps as usize),
        Err(refusal) => refusal.code(),
    }
}

// Whether a call that writes wrote this line, into a buffer that it fills.
fn wrote(answer: Result<usize, Refusal>, out: &[u8], line: &[u8]) -> bool {
    match answer {
        Ok(length) if length <= out.len() => &out[0..length] == line,
        _ => false,
    }
}

fn stands(machine: &Machine, line: &[u8]) -> bool {
    let mut out = [0u8; 64];
    let answer = machine.write_stand(&mut out);
    wrote(answer, &out, line)
}

fn answers(machine: &Machine, line: &[u8]) -> bool {
    let mut out = [0u8; 64];
    let answer = machine.write_answer(&mut out);
    wrote(answer, &out, line)
}

// One site with a gauge, silent.
fn bench() -> Bench {
    let mut sheet = Sheet::new();
    let _ = sheet.add(Station {
        gauges: 1,
        gates: 0,
    });
    Bench::new(&sheet)
}

// Two sites: a gauge at the first, which shows 1,204 or is silent, and a gate at the second.
fn image(rt: &HostRuntime, heard: u8) -> Result<Image, Fail> {
    let mut bytes = [0u8; 280];
    bytes[0] = 1;
    bytes[4] = heard;
    bytes[12] = 4;
    bytes[13] = 180;
    bytes[141] = 1;
    bytes[148] = 1;
    match Image::new(rt.alloc(), &bytes) {
        Ok(image) => Ok(image),
        Err(_) => Err(Fail::new("no image")),
    }
}

const COPYING: &[u8] =
    b"(station 1 0)\n(station 0 1)\n(run 1 (gate 0 (getn (site 0) (gauge 0))))\n";

#[test]
fn a_gauge_is_copied_to_a_gate(rt: HostRuntime) -> Result<(), Fail> {
    let mut machine = started(&rt, COPYING)?;
    let mut works = image(&rt, 1)?;
    assert_eq!(rt; told(machine.run(&mut works, 4)), (1, 4));
    assert!(rt; stands(&machine, b"(stand 1 back 1 1 0 1)\n"));
    let mut out = [7u8; 32];
    assert_eq!(rt; code_of(machine.write_answer(&mut out)), (33, 0));
    assert_eq!(rt; told(machine.run(&mut works, 100000)), (0, 1));
    assert!(rt; stands(&machine, b"(stand 1 done 1 1 0 2)\n"));
    assert!(rt; answers(&machine, b"(answer (num 1204))\n"));
    assert_eq!(rt; works.gate(1, 0).ok(), Some(1204));
    assert_eq!(rt;
        (works.bytes().get(216), works.bytes().get(217)),
        (Some(&4), Some(&180))
    );
    assert_eq!(rt; told(machine.run(&mut works, 0)), (0, 0));
    Ok(())
}

#[test]
fn a_silent_gauge_stops_a_run(rt: HostRuntime) -> Result<(), Fail> {
    let mut machine = started(&rt, COPYING)?;
    let mut works = image(&rt, 0)?;
    let answer = machine.run(&mut works, 100000);
    let mut out = [7u8; 32];
    match answer {
        Ok(_) => return Err(Fail::new("not refused")),
        Err(refusal) => {
            assert_eq!(rt; refusal.code(), (31, 0));
            let line = refusal.write_refusal(&mut out);
            assert!(rt; wrote(line, &out, b"(refused 31 0 0 0 2)\n"));
        }
    }
    assert!(rt; stands(&machine, b"(stand 0 eval 1 1 0 0)\n"));
    Ok(())
}

#[test]
fn answers_of_worked_programs(rt: HostRuntime) -> Result<(), Fail> {
    let mut works = bench();
    let mut fetching = started(
        &rt,
        b"(station 1 0)\n(run 0 (letd (here (num 7)) (getn (w 0) (v 0))))\n",
    )?;
    assert_eq!(rt; told(fetching.run(&mut works, 100000)), (0, 8));
    assert!(rt; answers(&fetching, b"(answer (num 7))\n"));
    let mut throwing = started(
        &rt,
        b"(station 1 0)\n(run 0 (letcc num (throw num 0 (num 5))))\n",
    )?;
    assert_eq!(rt; told(throwing.run(&mut works, 100000)), (0, 3));
    assert!(rt; answers(&throwing, b"(answer (num 5))\n"));
    let mut applying = started(
        &rt,
        b"(station 1 0)\n(run 0 (app (lam num (lam num (v 1))) (num 3)))\n",
    )?;
    assert_eq!(rt; told(applying.run(&mut works, 100000)), (0, 6));
    assert!(rt; answers(&applying, b"(answer (fn 2 (num 3)))\n"));
    Ok(())
}

#[test]
fn refused_before_a_step(rt: HostRuntime) -> Result<(), Fail> {
    let mut empty = Machine::new(rt.alloc())?;
    let mut works = bench();
    let mut out = [7u8; 8];
    assert_eq!(rt; told(empty.run(&mut works, 1)), (25, 0));
    assert_eq!(rt; code_of(empty.write_stand(&mut out)), (25, 0));
    assert_eq!(rt; code_of(empty.write_answer(&mut out)), (25, 0));
    let unaccepted = Accepted::new(rt.alloc())?;
    assert!(rt; empty.start(&unaccepted).is_err());
    let mut machine = started(&rt, COPYING)?;
    assert_eq!(rt; told(machine.run(&mut works, 1)), (30, 1));
    assert_eq!(rt; code_of(machine.write_stand(&mut out)), (34, 0));
    assert!(rt; &out[0..8] == [7u8; 8].as_slice());
    Ok(())
}
