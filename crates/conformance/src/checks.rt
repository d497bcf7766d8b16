// Checking: accepted programs, and each refusal with the term that it names.
use crate::outcomes::code_of;
use checker::accepted::Accepted;
use checker::checking::check as check_program;
use checker::scopes::ScopeList;
use instruments::bench::Bench;
use instruments::works::{Gauges, Works};
use std::alloc::AllocError;
use std::test::Fail;
use syntax::text::Text;

// A text place, a scope list and a program place, as the program `gateway` has them, which is no library.
#[derive(Drop)]
struct Desk {
    text: Text,
    scopes: ScopeList,
    program: Accepted,
}

fn empty_desk(rt: &HostRuntime) -> Result<Desk, AllocError> {
    let heap = rt.alloc();
    Ok(Desk {
        text: Text::new(heap)?,
        scopes: ScopeList::new(heap)?,
        program: Accepted::new(heap)?,
    })
}

// The refusal's number and term; (0, 0) where the program is accepted.
fn outcome(desk: &mut Desk, bytes: &[u8]) -> (u16, usize) {
    if let Err(refusal) = desk.text.read(bytes) {
        return refusal.code();
    }
    code_of(check_program(&desk.text, &mut desk.scopes, &mut desk.program))
}

#[test]
fn accepted(rt: HostRuntime) -> Result<(), Fail> {
    let mut d = empty_desk(&rt)?;
    assert_eq!(rt;
        outcome(
            &mut d,
            b"(station 1 0)\n(station 0 1)\n(run 1 (gate 0 (getn (site 0) (gauge 0))))\n"
        ),
        (0, 0)
    );
    assert_eq!(rt;
        outcome(
            &mut d,
            b"(station 1 0)\n(run 0 (letd (here (num 7)) (getn (w 0) (v 0))))\n"
        ),
        (0, 0)
    );
    assert_eq!(rt;
        outcome(
            &mut d,
            b"(station 1 0)\n(run 0 (lam (at (box num)) (letd (v 0) (getb (w 0) (v 0)))))\n"
        ),
        (0, 0)
    );
    assert_eq!(rt;
        outcome(
            &mut d,
            b"(station 1 0)\n(run 0 (letcc num (throw num 0 (num 5))))\n"
        ),
        (0, 0)
    );
    assert_eq!(rt;
        outcome(
            &mut d,
            b"(station 1 0)\n(station 1 0)\n(run 0 (letcc num (getn (site 1) (throw num 0 (gauge 0)))))\n"
        ),
        (0, 0)
    );
    assert_eq!(rt;
        outcome(
            &mut d,
            b"(station 1 0)\n(run 0 (app (lam num (lam num (v 1))) (num 3)))\n"
        ),
        (0, 0)
    );
    assert_eq!(rt;
        outcome(&mut d, b"(station 32 0)\n(run 0 (gauge 31))\n"),
        (0, 0)
    );
    Ok(())
}

// Whether a program is accepted and the line of its type is this one.
fn names(desk: &mut Desk, bytes: &[u8], line: &[u8]) -> bool {
    let mut out = [0u8; 64];
    if outcome(desk, bytes) != (0, 0) || line.len() > 64 {
        return false;
    }
    match desk.program.write_type(&mut out) {
        Ok(length) => length == line.len() && &out[0..line.len()] == line,
        Err(_) => false,
    }
}

#[test]
fn types_are_named(rt: HostRuntime) -> Result<(), Fail> {
    let mut d = empty_desk(&rt)?;
    assert!(rt;
        names(
            &mut d,
            b"(station 1 0)\n(run 0 (gauge 0))\n",
            b"(type num)\n"
        )
    );
    assert!(rt;
        names(
            &mut d,
            b"(station 1 0)\n(run 0 (lam none (pair (v 0) (here (v 0)))))\n",
            b"(type (fn none (both none (at none))))\n"
        )
    );
    assert!(rt;
        names(
            &mut d,
            b"(station 1 0)\n(run 0 (box (num 1)))\n",
            b"(type (box num))\n"
        )
    );
    Ok(())
}

#[test]
fn refused(rt: HostRuntime) -> Result<(), Fail> {
    let mut d = empty_desk(&rt)?;
    assert_eq!(rt;
        outcome(
            &mut d,
            b"(station 1 0)\n(run 0 (letd (here (num 7)) (v 0)))\n"
        ),
        (21, 3)
    );
    assert_eq!(rt;
        outcome(
            &mut d,
            b"(station 1 0)\n(run 0 (go num (site 0) (num 1)))\n"
        ),
        (22, 1)
    );
    assert_eq!(rt;
        outcome(&mut d, b"(station 1 0)\n(run 0 (box (gauge 0)))\n"),
        (23, 1)
    );
    assert_eq!(rt;
        outcome(&mut d, b"(station 32 0)\n(run 0 (gauge 32))\n"),
        (24, 0)
    );
    assert_eq!(rt;
        outcome(&mut d, b"(station 1 1)\n(run 0 (gate 1 (num 5)))\n"),
        (24, 0)
    );
    assert_eq!(rt;
        outcome(&mut d, b"(station 1 0)\n(run 1 (num 5))\n"),
        (20, 0)
    );
    assert_eq!(rt;
        outcome(&mut d, b"(station 1 0)\n(run 0 (fst (v 0)))\n"),
        (20, 1)
    );
    assert_eq!(rt;
        outcome(&mut d, b"(station 1 0)\n(run 0 (getn (w 0) (num 1)))\n"),
        (20, 0)
    );
    Ok(())
}

// Parts are held to their types in the order of the text, and a world and a count come before the part.
#[test]
fn order(rt: HostRuntime) -> Result<(), Fail> {
    let mut d = empty_desk(&rt)?;
    assert_eq!(rt;
        outcome(&mut d, b"(station 1 0)\n(run 0 (app (num 1) (v 0)))\n"),
        (22, 1)
    );
    assert_eq!(rt;
        outcome(&mut d, b"(station 1 0)\n(run 0 (getn (site 1) (v 0)))\n"),
        (20, 0)
    );
    assert_eq!(rt;
        outcome(&mut d, b"(station 1 0)\n(run 0 (throw num 0 (v 0)))\n"),
        (20, 0)
    );
    assert_eq!(rt;
        outcome(&mut d, b"(station 1 0)\n(run 0 (gate 9 (box (num 1))))\n"),
        (22, 1)
    );
    assert_eq!(rt;
        outcome(
            &mut d,
            b"(station 1 0)\n(run 0 (below num (num 1) (num 2) (box (num 3)) (v 0)))\n"
        ),
        (22, 3)
    );
    assert_eq!(rt;
        outcome(
            &mut d,
            b"(station 1 0)\n(run 0 (app (lam (both num num) (v 0)) (pair (num 1) (here (num 2)))))\n"
        ),
        (22, 3)
    );
    Ok(())
}

#[test]
fn a_refusal_inside_binders_leaves_nothing_bound(rt: HostRuntime) -> Result<(), Fail> {
    let mut d = empty_desk(&rt)?;
    let mut out = [0u8; 64];
    assert_eq!(rt;
        code_of(check_program(&d.text, &mut d.scopes, &mut d.program)),
        (25, 0)
    );
    assert_eq!(rt;
        outcome(
            &mut d,
            b"(station 1 0)\n(run 0 (lam num (letcc num (box (v 1)))))\n"
        ),
        (20, 3)
    );
    assert_eq!(rt; outcome(&mut d, b"(station 1 0)\n(run 0 (v 0))\n"), (20, 0));
    assert_eq!(rt;
        outcome(&mut d, b"(station 1 0)\n(run 0 (lam num (v 0)))\n"),
        (0, 0)
    );
    assert!(rt; d.text.write(&mut out).is_ok());
    Ok(())
}

// Sixty functions, one in the other, around a leaf.
fn nested(rt: &HostRuntime, leaf: &[u8]) -> Result<Vec<u8>, AllocError> {
    let mut text = Vec::new(rt.alloc());
    text.extend_from_slice(b"(station 1 0)\n(run 0 ")?;
    for _ in 0..60 {
        text.extend_from_slice(b"(lam num ")?;
    }
    text.extend_from_slice(leaf)?;
    for _ in 0..60 {
        text.extend_from_slice(b")")?;
    }
    text.extend_from_slice(b")\n")?;
    Ok(text)
}

#[test]
fn binders_nest_deep(rt: HostRuntime) -> Result<(), Fail> {
    let mut d = empty_desk(&rt)?;
    assert_eq!(rt;
        outcome(&mut d, nested(&rt, b"(v 60)")?.as_slice()),
        (20, 60)
    );
    assert_eq!(rt; outcome(&mut d, nested(&rt, b"(v 59)")?.as_slice()), (0, 0));
    Ok(())
}

#[test]
fn a_bench_on_the_sheet_of_a_program(rt: HostRuntime) -> Result<(), Fail> {
    let mut d = empty_desk(&rt)?;
    assert_eq!(rt;
        outcome(&mut d, b"(station 2 1)\n(run 0 (num 1))\n"),
        (0, 0)
    );
    match d.program.sheet() {
        Ok(sheet) => {
            let bench = Bench::new(&sheet);
            assert_eq!(rt; (bench.sites(), bench.gauges(0), bench.gates(0)), (1, 2, 1));
            Ok(())
        }
        Err(_) => Err(Fail::new("no sheet")),
    }
}
