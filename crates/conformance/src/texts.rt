// Program texts: what is read and written back, and which refusal each other text gets.
use crate::outcomes::code_of;
use std::alloc::AllocError;
use std::process::Abort;
use std::test::Fail;
use syntax::text::Text;

// The refusal's number and place; (0, 0) where the text is read, and then writing gives its bytes again.
fn outcome(rt: &(impl Abort + AllocGlobal), bytes: &[u8]) -> Result<(u16, usize), Fail> {
    let mut text = Text::new(rt.alloc())?;
    if let Err(refusal) = text.read(bytes) {
        return Ok(refusal.code());
    }
    let mut out = vec![in rt.alloc(); 7u8; 65536]?;
    match text.write(out.as_mut_slice()) {
        Ok(length) => {
            restored(rt, out.as_slice(), length, bytes);
            Ok((0, 0))
        }
        Err(refusal) => Ok(refusal.code()),
    }
}

// The first bytes of a buffer are the text.
fn restored(rt: &impl Abort, out: &[u8], length: usize, bytes: &[u8]) {
    assert!(rt; length == bytes.len() && length <= out.len());
    assert!(rt; &out[0..length] == bytes);
}

fn put(text: &mut Vec<u8>, word: &[u8]) -> Result<(), AllocError> {
    text.extend_from_slice(word)
}

// A word as often as a number says.
fn put_often(text: &mut Vec<u8>, word: &[u8], times: usize) -> Result<(), AllocError> {
    for _ in 0..times {
        put(text, word)?;
    }
    Ok(())
}

// A full tree of a form with two parts over leaves, `depth` high.
fn put_tree(text: &mut Vec<u8>, depth: u8, form: &[u8], leaf: &[u8]) -> Result<(), AllocError> {
    if depth == 0 {
        return put(text, leaf);
    }
    put(text, form)?;
    put_tree(text, depth - 1, form, leaf)?;
    put(text, b" ")?;
    put_tree(text, depth - 1, form, leaf)?;
    put(text, b")")
}

#[test]
fn worked_texts(rt: HostRuntime) -> Result<(), Fail> {
    assert_eq!(rt;
        outcome(
            &rt,
            b"(station 1 0)\n(station 0 1)\n(run 1 (gate 0 (getn (site 0) (gauge 0))))\n"
        )?,
        (0, 0)
    );
    assert_eq!(rt;
        outcome(
            &rt,
            b"(station 1 0)\n(run 0 (letd (here (num 7)) (getn (w 0) (v 0))))\n"
        )?,
        (0, 0)
    );
    assert_eq!(rt;
        outcome(
            &rt,
            b"(station 1 0)\n(run 0 (lam (at (box num)) (letd (v 0) (getb (w 0) (v 0)))))\n"
        )?,
        (0, 0)
    );
    assert_eq!(rt;
        outcome(
            &rt,
            b"(station 1 0)\n(run 0 (letcc num (throw num 0 (num 5))))\n"
        )?,
        (0, 0)
    );
    assert_eq!(rt;
        outcome(
            &rt,
            b"(station 1 0)\n(run 0 (app (lam num (lam num (v 1))) (num 3)))\n"
        )?,
        (0, 0)
    );
    assert_eq!(rt;
        outcome(
            &rt,
            b"(station 32 0)\n(run 0 (below none (num 1) (num 2) (unbox (box (num 3))) (snd (pair (num 4) (num 65535)))))\n"
        )?,
        (0, 0)
    );
    assert_eq!(rt;
        outcome(
            &rt,
            b"(station 0 0)\n(run 65535 (go (fn num (both num none)) (w 9) (getd (site 3) (fst (v 2)))))\n"
        )?,
        (0, 0)
    );
    Ok(())
}

#[test]
fn grammar(rt: HostRuntime) -> Result<(), Fail> {
    assert_eq!(rt; outcome(&rt, b"")?, (11, 0));
    assert_eq!(rt; outcome(&rt, b"(")?, (11, 1));
    assert_eq!(rt; outcome(&rt, b"(run 0 (num 1))\n")?, (11, 1));
    assert_eq!(rt;
        outcome(&rt, b"(station 1 0)\n(run 0 (num 65536))\n")?,
        (11, 30)
    );
    assert_eq!(rt;
        outcome(&rt, b"(station 1 0)\n(run 0 (num 65535))")?,
        (11, 33)
    );
    assert_eq!(rt;
        outcome(&rt, b"(station 1 0)\n(run 0 (num 1))\n(")?,
        (11, 30)
    );
    assert_eq!(rt; outcome(&rt, b"(station 1  0)\n")?, (11, 11));
    Ok(())
}

#[test]
fn counts(rt: HostRuntime) -> Result<(), Fail> {
    assert_eq!(rt; outcome(&rt, b"(station 33 0)")?, (14, 9));
    assert_eq!(rt; outcome(&rt, b"(station 320 0)")?, (14, 9));
    assert_eq!(rt; outcome(&rt, b"(station 0 33")?, (14, 11));
    assert_eq!(rt; outcome(&rt, b"(station 033")?, (11, 10));
    assert_eq!(rt; outcome(&rt, b"(station 99999")?, (14, 9));
    assert_eq!(rt; outcome(&rt, b"(station 3x 0)")?, (11, 10));
    Ok(())
}

#[test]
fn lines(rt: HostRuntime) -> Result<(), Fail> {
    let mut text = Vec::new(rt.alloc());
    put_often(&mut text, b"(station 0 0)\n", 16)?;
    let mut more = text.clone()?;
    put(&mut text, b"(run 0 (num 1))\n")?;
    assert_eq!(rt; outcome(&rt, text.as_slice())?, (0, 0));
    put(&mut more, b"(")?;
    assert_eq!(rt; outcome(&rt, more.as_slice())?, (11, 225));
    put(&mut more, b"s")?;
    assert_eq!(rt; outcome(&rt, more.as_slice())?, (14, 224));
    Ok(())
}

// A term inside so many `fst`.
fn nested(rt: &HostRuntime, times: usize) -> Result<Vec<u8>, AllocError> {
    let mut text = Vec::new(rt.alloc());
    put(&mut text, b"(station 0 0)\n(run 0 ")?;
    put_often(&mut text, b"(fst ", times)?;
    put(&mut text, b"(num 0)")?;
    put_often(&mut text, b")", times)?;
    put(&mut text, b")\n")?;
    Ok(text)
}

#[test]
fn depths(rt: HostRuntime) -> Result<(), Fail> {
    assert_eq!(rt; outcome(&rt, nested(&rt, 62)?.as_slice())?, (0, 0));
    assert_eq!(rt; outcome(&rt, nested(&rt, 63)?.as_slice())?, (12, 336));
    Ok(())
}

// A tree of 1,023 terms inside so many `fst`.
fn wide(rt: &HostRuntime, times: usize) -> Result<Vec<u8>, AllocError> {
    let mut text = Vec::new(rt.alloc());
    put(&mut text, b"(station 0 0)\n(run 0 ")?;
    put_often(&mut text, b"(fst ", times)?;
    put_tree(&mut text, 9, b"(pair ", b"(num 0)")?;
    put_often(&mut text, b")", times)?;
    put(&mut text, b")\n")?;
    Ok(text)
}

// A tree of 511 types inside so many `box`.
fn typed(rt: &HostRuntime, times: usize) -> Result<Vec<u8>, AllocError> {
    let mut text = Vec::new(rt.alloc());
    put(&mut text, b"(station 0 0)\n(run 0 (lam ")?;
    put_often(&mut text, b"(box ", times)?;
    put_tree(&mut text, 8, b"(both ", b"num")?;
    put_often(&mut text, b")", times)?;
    put(&mut text, b" (num 0)))\n")?;
    Ok(text)
}

#[test]
fn tables(rt: HostRuntime) -> Result<(), Fail> {
    assert_eq!(rt; outcome(&rt, wide(&rt, 1)?.as_slice())?, (0, 0));
    assert_eq!(rt; outcome(&rt, wide(&rt, 2)?.as_slice())?, (13, 7687));
    assert_eq!(rt; outcome(&rt, typed(&rt, 1)?.as_slice())?, (0, 0));
    assert_eq!(rt; outcome(&rt, typed(&rt, 2)?.as_slice())?, (13, 2833));
    Ok(())
}

#[test]
fn lengths(rt: HostRuntime) -> Result<(), Fail> {
    let mut text = Vec::new(rt.alloc());
    put_often(&mut text, b" ", 65536)?;
    assert_eq!(rt; outcome(&rt, text.as_slice())?, (11, 0));
    put(&mut text, b" ")?;
    assert_eq!(rt; outcome(&rt, text.as_slice())?, (10, 65536));
    Ok(())
}

#[test]
fn a_refused_text_leaves_the_place(rt: HostRuntime) -> Result<(), Fail> {
    let mut text = Text::new(rt.alloc())?;
    let mut out = [7u8; 30];
    assert_eq!(rt; code_of(text.write(&mut out)), (25, 0));
    assert!(rt; text.read(b"(station 1 0)\n(run 0 (num 1))\n").is_ok());
    assert!(rt; text.read(b"(station 1 0)\n(run 0 (num 2)").is_err());
    assert!(rt; text.write(&mut out).is_ok());
    assert!(rt; &out[0..30] == b"(station 1 0)\n(run 0 (num 1))\n".as_slice());
    let mut short = [7u8; 29];
    assert_eq!(rt; code_of(text.write(&mut short)), (34, 0));
    assert!(rt; &short[0..29] == [7u8; 29].as_slice());
    Ok(())
}
