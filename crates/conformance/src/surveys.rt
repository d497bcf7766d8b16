// Surveys of a bench, of 16 sites, and into buffers that are short.
use instruments::bench::Bench;
use instruments::sheet::{Sheet, Station};
use instruments::survey::survey;
use std::test::Fail;

#[test]
fn a_line_for_each_gauge(rt: HostRuntime) {
    let mut sheet = Sheet::new();
    let _ = sheet.add(Station {
        gauges: 2,
        gates: 3,
    });
    let mut bench = Bench::new(&sheet);
    let _ = bench.place_gauge(0, 1, Some(1204));
    let mut out = [7u8; 31];
    assert!(rt; survey(&bench, &mut out).is_ok());
    assert!(rt; &out[0..31] == b"(silent 0 0)\n(gauge 0 1 1204)\n\x07".as_slice());
    let mut exact = [7u8; 30];
    assert!(rt; survey(&bench, &mut exact).is_ok());
    assert!(rt; &exact[0..30] == b"(silent 0 0)\n(gauge 0 1 1204)\n".as_slice());
    let mut short = [7u8; 29];
    assert!(rt; survey(&bench, &mut short).is_err());
    assert!(rt; &short[0..29] == [7u8; 29].as_slice());
}

#[test]
fn sixteen_sites(rt: HostRuntime) -> Result<(), Fail> {
    let mut sheet = Sheet::new();
    for _ in 0..16 {
        let _ = sheet.add(Station {
            gauges: 32,
            gates: 0,
        });
    }
    let mut bench = Bench::new(&sheet);
    let _ = bench.place_gauge(15, 31, Some(65535));
    let mut out = vec![in rt.alloc(); 0u8; 10240]?;
    match survey(&bench, out.as_mut_slice()) {
        Ok(length) => {
            assert!(rt; length == 7205 && out.len() == 10240);
            assert!(rt; &out[0..13] == b"(silent 0 0)\n".as_slice());
            assert!(rt; &out[7185..7205] == b"(gauge 15 31 65535)\n".as_slice());
            Ok(())
        }
        Err(_) => Err(Fail::new("refused")),
    }
}
