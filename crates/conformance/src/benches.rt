// Benches and recorded sheets.
use crate::outcomes::code_of;
use instruments::bench::Bench;
use instruments::record::{Recorded, Row};
use instruments::sheet::{Sheet, Station};
use instruments::works::{Gauges, Works};
use lines::refusal::RegisterFault;
use std::test::Fail;

fn answer(r: Result<u16, RegisterFault>) -> (u16, usize) {
    match r {
        Ok(n) => (0, n as usize),
        Err(fault) => fault.code(),
    }
}

fn one_site() -> Sheet {
    let mut sheet = Sheet::new();
    let _ = sheet.add(Station {
        gauges: 2,
        gates: 1,
    });
    sheet
}

#[test]
fn a_bench_is_silent_until_placed(rt: HostRuntime) {
    let mut bench = Bench::new(&one_site());
    assert_eq!(rt; answer(bench.gauge(0, 1)), (41, 0));
    assert_eq!(rt; answer(bench.gauge(0, 2)), (40, 0));
    assert_eq!(rt; code_of(bench.place_gauge(0, 1, Some(1204))).0, 0);
    assert_eq!(rt; answer(bench.gauge(0, 1)), (0, 1204));
    assert_eq!(rt; answer(bench.gauge(0, 0)), (41, 0));
    assert_eq!(rt; code_of(bench.place_gauge(0, 2, Some(5))).0, 40);
    assert_eq!(rt; code_of(bench.place_gauge(1, 0, None)).0, 40);
    assert_eq!(rt; code_of(bench.place_gauge(0, 1, None)).0, 0);
    assert_eq!(rt; answer(bench.gauge(0, 1)), (41, 0));
}

#[test]
fn a_gate_is_placed_before_it_is_set(rt: HostRuntime) {
    let mut bench = Bench::new(&one_site());
    assert_eq!(rt; code_of(bench.set_gate(0, 0, 9)).0, 41);
    assert_eq!(rt; code_of(bench.place_gate(0, 0, Some(1))).0, 0);
    assert_eq!(rt; code_of(bench.set_gate(0, 0, 9)).0, 0);
    assert_eq!(rt; answer(bench.gate(0, 0)), (0, 9));
    assert_eq!(rt; code_of(bench.set_gate(0, 1, 9)).0, 40);
    assert_eq!(rt; code_of(bench.place_gate(0, 1, None)).0, 40);
}

#[test]
fn sheets_have_limits(rt: HostRuntime) {
    let mut sheet = Sheet::new();
    assert!(rt;
        !sheet.add(Station {
            gauges: 33,
            gates: 0
        })
    );
    assert!(rt;
        !sheet.add(Station {
            gauges: 0,
            gates: 33
        })
    );
    for _ in 0..16 {
        assert!(rt;
            sheet.add(Station {
                gauges: 32,
                gates: 32
            })
        );
    }
    assert!(rt;
        !sheet.add(Station {
            gauges: 0,
            gates: 0
        })
    );
    assert_eq!(rt; sheet.len(), 16);
}

#[test]
fn the_first_row_counts(rt: HostRuntime) -> Result<(), Fail> {
    let mut recorded = Recorded::new(rt.alloc())?;
    assert!(rt;
        recorded.add(Row {
            site: 3,
            gauge: 4,
            number: 100
        })
    );
    assert!(rt;
        recorded.add(Row {
            site: 3,
            gauge: 4,
            number: 200
        })
    );
    assert!(rt;
        recorded.add(Row {
            site: 16,
            gauge: 0,
            number: 7
        })
    );
    assert_eq!(rt; answer(recorded.gauge(3, 4)), (0, 100));
    assert_eq!(rt; answer(recorded.gauge(4, 3)), (41, 4));
    assert_eq!(rt; answer(recorded.gauge(15, 31)), (41, 15));
    assert_eq!(rt; answer(recorded.gauge(16, 0)), (40, 16));
    assert_eq!(rt; answer(recorded.gauge(0, 32)), (40, 0));
    Ok(())
}
