use crate::Rows;
use std::process::Abort;
use std::test::Fail;

#[test]
fn a_table_takes_what_it_has_room_for(rt: HostRuntime) -> Result<(), Fail> {
    let mut table: Rows<u16, 3> = Rows::new(rt.alloc())?;
    assert_eq!(rt; table.push(7), Some(0));
    assert_eq!(rt; table.push(8), Some(1));
    assert_eq!(rt; table.push(9), Some(2));
    assert_eq!(rt; table.push(10), None);
    table.set(1, 11);
    table.set(3, 12);
    assert_eq!(rt; table.as_slice(), [7, 11, 9].as_slice());
    assert_eq!(rt; table.get(2), Some(9));
    assert_eq!(rt; table.get(3), None);
    assert_eq!(rt; table.len(), 3);
    assert!(rt; !table.replace(&[1, 2, 3, 4]));
    assert_eq!(rt; table.as_slice(), [7, 11, 9].as_slice());
    assert!(rt; table.replace(&[1, 2, 3]));
    assert_eq!(rt; table.as_slice(), [1, 2, 3].as_slice());
    table.clear();
    assert_eq!(rt; table.len(), 0);
    Ok(())
}
