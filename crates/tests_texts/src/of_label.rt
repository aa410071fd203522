//! The cells of labels, given back with what they hold.
use label::{Labels, TABLE};
use std::test::Fail;

#[test]
fn cells_after_a_label(rt: HostRuntime) -> Result<(), Fail> {
    let mut table = [0u32; TABLE];
    let mut labels = Labels::new(b"  LIM: NOP", &mut table);
    let recorded = labels.record(2, 5, 0x1000);
    assert!(rt; recorded.is_ok());
    let cells = labels.into_cells();
    // The hash of LIM, ((76 * 53 + 73) * 53 + 77) modulo 128, has the first row, which is counted from 1.
    assert_eq!(rt; cells[86], 1);
    // The row: where the name starts, its length, the address, and no row before it.
    assert_eq!(rt; &cells[128..132], [2, 3, 0x1000, 0].as_slice());
    Ok(())
}
