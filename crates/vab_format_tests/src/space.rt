// What an update wants of blocks.

use std::test::*;
use vab_space::{Want, blocks, fits, group_sum, need, used};

#[test]
fn chunks_that_a_store_needs(rt: HostRuntime) {
    let needed = [need(0), need(1), need(255), need(256), need(257), need(512)];
    assert!(rt; needed == [2, 3, 257, 259, 260, 516]);
}

#[test]
fn blocks_of_bytes(rt: HostRuntime) {
    assert!(rt; [blocks(0), blocks(1), blocks(4096), blocks(4097)] == [0, 1, 1, 2]);
}

#[test]
fn growth_counts_once_and_a_store_in_full(rt: HostRuntime) {
    let mut want = Want {
        before: 100,
        blocks: 150,
        store: 0,
    };
    let grown = used(&[100], &[want]);
    assert!(rt; grown == 150);
    want.store = 106;
    let stored = used(&[100], &[want]);
    assert!(rt; stored == 256);
    assert!(rt; fits(stored, 256));
    assert!(rt; !fits(stored, 255));
    assert!(rt; group_sum(&[100, 150]) == 1024000);
}
