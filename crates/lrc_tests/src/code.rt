//! How many sets of losses are recoverable, by their size.

use lrc_code::{Code, LossMask};
use std::process::Abort;

/// Expects that as many sets of each size are recoverable.
fn expect_counts(rt: &impl Abort, code: Code, want: &[u32; 17]) {
    let mut recoverable = [0u32; 17];
    for bits in 0..=u16::MAX {
        let losses = LossMask::from_bits(bits);
        if losses.fits(code) && losses.recoverable_in(code) {
            if let Some(count) = recoverable.get_mut(bits.count_ones() as usize) {
                *count = count.saturating_add(1);
            }
        }
    }
    assert!(rt; recoverable == *want);
}

#[test]
fn three_losses_are_always_repaired_and_five_never(rt: HostRuntime) {
    let wide = [1, 16, 120, 560, 1568, 0, 0, 0, 0, 0, 0, 0, 0, 0, 0, 0, 0];
    expect_counts(&rt, Code::Wide, &wide);
    let narrow = [1, 10, 45, 120, 180, 0, 0, 0, 0, 0, 0, 0, 0, 0, 0, 0, 0];
    expect_counts(&rt, Code::Narrow, &narrow);
}
