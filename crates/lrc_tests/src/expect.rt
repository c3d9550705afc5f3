//! Assertions that many tests have in common. In functions of their own they are proved once.

use std::fmt::Display;
use std::process::Abort;

/// Expects a number.
pub(crate) fn expect_number(rt: &impl Abort, number: u64, wanted: u64) {
    assert_eq!(rt; number, wanted);
}

/// Expects what a value prints.
pub(crate) fn expect_text(rt: &(impl AllocGlobal + Abort), value: &impl Display, wanted: &str) {
    let text = format!(in rt.alloc(); "{value}").expect(rt, "memory");
    assert!(rt; text.as_str() == wanted, "{text}");
}
