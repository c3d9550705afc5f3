//! The largest numbers with which a book can begin. They leave room for a history of 1,000,000 entries.

/// The most leases granted for a fragment.
pub const MOST_GRANTS: u32 = 4_293_967_294;

/// The most ticks.
pub const MOST_TICKS: u32 = 4_293_967_291;

/// The most entries before the image.
pub const MOST_ENTRIES: u64 = 9_223_372_036_854_775_808;
