use lrc_code::StripeNo;

/// Where `next` starts to look for a fragment that can be granted.
#[derive(Clone, Copy)]
pub enum RepairCursor {
    /// At the first stripe with work.
    First,
    /// At this stripe, which has work: no stripe earlier in the order of repair has such a fragment.
    At(StripeNo),
    /// Nowhere: no stripe has such a fragment.
    End,
}
