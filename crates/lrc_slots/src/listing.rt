/// Whether a node is listed as one that takes seats, and its load.
#[derive(Clone, Copy)]
pub(crate) struct Listing {
    pub(crate) load: u16,
    pub(crate) is_open: bool,
}
