/// The most bytes of a bundle.
pub const BUNDLE_LIMIT: usize = 4_194_304;

/// The most scripts of a bundle.
pub(crate) const SCRIPT_LIMIT: usize = 8;

/// The most bytes of a sequel.
pub const SEQUEL_LIMIT: usize = 8_388_608;
