//! Where the lists of an image start. The rows of all lists are counted from 1.

ghost use Rattle.std.specs.Prelude.{◌≡◌, ◌^◌, ◌<◌};
ghost use Rattle.lrc_restore.specs.Stages.{stripes_from, grants_from, leases_from};

use lrc_images::Image;

// The bytes of a slice are known to be fewer than 2^63, those of a `Vec` are not: hence `as_slice`.

/// The position of the first row of the stripes.
pub(crate) fn stripes_from(image: &Image) -> usize
    ensures is { result ≡ stripes_from image.now }
    ensures small { result < 2 ^ 63 }
{
    1 + image.nodes.as_slice().len()
}

/// The position of the first row of the grants.
pub(crate) fn grants_from(image: &Image) -> usize
    ensures is { result ≡ grants_from image.now }
    ensures small { result < 2 ^ 63 }
{
    1 + image.nodes.as_slice().len() + image.stripes.as_slice().len()
}

/// The position of the first row of the leases.
pub(crate) fn leases_from(image: &Image) -> usize
    ensures is { result ≡ leases_from image.now }
    ensures small { result < 2 ^ 63 }
{
    let before = image.nodes.as_slice().len() + image.stripes.as_slice().len();
    1 + before + image.grants.as_slice().len()
}
