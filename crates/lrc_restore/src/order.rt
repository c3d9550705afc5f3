ghost use Rattle.std.specs.Prelude.{◌≡◌, Bool, true};
ghost use Rattle.lrc_images.specs.Rising.{IsRising};
ghost use Rattle.lrc_images.specs.Causes.{is_out_of_order};

/// A row of a list of an image, whose rows rise.
pub(crate) trait Ordered {
    // whether the first row comes before the second
    ghost first: { Self → Self → Bool };

    /// Whether the row comes before another one.
    fn comes_before(&self, other: &Self) -> bool
        ensures { result ≡ first self.now other.now };

    // what comes before a row comes before all that come after that row
    ghost joins: { (a b c : Self) → first a b ≡ true → first b c ≡ true → first a c ≡ true };
}

/// Whether a row does not come after these rows, which rise.
pub(crate) fn is_out_of_order<R: Ordered>(before: &[R], row: &R) -> bool
    requires { IsRising R.first before.now }
    ensures { result ≡ is_out_of_order R.first before.now row.now }
{
    match before.last() {
        Some(last) => !last.comes_before(row),
        None => false,
    }
}
