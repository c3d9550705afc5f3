ghost use Rattle.std.specs.Prelude.{◌≡◌, ℕ, ◌<◌, ◌≤◌, length};
ghost use Rattle.lrc_coder.specs.Buffers.{read, AreLong, IsSum};

use crate::products::add_product;

/// Writes the sum of the sources, each times its coefficient. A source whose coefficient is 0 is not read.
pub(crate) fn put_sum(coefficients: &[u8], sources: &[&[u8]], sum: &mut [u8])
    requires count { length sources.now ≤ length coefficients.now }
    requires long { AreLong coefficients.now (read sources.now) (length sources.now) (length sum.old) }
    ensures { IsSum coefficients.now (read sources.now) (length sources.now) sum.old sum.new }
{
    sum.fill(0);
    for number in 0..sources.len() {
        if coefficients[number] != 0 {
            add_product(coefficients[number], sources[number], sum);
        }
    }
}
