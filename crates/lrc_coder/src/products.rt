ghost use Rattle.std.specs.Prelude.{◌≡◌, ℕ, ◌<◌, length, get_or};
ghost use Rattle.lrc_field.specs.Field.{times};
ghost use Rattle.lrc_coder.specs.Buffers.{IsProductAdded};

use lrc_field::multiply;

/// Returns the product of the coefficient and each byte.
fn products(coefficient: u8) -> [u8; 256]
    ensures { (byte : ℕ) → byte < 256 → get_or result byte 0 ≡ times coefficient byte }
{
    let mut low = [0; 16];
    let mut high = [0; 16];
    for digit in 0..16u8 {
        low[digit as usize] = multiply(coefficient, digit);
        high[digit as usize] = multiply(coefficient, 16 * digit);
    }
    let mut products = [0; 256];
    for byte in 0..256usize {
        products[byte] = low[byte % 16] ^ high[byte / 16];
    }
    products
}

/// Adds the bytes of the source.
fn add_bytes(source: &[u8], sum: &mut [u8])
    requires { length source.now ≡ length sum.old }
    ensures { IsProductAdded 1 source.now sum.old sum.new }
{
    for i in 0..sum.len() {
        sum[i] ^= source[i];
    }
}

/// Adds what a table has for the bytes of the source.
fn add_by_table(coefficient: u8, source: &[u8], sum: &mut [u8])
    requires { length source.now ≡ length sum.old }
    ensures { IsProductAdded coefficient source.now sum.old sum.new }
{
    let products = products(coefficient);
    for i in 0..sum.len() {
        sum[i] ^= products[source[i] as usize];
    }
}

/// Adds the coefficient times the source, byte by byte.
pub(crate) fn add_product(coefficient: u8, source: &[u8], sum: &mut [u8])
    requires { length source.now ≡ length sum.old }
    ensures { IsProductAdded coefficient source.now sum.old sum.new }
{
    if coefficient == 1 {
        add_bytes(source, sum);
    } else {
        add_by_table(coefficient, source, sum);
    }
}
