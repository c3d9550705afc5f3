ghost use Rattle.std.specs.Prelude.{◌≡◌, ◌≢◌};
ghost use Rattle.lrc_field.specs.Field.{plus, times_x as times_x_of, times, inverse as inverse_of};

/// Returns the sum of two elements of the field: their bitwise exclusive or. Each element is its own negative.
pub fn add(first: u8, second: u8) -> u8
    ensures { result ≡ plus first second }
{
    first ^ second
}

/// Returns the product by x.
fn times_x(element: u8) -> u8
    ensures { result ≡ times_x_of element }
{
    (element << 1) ^ (29 * (element / 128))
}

/// Returns the product of two elements of the field: of polynomials modulo x^8 + x^4 + x^3 + x^2 + 1, which is 0x11d,
/// where bit i of a byte is the coefficient of x^i. Intel's ISA-L and many others use the same field.
pub fn multiply(first: u8, second: u8) -> u8
    ensures { result ≡ times first second }
{
    let mut bits = first;
    let mut power = second;
    let mut sum: u8 = 0;
    for _step in 0..8usize {
        sum ^= bits % 2 * power;
        bits /= 2;
        power = times_x(power);
    }
    sum
}

/// Returns the element whose product with this one is 1, or 0 for 0, which has none.
pub fn inverse(element: u8) -> u8
    ensures value { result ≡ inverse_of element }
    ensures product { element ≢ 0 → times element result ≡ 1 }
    ensures none { element ≡ 0 → result ≡ 0 }
{
    // The power 255 of each element but 0 is 1.
    let p2 = multiply(element, element);
    let p4 = multiply(p2, p2);
    let p8 = multiply(p4, p4);
    let p16 = multiply(p8, p8);
    let p32 = multiply(p16, p16);
    let p64 = multiply(p32, p32);
    let p128 = multiply(p64, p64);
    multiply(
        p2,
        multiply(
            p4,
            multiply(p8, multiply(p16, multiply(p32, multiply(p64, p128)))),
        ),
    )
}
