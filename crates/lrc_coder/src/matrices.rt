ghost use Rattle.std.specs.Prelude.{◌≡◌, ◌<◌, ◌≤◌};
ghost use Rattle.lrc_code.specs.Codes.{fragment_count, data_count as data_count_of};
ghost use Rattle.lrc_field.specs.Stripes.{generator};
ghost use Rattle.lrc_coder.specs.Matrices.{matrix_count as matrix_count_of, IsMatrix};

use crate::PARITIES;
use lrc_code::{Code, Fragment};
use lrc_field::{DATA, row};

/// The number of coefficients of the greater generator matrix, that of the code `Wide`.
pub const MATRIX: usize = 192;

/// Returns the number of data fragments of the code, 12 or 6.
pub fn data_count(code: Code) -> usize
    ensures value { result ≡ data_count_of code }
    ensures few { result ≤ 12 }
{
    code.fragments() as usize - PARITIES
}

/// Returns the number of coefficients of the code's generator matrix: 192, or with the code `Narrow` 60.
pub fn matrix_count(code: Code) -> usize
    ensures value { result ≡ matrix_count_of code }
    ensures few { result ≤ 192 }
{
    match code {
        Code::Wide => 192,
        Code::Narrow => 60,
    }
}

/// Returns the generator matrix of the code, row by row, with a row for each fragment and a column for each data
/// fragment. That is how ISA-L takes it. What follows the last row is 0.
pub fn matrix(code: Code) -> [u8; MATRIX]
    ensures { IsMatrix code result }
{
    let columns = data_count(code);
    let mut matrix = [0; MATRIX];
    for index in 0..matrix_count(code) {
        matrix[index] = coefficient(code, index / columns, index % columns);
    }
    matrix
}

/// Returns the coefficient of a data fragment in a fragment.
fn coefficient(code: Code, fragment: usize, column: usize) -> u8
    requires fragment { fragment < fragment_count code }
    requires column { column < data_count_of code }
    ensures { result ≡ generator code fragment column }
{
    let fragment = Fragment {
        value: fragment as u8,
    };
    row(code, fragment).unwrap_or([0; DATA])[column]
}
