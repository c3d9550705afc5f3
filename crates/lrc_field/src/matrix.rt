ghost use Rattle.std.specs.Prelude.{◌≡◌, ◌<◌, ◌≤◌, ◌↔◌, IsSome, IfSome};
ghost use Rattle.lrc_code.specs.Codes.{fragment_count, data_count as data_count_of};
ghost use Rattle.lrc_field.specs.Stripes.{generator, IsRow};

use crate::equations::Parity;
use lrc_code::{Code, Fragment};

/// The number of data fragments of a stripe of the code `Wide`, numbered from 0. The code `Narrow` has six.
pub const DATA: usize = 12;

/// Returns the number of data fragments of the code, from 0 on. Its four parities come after them.
pub fn data_count(code: Code) -> u8
    ensures value { result ≡ data_count_of code }
    ensures few { result ≤ 12 }
{
    match code {
        Code::Wide => 12,
        Code::Narrow => 6,
    }
}

/// Returns the coefficient of a data fragment in a fragment.
fn entry(code: Code, fragment: Fragment, column: Fragment) -> u8
    requires fragment { fragment.value < fragment_count code }
    requires column { column.value < data_count_of code }
    ensures { result ≡ generator code fragment.value column.value }
{
    let count = data_count(code);
    if fragment.value < count {
        if column.value == fragment.value { 1 } else { 0 }
    } else if fragment.value == count {
        Parity::LocalA.coefficient(code, column)
    } else if fragment.value == count + 1 {
        Parity::LocalB.coefficient(code, column)
    } else if fragment.value == count + 2 {
        Parity::Global.coefficient(code, column)
    } else {
        Parity::Square.coefficient(code, column)
    }
}

/// Returns the row of a fragment in the generator matrix of the code: by data fragment, its coefficient in the fragment.
/// The rows of all fragments, from 0 on, are the encoding matrix that ISA-L takes. Of the code `Narrow` the last six
/// coefficients are 0. Returns `None` if the code has no such fragment.
pub fn row(code: Code, fragment: Fragment) -> Option<[u8; DATA]>
    ensures some { IsSome result ↔ (fragment.value < fragment_count code) }
    ensures row { IfSome result (IsRow code fragment.value) }
{
    if fragment.value >= code.fragments() {
        return None;
    }
    let mut row = [0; DATA];
    for number in 0..data_count(code) {
        row[number as usize] = entry(code, fragment, Fragment { value: number });
    }
    Some(row)
}
