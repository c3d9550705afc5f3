ghost use Rattle.std.specs.Prelude.{◌≡◌, ◌≢◌, ℕ, ◌<◌, length, get_or, ◌++◌, map, IfErr, OnOk, IfSome, IfNone, IsTrue};
ghost use Rattle.lrc_code.specs.Codes.{fragment_count, data_count};
ghost use Rattle.lrc_code.specs.Losses.{FragmentSet};
ghost use Rattle.lrc_field.specs.Stripes.{Bytes, IsStripe, data_of, in_parity, sum_of};
ghost use Rattle.lrc_field.specs.Recipes.{IsRecipe, read_by};
ghost use Rattle.lrc_coder.specs.Buffers.{read, written_buffers, buffer_addresses, buffer_at, bytes_at, each_of, AreLong, IsSum};
ghost use Rattle.lrc_coder.specs.Coding.{AreCounted, AreEven, AreOwn, IsForeign, IsEncoded, IsRebuilt, IsEncodeRefusal, IsRebuildRefusal};

use crate::CodingError;
use crate::sums::put_sum;
use lrc_code::{Code, FRAGMENTS, Fragment};
use lrc_field::{DATA, Recipe, row};

/// The number of parities of a stripe of either code. They are numbered after the data.
pub const PARITIES: usize = 4;

/// Writes the parities of a stripe. `data_fragments` has the data fragments in order, twelve or with the code `Narrow` six, and
/// `parities` the four buffers to write, all of one length. At each position the bytes are a stripe then.
///
/// It returns `Count` if the buffers are not as many, and else `Length` with the first fragment whose buffer is not as
/// long as that of fragment 0. With an error nothing is written.
pub fn encode(
    code: Code,
    data_fragments: &[&[u8]],
    parities: &mut [&mut [u8]],
) -> Result<(), CodingError>
    ensures encoded { OnOk result (IsEncoded code (read data_fragments.now) (written_buffers parities.old) (written_buffers parities.new)) }
    ensures places { buffer_addresses parities.new ≡ buffer_addresses parities.old }
    ensures lengths { map length (written_buffers parities.new) ≡ map length (written_buffers parities.old) }
    ensures refused { IfErr result (λ e. IsEncodeRefusal code (read data_fragments.now) (written_buffers parities.old) e × (written_buffers parities.new ≡ written_buffers parities.old)) }
{
    if data_fragments.len() + PARITIES != code.fragments() as usize || parities.len() != PARITIES {
        return Err(CodingError::Count);
    }
    check_lengths(code, data_fragments, parities)?;
    for number in 0..PARITIES {
        put_parity(code, number, data_fragments, parities[number]);
    }
    Ok(())
}

/// Returns the first fragment whose buffer is not as long as that of fragment 0, as an error.
fn check_lengths(
    code: Code,
    data_fragments: &[&[u8]],
    parities: &[&mut [u8]],
) -> Result<(), CodingError>
    requires { AreCounted code (read data_fragments.now) (written_buffers parities.now) }
    ensures even { OnOk result (AreEven (read data_fragments.now ++ written_buffers parities.now) (fragment_count code)) }
    ensures bytes { OnOk result ((f i : ℕ) → f < length data_fragments.now → bytes_at (read data_fragments.now) i f < 256) }
    ensures refused { IfErr result (IsEncodeRefusal code (read data_fragments.now) (written_buffers parities.now)) }
{
    for number in 0..code.fragments() {
        if length_of(data_fragments, parities, number as usize) != data_fragments[0].len() {
            return Err(CodingError::Length(Fragment { value: number }));
        }
    }
    Ok(())
}

/// Returns the length of one of the buffers, of which the data come first.
fn length_of(data_fragments: &[&[u8]], parities: &[&mut [u8]], number: usize) -> usize
    requires { number < length (read data_fragments.now ++ written_buffers parities.now) }
    ensures length { result ≡ length (buffer_at (read data_fragments.now ++ written_buffers parities.now) number) }
    ensures bytes { number < length data_fragments.now → (i : ℕ) → bytes_at (read data_fragments.now) i number < 256 }
{
    if number < data_fragments.len() {
        length_of_bytes(data_fragments[number])
    } else {
        parities[number - data_fragments.len()].len()
    }
}

/// Returns the length of a buffer, whose items are bytes.
fn length_of_bytes(buffer: &[u8]) -> usize
    ensures length { result ≡ length buffer.now }
    ensures bytes { (i : ℕ) → get_or buffer.now i 0 < 256 }
{
    buffer.len()
}

/// Writes one parity of a stripe, numbered from 0.
fn put_parity(code: Code, number: usize, data_fragments: &[&[u8]], parity: &mut [u8])
    requires number { number < 4 }
    requires count { length data_fragments.now ≡ data_count code }
    requires long { (f : ℕ) → f < data_count code → length (buffer_at (read data_fragments.now) f) ≡ length parity.old }
    ensures long { length parity.new ≡ length parity.old }
    ensures bytes { (i : ℕ) → get_or parity.new i 0 < 256 }
    ensures sums { (i : ℕ) → i < length parity.old → get_or parity.new i 0 ≡ sum_of (in_parity code number) (bytes_at (read data_fragments.now) i) (data_of code) }
{
    let fragment = Fragment {
        value: data_fragments.len() as u8 + number as u8,
    };
    let coefficients = row(code, fragment).unwrap_or([0; DATA]);
    put_sum(&coefficients, data_fragments, parity);
}

/// Writes what the recipe makes of a stripe's fragments: at each position their sum, each times its coefficient.
/// `fragments` has a buffer for each fragment of the code, in order. Those that the recipe reads are as long as `rebuilt`;
/// the others are not read, and may be empty. If the recipe is one of a fragment, or copies it, and what is read are bytes
/// of a stripe, that fragment's bytes are written.
///
/// It returns `NoFragment` with the first fragment that the recipe reads and the code lacks, if there is one: it is a recipe
/// of the other code. Else it returns `Count` if the buffers are not as many as the fragments of the code, and else `Length`
/// with the first fragment that is read and whose buffer is not as long as `rebuilt`. With an error nothing is written.
pub fn rebuild(
    code: Code,
    recipe: &Recipe,
    fragments: &[&[u8]],
    rebuilt: &mut [u8],
) -> Result<(), CodingError>
    ensures rebuilt { OnOk result (IsRebuilt code recipe.now.coefficients (read fragments.now) rebuilt.old rebuilt.new) }
    ensures refused { IfErr result (λ e. IsRebuildRefusal code recipe.now.coefficients (read fragments.now) (length rebuilt.old) e × (rebuilt.new ≡ rebuilt.old)) }
{
    if let Some(fragment) = first_foreign(code, recipe) {
        return Err(CodingError::NoFragment(fragment));
    }
    if fragments.len() != code.fragments() as usize {
        return Err(CodingError::Count);
    }
    for number in 0..code.fragments() {
        let fragment = Fragment { value: number };
        if recipe.coefficient(fragment) != 0 && fragments[number as usize].len() != rebuilt.len() {
            return Err(CodingError::Length(fragment));
        }
    }
    put_sum(&recipe.coefficients, fragments, rebuilt);
    Ok(())
}

/// Returns the first fragment that the recipe reads and the code lacks.
fn first_foreign(code: Code, recipe: &Recipe) -> Option<Fragment>
    ensures some { IfSome result (λ f. IsForeign code recipe.now.coefficients f.value) }
    ensures none { IfNone result (AreOwn code recipe.now.coefficients 16) }
{
    for number in code.fragments()..FRAGMENTS as u8 {
        let fragment = Fragment { value: number };
        if recipe.coefficient(fragment) != 0 {
            return Some(fragment);
        }
    }
    None
}
