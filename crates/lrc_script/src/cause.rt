ghost use Rattle.std.specs.Prelude.{◌≡◌, ◌≢◌, ◌≤◌, ◌^◌, Some};
ghost use Rattle.lrc_rules.specs.declared.command.Command.{Command};
ghost use Rattle.lrc_script.specs.Scripts.{words_of, command_line, IsInRange, argument_cause, words_cause};

use crate::cut::cut_word;
use crate::forms::bounds_of;
use crate::script::Cause;

/// Returns why a line is not that of a command.
pub(crate) fn find_cause(line: &[u8]) -> Cause
    requires { (command : Command) → IsInRange command → line.now ≢ command_line command }
    ensures { words_cause (words_of line.now) ≡ Some result }
{
    let (word, mut rest) = cut_word(line);
    let Some(bounds) = bounds_of(word) else {
        return Cause::UnknownWord;
    };
    let mut cause = None;
    for bound in bounds {
        let Some(numbers) = rest else {
            return Cause::WordCount;
        };
        let (number, behind) = cut_word(numbers);
        cause = cause.or(number_cause(number, *bound));
        rest = behind;
    }
    if rest.is_some() {
        return Cause::WordCount;
    }
    cause.unwrap()
}

/// Returns why a word is not a number below the bound, or `None` if it is one.
fn number_cause(word: &[u8], bound: u64) -> Option<Cause>
    requires { bound ≤ 2 ^ 32 }
    ensures { result ≡ argument_cause word.now bound }
{
    if word.is_empty() || (word.len() > 1 && word[0] == b'0') {
        return Some(Cause::NotANumber);
    }
    let mut number = 0;
    for byte in word {
        if !byte.is_ascii_digit() {
            return Some(Cause::NotANumber);
        }
        // A number that has reached the bound stays at or above it.
        if number < bound {
            number = number * 10 + u64::from(*byte - b'0');
        }
    }
    if number >= bound {
        return Some(Cause::OutOfRange);
    }
    None
}
