ghost use Rattle.std.specs.Prelude.{◌≡◌, ◌≢◌, ℕ, ◌+◌, ◌^◌, ◌<◌, ◌∷◌, ◌++◌, List, length, All, None, OnOk, IfOk, IfErr, IfSome, IfNone};
ghost use Rattle.std.specs.Result.{result_err};
ghost use Rattle.lrc_rules.specs.declared.command.Command.{Command};
ghost use Rattle.lrc_script.specs.Scripts.{lines_of, is_passed_over, command_line, IsInRange, IsReadAs};
ghost use Rattle.lrc_script.specs.Scripts.{IsScript, cause_of, first_bad, IsFirstBad};
ghost use Rattle.lrc_script.specs.Cuts.{IsAdded, IsLineRead, IsLineBad, bad_line};

use crate::cause::find_cause;
use crate::cut::cut_line;
use crate::front::{LONGEST, parse_command, parse_next};
use lrc_rules::Command;
use std::alloc::{AllocError, AllocFailed, Global};
use thiserror::Error;

/// The most bytes of a line, without its end.
const LINE_LIMIT: usize = 1024;

/// Why a line of a script is bad. The numbers are those in the text of the refusal.
#[derive(Clone, Copy, Debug, PartialEq, Eq)]
pub enum Cause {
    /// The first word is not that of a command.
    UnknownWord = 1,
    /// The command takes another number of words.
    WordCount = 2,
    /// An argument is not a number.
    NotANumber = 3,
    /// An argument is a number that is out of range.
    OutOfRange = 4,
    /// The line has more than 1,024 bytes.
    TooLong = 5,
}

/// Why a script is refused.
#[derive(Clone, Copy, Debug, PartialEq, Eq, Error)]
pub enum ScriptError {
    /// The number of the first bad line, counted over the whole bundle, and its first cause.
    #[error("line {line} is bad: {cause:?}")]
    Bad { line: u64, cause: Cause },
    #[error("out of memory")]
    OutOfMemory,
}

impl From<AllocError> for ScriptError {
    ghost use Rattle.std.specs.Prelude.{◌≡◌};
    ghost use Rattle.lrc_script.specs.declared.script.ScriptError.TheVariants.{OutOfMemory};

    ghost from_gives = { λ _ e. e ≡ OutOfMemory };

    fn from(_error: AllocError) -> ScriptError {
        ScriptError::OutOfMemory
    }
}

impl<T: Drop> From<AllocFailed<T>> for ScriptError {
    ghost use Rattle.std.specs.Prelude.{◌≡◌};
    ghost use Rattle.lrc_script.specs.declared.script.ScriptError.TheVariants.{OutOfMemory};

    ghost from_gives = { λ _ e. e ≡ OutOfMemory };

    fn from(_error: AllocFailed<T>) -> ScriptError {
        ScriptError::OutOfMemory
    }
}

/// Parses a script, whose first line has the number `first_line` in the bundle. Returns its commands in order.
///
/// # Errors
///
/// `Bad` for the first bad line, and `OutOfMemory` if the commands cannot be stored.
#[inline(never)] // its loop needs all registers
pub fn parse_script(
    alloc: Global,
    text: &[u8],
    first_line: u64,
) -> Result<Vec<Command>, ScriptError>
    // Every line has a number.
    requires { first_line + length text.now < 2 ^ 64 }
    ensures script { IfOk result (λ commands. IsScript (lines_of text.now) commands.items) }
    ensures good { OnOk result (first_bad first_line (lines_of text.now) ≡ None) }
    ensures bad { IfErr result (IsFirstBad (first_bad first_line (lines_of text.now))) }
{
    let mut commands = Vec::new(alloc);
    let mut rest = text;
    let mut number = first_line;
    loop {
        // Most commands of workers are `next`, and this test is faster than a match by letters.
        if let Some((command, behind)) = parse_next(rest) {
            commands.push(command)?;
            rest = behind;
        } else if let Some((command, behind)) = parse_in_text(rest) {
            commands.push(command)?;
            rest = behind;
        } else {
            match push_first_line(&mut commands, rest, number)? {
                Some(behind) => rest = behind,
                None => return Ok(commands),
            }
        }
        number += 1;
    }
}

/// Parses the command whose line a text starts with. Returns it and the rest of the text after the line's end, or `None`
/// if the text starts with no such line or is shorter than `LONGEST`.
#[inline(always)]
fn parse_in_text(text: &[u8]) -> Option<(Command, &[u8])>
    ensures { IfSome result (λ r. IsInRange r.0 × (text.now ≡ command_line r.0 ++ 10 ∷ r.1.now)) }
{
    if text.len() < LONGEST {
        return None;
    }
    parse_command::<false>(text)
}

/// Adds the command of the first line of a text, unless the line is passed over. Returns the text after the line's end,
/// or `None` if the line has no end.
///
/// # Errors
///
/// `Bad` with this number if the line is bad, and `OutOfMemory` if the command cannot be stored.
#[inline(never)]
fn push_first_line<'a>(
    commands: &mut Vec<Command>,
    text: &'a [u8],
    number: u64,
) -> Result<Option<&'a [u8]>, ScriptError>
    ensures read { IfOk result (IsLineRead text.now commands.old.items commands.new.items) }
    ensures bad { IfErr result (IsLineBad text.now number) }
{
    let (line, behind) = cut_line(text);
    push_line(commands, line, number)?;
    Ok(behind)
}

/// Adds the command of a line, unless the line is passed over. Its errors are those of `push_first_line`.
fn push_line(commands: &mut Vec<Command>, text: &[u8], line: u64) -> Result<(), ScriptError>
    ensures good { OnOk result (cause_of text.now ≡ None) }
    ensures added { OnOk result (IsAdded text.now commands.old.items commands.new.items) }
    ensures bad { IfErr result (IsFirstBad (bad_line line text.now)) }
{
    let parsed = match parse_line(text) {
        Ok(parsed) => parsed,
        Err(cause) => return Err(ScriptError::Bad { line, cause }),
    };
    if let Some(command) = parsed {
        commands.push(command)?;
    }
    Ok(())
}

/// Returns the command of a line, which is given without its end, or `None` for an empty line or a comment.
///
/// # Errors
///
/// The first cause for which the line is bad.
#[tactic(auto, unfolding(crate::specs::Scripts::cause_of))]
pub fn parse_line(line: &[u8]) -> Result<Option<Command>, Cause>
    ensures read { IfOk result (IsReadAs line.now) }
    ensures cause { result_err result ≡ cause_of line.now }
{
    if line.len() > LINE_LIMIT {
        return Err(Cause::TooLong);
    }
    if is_passed_over(line) {
        return Ok(None);
    }
    match parse_end(line) {
        Some(command) => Ok(Some(command)),
        None => Err(find_cause(line)),
    }
}

/// Returns whether a line is empty or a comment.
fn is_passed_over(line: &[u8]) -> bool
    ensures { result ≡ is_passed_over line.now }
{
    line.is_empty() || line[0] == b'#'
}

/// Returns the command of a line without its end, or `None` if it is not the line of a command.
#[inline(never)] // so that comments do not pay for its frame
fn parse_end(line: &[u8]) -> Option<Command>
    ensures some { IfSome result (λ command. IsInRange command × (line.now ≡ command_line command)) }
    ensures none { IfNone result ((command : Command) → IsInRange command → line.now ≢ command_line command) }
{
    let (whole, behind) = cut_line(line);
    match behind {
        Some(_) => None,
        None => parse_whole(whole),
    }
}

/// Returns the command of a line without its end, as `parse_end`, where no byte is an end.
fn parse_whole(line: &[u8]) -> Option<Command>
    requires { All (λ b. b ≢ 10) line.now }
    ensures some { IfSome result (λ command. IsInRange command × (line.now ≡ command_line command)) }
    ensures none { IfNone result ((command : Command) → IsInRange command → line.now ≢ command_line command) }
{
    if line.len() >= LONGEST {
        return None;
    }
    match parse_command::<true>(&end_line(line)) {
        Some((command, _)) => Some(command),
        None => None,
    }
}

/// Returns a line and at least one LF after it, in as many bytes as `parse_command` may read.
fn end_line(line: &[u8]) -> [u8; LONGEST]
    requires { length line.now < LONGEST }
    ensures { (rest : List ℕ) × (result ≡ line.now ++ 10 ∷ rest) }
{
    let mut text = [b'\n'; LONGEST];
    text[..line.len()].copy_from_slice(line);
    text
}
