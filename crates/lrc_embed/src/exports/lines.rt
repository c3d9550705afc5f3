//! The lines of commands, as scripts have them, and the texts of replies.

ghost use Rattle.std.specs.Prelude.{◌≡◌, ◌≢◌, ◌↔◌, ◌∷◌, [], true, false, Some, None, IfOk, string_bytes};
ghost use Rattle.lrc_rules.specs.declared.command.Command.{Command as AnyCommand};
ghost use Rattle.lrc_rules.specs.declared.reply.Reply.{Reply as AnyReply};
ghost use Rattle.lrc_script.specs.declared.script.Cause.{Cause as AnyCause};
ghost use Rattle.lrc_script.specs.Scripts.{is_passed_over, command_line, IsInRange, cause_of};
ghost use Rattle.lrc_refusals.specs.Refusals.{cause_number};
ghost use Rattle.lrc_records.specs.Commands.{IsCommand, is_command, encoded_command};
ghost use Rattle.lrc_records.specs.Replies.{IsReplyInRange, encoded_reply};
ghost use Rattle.lrc_text.specs.Texts.{reply_text};
ghost use Rattle.lrc_embed.specs.Statuses.{IsOneOf};
ghost use Rattle.lrc_embed.specs.Printed.{IsTextPut, IsTooLong};

use crate::exports::image::put_text;
use crate::status::{BAD_LINE, DONE, OUT_OF_MEMORY, OUT_OF_RANGE, SHORT, UNKNOWN};
use lrc_book::{Command, Reply, ReplyRef};
use lrc_records::{LrcCommand, LrcReply};
use lrc_script::{parse_line, push_command};
use lrc_text::push_reply;
use std::alloc::{AllocError, Global};

/// The command of a line of a script, which is given without its end. `UNKNOWN` if a script passes the line over: it is
/// empty or a comment. `BAD_LINE` if it is bad, and then only `cause` is written.
#[unsafe(no_mangle)]
pub extern "C" fn lrc_embed_read_command(
    line: &[u8],
    command: &mut LrcCommand,
    cause: &mut u32,
) -> u32
    ensures done { (result ≡ DONE) → (read : AnyCommand)
        × IsInRange read × (line.now ≡ command_line read) × (command.new ≡ encoded_command read) }
    ensures passed { (result ≡ UNKNOWN) → is_passed_over line.now ≡ true }
    ensures bad { (result ≡ BAD_LINE) → (why : AnyCause)
        × (cause_of line.now ≡ Some why) × (cause.new ≡ cause_number why) }
    ensures good { (result ≢ BAD_LINE) → cause_of line.now ≡ None }
    ensures statuses { IsOneOf result (DONE ∷ UNKNOWN ∷ BAD_LINE ∷ []) }
    ensures unwritten { (result ≢ DONE) → command.new ≡ command.old }
    ensures no_cause { (result ≢ BAD_LINE) → cause.new ≡ cause.old }
{
    let parsed = match parse_line(line) {
        Ok(parsed) => parsed,
        Err(why) => {
            *cause = why as u32;
            return BAD_LINE;
        }
    };
    match parsed {
        Some(read) => {
            *command = LrcCommand::of(read);
            DONE
        }
        None => UNKNOWN,
    }
}

/// The line of a command in a script, without its end. It fills the first `length` bytes. If there is less room,
/// nothing is written but the `length` that it needs.
#[unsafe(no_mangle)]
pub extern "C" fn lrc_embed_command_line(
    alloc: Global,
    command: &LrcCommand,
    text: &mut [u8],
    length: &mut usize,
) -> u32
    ensures done { (result ≡ DONE) → (read : AnyCommand)
        × IsCommand command.now read × IsTextPut (command_line read) text.old text.new length.new }
    ensures short { (result ≡ SHORT) → (read : AnyCommand)
        × IsCommand command.now read × IsTooLong (command_line read) text.old length.new }
    ensures range { (result ≡ OUT_OF_RANGE) ↔ (is_command command.now ≡ false) }
    ensures statuses { IsOneOf result (DONE ∷ OUT_OF_RANGE ∷ OUT_OF_MEMORY ∷ SHORT ∷ []) }
    ensures unwritten { (result ≢ DONE) → text.new ≡ text.old }
    ensures unneeded { (result ≢ DONE) → (result ≢ SHORT) → length.new ≡ length.old }
{
    let Some(read) = command.read() else {
        return OUT_OF_RANGE;
    };
    match line_of(alloc, read) {
        Ok(line) => put_text(line.as_bytes(), text, length),
        Err(_) => OUT_OF_MEMORY,
    }
}

/// The line of a command.
fn line_of(alloc: Global, command: Command) -> Result<String, AllocError>
    ensures { IfOk result (λ line. string_bytes line ≡ command_line command) }
{
    let mut line = String::new(alloc);
    push_command(&mut line, command)?;
    Ok(line)
}

/// The text of a reply: its line without the number of its entry, and without its end. It fills the first `length` bytes. If
/// there is less room, nothing is written but the `length` that it needs. `OUT_OF_RANGE` if it is the record of no reply: a
/// number is out of range, or a field that the kind does not use is not 0.
#[unsafe(no_mangle)]
pub extern "C" fn lrc_embed_reply_text(
    alloc: Global,
    reply: &LrcReply,
    text: &mut [u8],
    length: &mut usize,
) -> u32
    ensures done { (result ≡ DONE) → (read : AnyReply)
        × IsReplyInRange read × (encoded_reply read ≡ reply.now) × IsTextPut (reply_text read) text.old text.new length.new }
    ensures short { (result ≡ SHORT) → (read : AnyReply)
        × IsReplyInRange read × (encoded_reply read ≡ reply.now) × IsTooLong (reply_text read) text.old length.new }
    ensures range { (result ≡ OUT_OF_RANGE) ↔ ((read : AnyReply) → IsReplyInRange read → encoded_reply read ≢ reply.now) }
    ensures statuses { IsOneOf result (DONE ∷ OUT_OF_RANGE ∷ OUT_OF_MEMORY ∷ SHORT ∷ []) }
    ensures unwritten { (result ≢ DONE) → text.new ≡ text.old }
    ensures unneeded { (result ≢ DONE) → (result ≢ SHORT) → length.new ≡ length.old }
{
    let Some(read) = reply.read() else {
        return OUT_OF_RANGE;
    };
    match text_of(alloc, &read) {
        Ok(words) => put_text(words.as_slice(), text, length),
        Err(_) => OUT_OF_MEMORY,
    }
}

/// The text of a reply.
fn text_of(alloc: Global, reply: &Reply) -> Result<Vec<u8>, AllocError>
    ensures { IfOk result (λ text. text.items ≡ reply_text reply.now) }
{
    let mut text = Vec::new(alloc);
    push_reply(&mut text, &ReplyRef::of(reply))?;
    Ok(text)
}
