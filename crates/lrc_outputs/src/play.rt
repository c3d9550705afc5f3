ghost use Rattle.std.specs.Prelude.{◌≡◌, ◌+◌, ◌≤◌, [], ◌∷◌, length, All, IfOk, OnOk, IfErr};
ghost use Rattle.lrc_rules.specs.Histories.{IsLegalFrom};
ghost use Rattle.lrc_rules.specs.Sessions.{commands_of_each};
ghost use Rattle.lrc_images.specs.Causes.{most_entries};
ghost use Rattle.lrc_outputs.specs.Judged.{lists_of, AreFew};
ghost use Rattle.lrc_board.specs.Batches.{AreMadeBehind};
ghost use Rattle.lrc_outputs.specs.Plays.{AreMadeFrom};
ghost use Rattle.lrc_outputs.specs.Outputs.{IsPlayed, IsPlayedFrom};
ghost use Rattle.lrc_streams.specs.declared.streams.RunFault.TheVariants as fault;

use lrc_book::{Book, Command, HISTORY_LIMIT};
use lrc_code::SessionNo;
use lrc_streams::RunFault;
use lrc_text::{push_lines, push_script_line, with_tables};
use lrc_topology::Topology;
use std::alloc::Global;

/// The number of lines that are written at once.
const LINES: usize = 32;

/// Room for them: 32 times `LINE_ROOM`.
const LINES_ROOM: usize = 7040;

/// Runs the only script, if there is one, on a new book, and returns the output: the replies and both tables.
pub(crate) fn play(
    alloc: Global,
    topology: Topology,
    scripts: &[Vec<Command>],
    room: Vec<u8>,
) -> Result<Vec<u8>, RunFault>
    requires few { AreFew scripts.now }
    requires alone { length scripts.now ≤ 1 }
    requires empty { room.items ≡ [] }
    ensures played { IfOk result (λ text. IsPlayed topology (lists_of scripts.now) text.items) }
    ensures err { IfErr result (λ e. e ≡ fault.OutOfMemory) }
{
    let mut book = Book::new(alloc, topology)?;
    play_on(alloc, &mut book, scripts, room)
}

/// Runs the only script, if there is one, on a book without entries, and returns the output: the replies and both
/// tables.
pub(crate) fn play_on(
    alloc: Global,
    book: &mut Book,
    scripts: &[Vec<Command>],
    room: Vec<u8>,
) -> Result<Vec<u8>, RunFault>
    requires fresh { (book.old.history ≡ []) × (book.old.limit ≡ HISTORY_LIMIT) × (book.old.before ≤ most_entries) }
    requires few { AreFew scripts.now }
    requires alone { length scripts.now ≤ 1 }
    requires empty { room.items ≡ [] }
    ensures played { IfOk result
        (λ text. IsPlayedFrom book.old.nodes book.old.base book.old.before (lists_of scripts.now) text.items) }
    ensures err { IfErr result (λ e. e ≡ fault.OutOfMemory) }
{
    let replies = play_scripts(book, scripts, room)?;
    let whole = with_tables(alloc, replies, book)?;
    Ok(whole)
}

/// Runs the only script, if there is one, and returns the lines of its replies.
fn play_scripts(
    book: &mut Book,
    scripts: &[Vec<Command>],
    room: Vec<u8>,
) -> Result<Vec<u8>, RunFault>
    requires fresh { (book.old.history ≡ []) × (book.old.limit ≡ HISTORY_LIMIT) × (book.old.before ≤ most_entries) }
    requires few { AreFew scripts.now }
    requires alone { length scripts.now ≤ 1 }
    requires empty { room.items ≡ [] }
    ensures made { IfOk result (λ text. AreMadeFrom book.old.nodes book.old.base book.old.before (lists_of scripts.now)
        book.new.history text.items) }
    ensures same { OnOk result ((book.new.nodes ≡ book.old.nodes) × (book.new.base ≡ book.old.base)) }
    ensures err { IfErr result (λ e. e ≡ fault.OutOfMemory) }
{
    match scripts {
        [] => Ok(room),
        [script, ..] => play_alone(book, script.as_slice(), room),
    }
}

/// Runs the commands of the only script by session 1, and returns the lines of their replies.
fn play_alone(book: &mut Book, commands: &[Command], empty: Vec<u8>) -> Result<Vec<u8>, RunFault>
    requires fresh { (book.old.history ≡ []) × (book.old.limit ≡ HISTORY_LIMIT) × (book.old.before ≤ most_entries) }
    // The history has room for them.
    requires few { length commands.now ≤ HISTORY_LIMIT }
    requires empty { empty.items ≡ [] }
    ensures made { IfOk result (λ text. AreMadeFrom book.old.nodes book.old.base book.old.before (commands.now ∷ [])
        book.new.history text.items) }
    ensures same { OnOk result ((book.new.nodes ≡ book.old.nodes) × (book.new.base ≡ book.old.base)) }
    ensures err { IfErr result (λ e. e ≡ fault.OutOfMemory) }
{
    let session = SessionNo::new(1).unwrap();
    let first = book.before() as usize + 1;
    let mut text = empty;
    push_script_line(&mut text, session)?;
    let mut room = [0u8; LINES_ROOM];
    let mut made = 0;
    while made < commands.len() {
        let few = LINES.min(commands.len() - made);
        make_all(book, session, &commands[made..made + few])?;
        push_lines(&mut text, &book.history()[made..], first + made, &mut room)?;
        made += few;
    }
    Ok(text)
}

/// Runs the commands of the only script, if there is one, by session 1.
pub(crate) fn make_scripts(book: &mut Book, scripts: &[Vec<Command>]) -> Result<(), RunFault>
    requires fresh { (book.old.history ≡ []) × (book.old.limit ≡ HISTORY_LIMIT) }
    requires few { AreFew scripts.now }
    requires alone { length scripts.now ≤ 1 }
    ensures legal { OnOk result (IsLegalFrom book.old.nodes book.old.base book.new.history) }
    ensures made { OnOk result (commands_of_each (length scripts.now) book.new.history ≡ lists_of scripts.now) }
    ensures only { OnOk result (All (λ e. e.session.value ≤ length scripts.now) book.new.history) }
    ensures same { OnOk result ((book.new.nodes ≡ book.old.nodes) × (book.new.base ≡ book.old.base)
        × (book.new.before ≡ book.old.before)) }
    ensures err { IfErr result (λ e. e ≡ fault.OutOfMemory) }
{
    match scripts {
        [] => Ok(()),
        [script, ..] => make_alone(book, script.as_slice()),
    }
}

/// Runs the commands of the only script by session 1.
fn make_alone(book: &mut Book, commands: &[Command]) -> Result<(), RunFault>
    requires fresh { (book.old.history ≡ []) × (book.old.limit ≡ HISTORY_LIMIT) }
    // The history has room for them.
    requires few { length commands.now ≤ HISTORY_LIMIT }
    ensures legal { OnOk result (IsLegalFrom book.old.nodes book.old.base book.new.history) }
    ensures made { OnOk result (commands_of_each 1 book.new.history ≡ commands.now ∷ []) }
    ensures only { OnOk result (All (λ e. e.session.value ≤ 1) book.new.history) }
    ensures same { OnOk result ((book.new.nodes ≡ book.old.nodes) × (book.new.base ≡ book.old.base)
        × (book.new.before ≡ book.old.before)) }
    ensures err { IfErr result (λ e. e ≡ fault.OutOfMemory) }
{
    let only = SessionNo::new(1).unwrap();
    make_all(book, only, commands)?;
    Ok(())
}

/// Runs commands in order, all by one session.
#[inline(always)] // so that the session is a constant in the loop
fn make_all(book: &mut Book, session: SessionNo, commands: &[Command]) -> Result<(), RunFault>
    // The history has room for them.
    requires few { length book.old.history + length commands.now ≤ book.old.limit }
    ensures made { OnOk result (AreMadeBehind book.old.history session commands.now book.new.history) }
    ensures legal { OnOk result (IsLegalFrom book.old.nodes book.old.base book.old.history
        → IsLegalFrom book.old.nodes book.old.base book.new.history) }
    ensures same { OnOk result ((book.new.nodes ≡ book.old.nodes) × (book.new.limit ≡ book.old.limit)
        × (book.new.base ≡ book.old.base) × (book.new.before ≡ book.old.before)) }
    ensures err { IfErr result (λ e. e ≡ fault.OutOfMemory) }
{
    for command in commands.iter() {
        book.add(session, *command)?;
    }
    Ok(())
}
