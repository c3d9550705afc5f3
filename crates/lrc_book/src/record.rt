ghost use Rattle.std.specs.Prelude.{◌≡◌};
ghost use Rattle.lrc_answers.specs.Answers.{told, lent};

use crate::{Command, Entry, Reply, ReplyRef};
use lrc_answers::Answer;
use lrc_code::SessionNo;
use std::marker::Model;

/// An entry as the history keeps it: seats take memory only in the entries that have some.
#[derive(Drop)]
pub struct Record {
    pub(crate) session: SessionNo,
    pub(crate) command: Command,
    pub(crate) answer: Answer,
}

impl Model for Record {
    ghost use Rattle.lrc_rules.specs.declared.entry.Entry.{Entry};

    ghost Value = { Entry };

    ghost use Rattle.lrc_answers.specs.Answers.{told};

    ghost view = { λ r. record { session = r.session; command = r.command; reply = told r.answer } };
}

impl Record {
    /// The entry of a command and its answer.
    pub(crate) fn new(session: SessionNo, command: Command, answer: Answer) -> Record
        ensures { result ≡ record { session = session; command = command; reply = told answer } }
    {
        Record {
            session,
            command,
            answer,
        }
    }

    /// The session that gave the command.
    pub fn session(&self) -> SessionNo
        ensures { result ≡ self.now.session }
    {
        self.session
    }

    /// The command.
    pub fn command(&self) -> Command
        ensures { result ≡ self.now.command }
    {
        self.command
    }

    /// The reply to the command, borrowed.
    #[inline(always)] // as `Answer::reply_ref`
    pub fn reply_ref(&self) -> ReplyRef<'_>
        ensures { lent result ≡ self.now.reply }
    {
        self.answer.reply_ref()
    }

    /// The reply to the command.
    #[inline(always)] // as `ReplyRef::reply`
    pub fn reply(&self) -> Reply
        ensures { result ≡ self.now.reply }
    {
        self.answer.reply_ref().reply()
    }

    /// The entry as a plain value.
    pub fn entry(&self) -> Entry
        ensures { result ≡ self.now }
    {
        Entry {
            session: self.session,
            command: self.command,
            reply: self.reply(),
        }
    }
}
