ghost use Rattle.std.specs.Prelude.{◌≡◌};
ghost use Rattle.lrc_records.specs.Replies.{encoded_entry};

use crate::{LrcCommand, LrcReply};
use lrc_rules::Entry;

/// A command of a session, and its reply.
#[repr(C)]
#[derive(Clone, Copy)]
pub struct LrcEntry {
    pub session: u8,
    pub reserved: [u8; 3],
    pub command: LrcCommand,
    pub reply: LrcReply,
}

impl LrcEntry {
    /// The record of an entry.
    pub fn of(entry: &Entry) -> LrcEntry
        ensures { result ≡ encoded_entry entry.now }
    {
        LrcEntry {
            session: entry.session.value,
            reserved: [0; 3],
            command: LrcCommand::of(entry.command),
            reply: LrcReply::of(&entry.reply),
        }
    }
}
