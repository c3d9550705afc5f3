ghost use Rattle.std.specs.Prelude.{◌≡◌, ◌<◌, ◌≤◌, ◌+◌, ◌++◌, length, vec_len, vec_capacity, IfOk};
ghost use Rattle.std.specs.Option.{option_map_or};
ghost use Rattle.lrc_answers.specs.Answers.{lent};
ghost use Rattle.lrc_board.specs.Refreshed.{no_changes, both_changes, changes_by, stripes_changed_by, nodes_changed_by};

use crate::batch::BATCH_LIMIT;
use lrc_book::{Command, Record, ReplyRef};
use lrc_code::{NodeNo, StripeNo, UpgradeNo};
use std::alloc::{AllocError, Global};
use std::marker::Model;

/// The stripes whose code or homes a step may have changed.
#[derive(Clone, Copy)]
pub(crate) enum ChangedStripes {
    Stripe(StripeNo),
    /// Those that had a home on the node.
    AllOn(NodeNo),
}

/// The nodes that a step may have brought online or taken offline.
#[derive(Clone, Copy)]
pub(crate) enum ChangedNodes {
    Node(NodeNo),
    /// Those of the upgrade domain.
    AllIn(UpgradeNo),
}

/// What the steps of a batch may have changed of what a board shows, with room for those of the longest batch.
#[derive(Drop)]
pub(crate) struct Changes {
    pub(crate) stripes: Vec<ChangedStripes>,
    pub(crate) nodes: Vec<ChangedNodes>,
    /// Whether the load of any node may have changed.
    pub(crate) loads: bool,
}

impl Model for Changes {
    ghost use Rattle.std.specs.Prelude.{◌≤◌, vec_capacity};
    ghost use Rattle.lrc_board.specs.Refreshed.{ChangesView};

    ghost Value = { ChangesView };

    ghost view = { λ c. record { stripes = c.stripes.items; nodes = c.nodes.items; loads = c.loads } };

    ghost invariant = { λ c. (256 ≤ vec_capacity c.stripes) × (256 ≤ vec_capacity c.nodes) };
}

impl Changes {
    /// Allocates a list without changes.
    pub(crate) fn new(alloc: Global) -> Result<Changes, AllocError>
        ensures { IfOk result (λ c. c ≡ no_changes) }
    {
        Ok(Changes {
            stripes: Vec::with_capacity(alloc, BATCH_LIMIT)?,
            nodes: Vec::with_capacity(alloc, BATCH_LIMIT)?,
            loads: false,
        })
    }

    /// Adds what a step may have changed.
    pub(crate) fn add(&mut self, step: &Record)
        requires stripes { length self.old.stripes < 256 }
        requires nodes { length self.old.nodes < 256 }
        ensures { self.new ≡ both_changes self.old (changes_by step.now.command step.now.reply) }
    {
        let command = step.command();
        let Some(loads) = loads_changed_by(command, step.reply_ref()) else {
            return;
        };
        add_stripes(&mut self.stripes, command);
        add_nodes(&mut self.nodes, command);
        self.loads = self.loads || loads;
    }

    /// Removes all changes.
    pub(crate) fn clear(&mut self)
        ensures { self.new ≡ no_changes }
    {
        self.stripes.clear();
        self.nodes.clear();
        self.loads = false;
    }
}

/// Adds the stripes whose code or homes a command may change if it is not refused.
fn add_stripes(stripes: &mut Vec<ChangedStripes>, command: Command)
    requires room { vec_len stripes.old < vec_capacity stripes.old }
    ensures items { stripes.new.items ≡ stripes.old.items ++ stripes_changed_by command }
    ensures room { vec_capacity stripes.new ≡ vec_capacity stripes.old }
{
    match command {
        Command::Place(stripe)
        | Command::Place6(stripe)
        | Command::Drop(stripe)
        | Command::Done(stripe, _, _) => stripes.push_reserved(ChangedStripes::Stripe(stripe)),
        Command::Fail(node) => stripes.push_reserved(ChangedStripes::AllOn(node)),
        _ => (),
    }
}

/// Adds the nodes that a command may bring online or take offline if it is not refused.
fn add_nodes(nodes: &mut Vec<ChangedNodes>, command: Command)
    requires room { vec_len nodes.old < vec_capacity nodes.old }
    ensures items { nodes.new.items ≡ nodes.old.items ++ nodes_changed_by command }
    ensures room { vec_capacity nodes.new ≡ vec_capacity nodes.old }
{
    match command {
        Command::Fail(node)
        | Command::Down(node)
        | Command::Up(node)
        | Command::Retire(node)
        | Command::Join(node) => nodes.push_reserved(ChangedNodes::Node(node)),
        Command::Upgrade(domain) | Command::Upgraded(domain) => {
            nodes.push_reserved(ChangedNodes::AllIn(domain))
        }
        _ => (),
    }
}

/// Reports whether a command with this reply may have changed the load of any node; `None` if it changed nothing.
fn loads_changed_by(command: Command, reply: ReplyRef<'_>) -> Option<bool>
    ensures { changes_by command (lent reply.entry) ≡ option_map_or (λ loads. record { stripes = stripes_changed_by command; nodes = nodes_changed_by command; loads = loads }) result no_changes }
{
    match reply {
        ReplyRef::Refused(_) => None,
        ReplyRef::Idle if matches!(command, Command::Next) => None,
        ReplyRef::Idle => Some(false),
        ReplyRef::Changed => Some(matches!(command, Command::Fail(_))),
        _ => Some(true),
    }
}
