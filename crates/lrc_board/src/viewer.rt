ghost use Rattle.std.specs.Prelude.{◌≡◌, [], length, IfOk, IfErr, OnErr};
ghost use mathlib.Core.List.{IsPrefix};
ghost use Rattle.lrc_rules.specs.Histories.{IsLegal, state_after};
ghost use Rattle.lrc_topology.specs.Nodes.{AreNodes};
ghost use Rattle.lrc_rules.specs.States.{level_shown, load_shown};
ghost use Rattle.lrc_rules.specs.Urgency.{risk};
ghost use Rattle.lrc_board.specs.Lines.{written};
ghost use Rattle.lrc_board.specs.declared.error.LookError.TheVariants as error;

use crate::error::LookError;
use crate::line::LogPrefix;
use crate::log::begins;
use crate::naming::ViewNaming;
use crate::question::{LevelOf, LoadOf, Question, RiskOf};
use crate::rule::{BoardReader, Sees};
use lrc_book::Level;
use lrc_code::{NodeNo, StripeNo};
use std::alloc::Global;
use std::marker::Model;

/// The result of a look: the value, and `front`, the number of entries that it follows from.
#[derive(Drop)]
pub struct Seen<T> {
    pub front: u64,
    pub value: T,
}

/// A reader of the published view, which takes no lock. Its model is the entries that it has seen.
#[derive(Drop)]
pub struct Viewer<N: ViewNaming> {
    /// `None` only within a call.
    reader: Option<BoardReader<N>>,
    count: u64,
    pub(crate) seen: LogPrefix,
}

impl<N: ViewNaming> Model for Viewer<N> {
    ghost use Rattle.std.specs.Prelude.{◌≡◌, List, length, IsSome};
    ghost use Rattle.lrc_topology.specs.Nodes.{AreNodes};
    ghost use Rattle.lrc_rules.specs.declared.entry.Entry.{Entry};
    ghost use Rattle.lrc_rules.specs.Histories.{IsLegal};
    ghost use Rattle.lrc_board.specs.Lines.{written};

    ghost Value = { List Entry };

    ghost view = { λ v. written N.start v.seen.log };

    ghost invariant = { λ v. IsSome v.reader × (v.seen.book ≡ N.log) × (v.count ≡ length (written N.start v.seen.log))
        × AreNodes N.topology × IsLegal N.topology (written N.start v.seen.log) };
}

impl<N: ViewNaming> Viewer<N> {
    /// Makes a viewer that has seen no entry.
    pub(crate) fn new(reader: BoardReader<N>, seen: LogPrefix) -> Viewer<N>
        requires seen { (seen.book ≡ N.log) × (seen.log ≡ []) }
        requires nodes { AreNodes N.topology }
        ensures { result ≡ [] }
    {
        Viewer {
            reader: Some(reader),
            count: 0,
            seen,
        }
    }

    /// Returns the number of entries that were seen.
    pub fn count(&self) -> u64
        ensures count { result ≡ length self.now }
        ensures legal { IsLegal N.topology self.now }
    {
        self.count
    }

    /// Moves the viewer to this log prefix, which has `count` entries.
    pub(crate) fn see(&mut self, count: u64, prefix: &LogPrefix)
        requires log { prefix.now.book ≡ N.log }
        requires count { count ≡ length (written N.start prefix.now.log) }
        requires legal { IsLegal N.topology (written N.start prefix.now.log) }
        ensures { self.new ≡ written N.start prefix.now.log }
    {
        self.count = count;
        self.seen = prefix.again();
    }

    /// Makes one look. It never moves the viewer back to fewer entries.
    fn look<Q: Question>(&mut self, question: Q) -> Result<Seen<Q::Answer>, LookError>
        ensures later { IsPrefix self.old self.new }
        ensures legal { IsLegal N.topology self.new }
        ensures front { IfOk result (λ s. s.front ≡ length self.new) }
        ensures value { IfOk result (λ s. Q.answers question N.topology self.new s.value) }
        ensures err { IfErr result (λ e. e ≡ error.NoView) }
        ensures same { OnErr result (self.new ≡ self.old) }
    {
        let reader = self.reader.take().unwrap();
        match reader.enter_as::<Sees<N>>() {
            Ok(reading) => {
                let value = question.ask(reading.get());
                let count = reading.get().count();
                let seen = reading.get().prefix();
                self.reader = Some(reading.leave());
                if count < self.count {
                    return Err(LookError::NoView);
                }
                begins(&self.seen, &seen);
                self.count = count;
                self.seen = seen;
                Ok(Seen {
                    front: count,
                    value,
                })
            }
            Err(reader) => {
                self.reader = Some(reader);
                Err(LookError::NoView)
            }
        }
    }

    /// Returns the published level of a stripe, or `None` if there was no such stripe.
    ///
    /// # Errors
    ///
    /// Only `LookError::NoView`.
    pub fn level_of(&mut self, stripe: StripeNo) -> Result<Seen<Option<Level>>, LookError>
        ensures later { IsPrefix self.old self.new }
        ensures legal { IsLegal N.topology self.new }
        ensures front { IfOk result (λ s. s.front ≡ length self.new) }
        ensures value { IfOk result (λ s. s.value ≡ level_shown N.topology (state_after N.topology self.new) stripe) }
        ensures err { IfErr result (λ e. e ≡ error.NoView) }
        ensures same { OnErr result (self.new ≡ self.old) }
    {
        self.look(LevelOf { stripe })
    }

    /// Returns the published number of seats on a node, or `None` if the store has no such node.
    ///
    /// # Errors
    ///
    /// Only `LookError::NoView`.
    pub fn load_of(&mut self, node: NodeNo) -> Result<Seen<Option<u32>>, LookError>
        ensures later { IsPrefix self.old self.new }
        ensures legal { IsLegal N.topology self.new }
        ensures front { IfOk result (λ s. s.front ≡ length self.new) }
        ensures value { IfOk result (λ s. s.value ≡ load_shown N.topology (state_after N.topology self.new) node) }
        ensures err { IfErr result (λ e. e ≡ error.NoView) }
        ensures same { OnErr result (self.new ≡ self.old) }
    {
        self.look(LoadOf { node })
    }

    /// Returns the published stripes at risk with their levels, in the order of repair. It allocates 4,096 rows and as
    /// many levels before it looks.
    ///
    /// # Errors
    ///
    /// `LookError::OutOfMemory` if the allocation fails; otherwise only `LookError::NoView`.
    pub fn risk(&mut self, alloc: Global) -> Result<Seen<Vec<(StripeNo, Level)>>, LookError>
        ensures later { IsPrefix self.old self.new }
        ensures legal { IsLegal N.topology self.new }
        ensures front { IfOk result (λ s. s.front ≡ length self.new) }
        ensures value { IfOk result (λ s. s.value.items ≡ risk N.topology (state_after N.topology self.new)) }
        ensures same { OnErr result (self.new ≡ self.old) }
    {
        self.count();
        let Ok(question) = RiskOf::new(alloc) else {
            return Err(LookError::OutOfMemory);
        };
        self.look(question)
    }
}
