ghost use Rattle.std.specs.Prelude.{◌≡◌, ◌≤◌, [], length, IfOk, IfErr, OnErr};
ghost use mathlib.Core.List.{IsPrefix};
ghost use Rattle.lrc_rules.specs.Histories.{IsLegal, state_after};
ghost use Rattle.lrc_rules.specs.States.{level_shown, load_shown};
ghost use Rattle.lrc_rules.specs.Urgency.{risk};
ghost use Rattle.lrc_board.specs.declared.error.LookError.TheVariants as error;
ghost use Rattle.lrc_sessions.specs.Views.{SessionView};
ghost use Rattle.lrc_sessions.specs.Counts.{made_in};

use crate::naming::Naming;
use lrc_board::{Keeper, LookError, Seen, Viewer};
use lrc_book::Level;
use lrc_code::{NodeNo, SessionNo, StripeNo};
use std::alloc::Global;
use std::marker::Model;
use std::sync::ledger::Share;

/// A session of a manager: its number, the number of its calls, and what it has seen of the history. It can't be copied, and one
/// thread uses it at a time.
#[derive(Drop)]
pub struct Session<N: Naming> {
    pub(crate) number: SessionNo,
    pub(crate) made: u64,
    pub(crate) share: Share<N>,
    pub(crate) viewer: Viewer<N>,
}

impl<N: Naming> Model for Session<N> {
    ghost use Rattle.std.specs.Prelude.{◌≡◌, ◌≤◌};
    ghost use Rattle.lrc_rules.specs.Histories.{IsLegal};
    ghost use Rattle.lrc_sessions.specs.Views.{SessionView};
    ghost use Rattle.lrc_sessions.specs.Counts.{made_in};

    ghost Value = { SessionView };

    ghost view = { λ s. record { number = s.number.value; made = s.made; seen = s.viewer } };

    ghost invariant = { λ s. (s.share.parts ≡ 1) × (s.share.amount ≡ s.made) × (s.made ≤ N.limit) × (N.limit ≤ 1000000)
        × (s.made ≤ made_in s.number.value s.viewer) × IsLegal N.topology s.viewer };
}

impl<N: Naming> Session<N> {
    /// Makes a session that has made no call and has seen no entry.
    pub(crate) fn new(number: SessionNo, share: Share<N>, viewer: Viewer<N>) -> Session<N>
        requires share { (share.parts ≡ 1) × (share.amount ≡ 0) }
        requires viewer { viewer ≡ [] }
        requires limit { N.limit ≤ 1000000 }
        ensures { result ≡ record { number = number.value; made = 0; seen = [] } }
    {
        Session {
            number,
            made: 0,
            share,
            viewer,
        }
    }

    /// Returns the number of the session, from 1 to 8.
    pub fn number(&self) -> SessionNo
        ensures { result.value ≡ self.now.number }
    {
        self.number
    }

    /// Returns the number of entries that the session has seen, its own calls among them. It takes no lock.
    pub fn front(&self) -> u64
        ensures front { result ≡ length self.now.seen }
        ensures legal { IsLegal N.topology self.now.seen }
        ensures made { self.now.made ≤ made_in self.now.number self.now.seen }
    {
        self.viewer.count()
    }

    /// Returns the published level of a stripe, or `None` if there was no such stripe. It takes no lock and does not wait.
    ///
    /// # Errors
    ///
    /// Only `LookError::NoView`, if no board is shown that has as many entries as the session has seen.
    pub fn level_of(&mut self, stripe: StripeNo) -> Result<Seen<Option<Level>>, LookError>
        ensures session { (self.new.number ≡ self.old.number) × (self.new.made ≡ self.old.made) }
        ensures later { IsPrefix self.old.seen self.new.seen }
        ensures legal { IsLegal N.topology self.new.seen }
        ensures front { IfOk result (λ s. s.front ≡ length self.new.seen) }
        ensures value { IfOk result (λ s. s.value ≡ level_shown N.topology (state_after N.topology self.new.seen) stripe) }
        ensures err { IfErr result (λ e. e ≡ error.NoView) }
        ensures same { OnErr result (self.new ≡ self.old) }
    {
        self.viewer.level_of(stripe)
    }

    /// Returns the published number of seats on a node, or `None` if the store has no such node. It takes no lock and does not
    /// wait.
    ///
    /// # Errors
    ///
    /// Only `LookError::NoView`, if no board is shown that has as many entries as the session has seen.
    pub fn load_of(&mut self, node: NodeNo) -> Result<Seen<Option<u32>>, LookError>
        ensures session { (self.new.number ≡ self.old.number) × (self.new.made ≡ self.old.made) }
        ensures later { IsPrefix self.old.seen self.new.seen }
        ensures legal { IsLegal N.topology self.new.seen }
        ensures front { IfOk result (λ s. s.front ≡ length self.new.seen) }
        ensures value { IfOk result (λ s. s.value ≡ load_shown N.topology (state_after N.topology self.new.seen) node) }
        ensures err { IfErr result (λ e. e ≡ error.NoView) }
        ensures same { OnErr result (self.new ≡ self.old) }
    {
        self.viewer.load_of(node)
    }

    /// Returns the published stripes at risk with their levels, in the order of repair. It allocates 4,096 rows and as
    /// many levels before it looks. It takes no lock and does not wait.
    ///
    /// # Errors
    ///
    /// `LookError::OutOfMemory` if the allocation fails; otherwise only `LookError::NoView`, if no board is shown that
    /// has as many entries as the session has seen.
    pub fn risk(&mut self, alloc: Global) -> Result<Seen<Vec<(StripeNo, Level)>>, LookError>
        ensures session { (self.new.number ≡ self.old.number) × (self.new.made ≡ self.old.made) }
        ensures later { IsPrefix self.old.seen self.new.seen }
        ensures legal { IsLegal N.topology self.new.seen }
        ensures front { IfOk result (λ s. s.front ≡ length self.new.seen) }
        ensures value { IfOk result (λ s. s.value.items ≡ risk N.topology (state_after N.topology self.new.seen)) }
        ensures same { OnErr result (self.new ≡ self.old) }
    {
        self.viewer.risk(alloc)
    }

    /// Proves that what the session has seen is a prefix of the history, which has an entry for each of its calls.
    pub(crate) fn check_seen(&self, keeper: &mut Keeper<N>)
        ensures same { keeper.new ≡ keeper.old }
        ensures begins { IsPrefix self.now.seen keeper.old.history }
        ensures made { self.now.made ≤ made_in self.now.number keeper.old.history }
    {
        keeper.covers(&self.viewer);
    }

    /// Takes the session apart: its number, its number of calls, and its share, whose amount is that number.
    pub(crate) fn into_parts(self) -> (SessionNo, u64, Share<N>)
        ensures number { result.0.value ≡ self.number }
        ensures made { result.1 ≡ self.made }
        ensures share { (result.2.parts ≡ 1) × (result.2.amount ≡ self.made) }
    {
        let Session {
            number,
            made,
            share,
            viewer: _,
        } = self;
        (number, made, share)
    }
}
