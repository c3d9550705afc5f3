ghost use Rattle.std.specs.Prelude.{◌≡◌, ℕ, ◌+◌, ◌<◌, ◌≤◌, ◌==◌, ◌↔◌, cond, [], All, vec_capacity, length, IsTrue, MatchResult, slice_index_or};
ghost use Rattle.lrc_sessions.specs.Views.{SessionView};
ghost use Rattle.lrc_sessions.specs.Counts.{times, AreAll, counts_of, made_of, made_in, total_made};
ghost use Rattle.lrc_sessions.specs.Closing.{Closes};
ghost use mathlib.Core.List.{IsPrefix};

use crate::closing::{Closing, Counts};
use crate::manager::Manager;
use crate::naming::Naming;
use crate::session::Session;
use lrc_board::Keeper;
use lrc_code::SessionNo;
use std::sync::Wait;
use std::sync::ledger::Share;

/// Why a manager could not end, by its number.
pub enum FinishError<N: Naming> {
    /// 1: the sessions are not all sessions of the manager. It returns the manager and the sessions.
    SessionsOut(Manager<N>, Vec<Session<N>>),
}

impl<N: Naming> Manager<N> {
    /// Ends the manager, given all its sessions in any order. It allocates nothing, and waits for looks that have begun.
    ///
    /// # Errors
    ///
    /// `FinishError::SessionsOut` if the sessions do not have the numbers from 1 to the manager's count, each once. It returns the
    /// manager and the sessions unchanged.
    pub fn finish<R: Wait>(
        self,
        rt: &R,
        sessions: Vec<Session<N>>,
    ) -> Result<Closing, FinishError<N>>
        ensures { MatchResult result (Closes N.topology N.limit self.count sessions.items)
            (λ e. (¬ AreAll self.count sessions.items) × (e ≡ FinishError.SessionsOut self sessions)) }
    {
        if !are_all(sessions.as_slice(), self.count()) {
            return Err(FinishError::SessionsOut(self, sessions));
        }
        let Manager { state, count, made } = self;
        let (mut keeper, mut tally, mut all) = state.into_inner().into_parts();
        check_all_seen(&mut keeper, sessions.as_slice());
        let made = join_all(&mut all, sessions, count, made);
        tally.audit(&mut all);
        let book = keeper.into_book(rt);
        Ok(Closing { book, made })
    }
}

/// Returns how many of the sessions have the number.
fn times_of<N: Naming>(sessions: &[Session<N>], number: u8) -> usize
    ensures { result ≡ times number sessions.now }
{
    let mut found = 0;
    for session in sessions {
        if session.number().get() == number {
            found += 1;
        }
    }
    found
}

/// Returns whether the sessions have the numbers from 1 to `count`, each once.
fn are_all<N: Naming>(sessions: &[Session<N>], count: u8) -> bool
    ensures { IsTrue result ↔ AreAll count sessions.now }
{
    for number in 1..9u8 {
        if times_of(sessions, number) != usize::from(number <= count) {
            return false;
        }
    }
    true
}

/// Proves for each session that what it has seen is a prefix of the history, which has an entry for each of its calls.
fn check_all_seen<N: Naming>(keeper: &mut Keeper<N>, sessions: &[Session<N>])
    ensures same { keeper.new ≡ keeper.old }
    ensures begin { All (λ s. IsPrefix s.seen keeper.old.history) sessions.now }
    ensures made { All (λ s. s.made ≤ made_in s.number keeper.old.history) sessions.now }
{
    for session in sessions {
        session.check_seen(keeper);
    }
}

/// Returns the index of the first session with the number.
fn index_of<N: Naming>(sessions: &[Session<N>], number: u8) -> usize
    requires { 0 < times number sessions.now }
    ensures within { result < length sessions.now }
    ensures found { (d : SessionView) → (slice_index_or sessions.now result d).number ≡ number }
{
    for (i, session) in sessions.iter().enumerate() {
        if session.number().get() == number {
            return i;
        }
    }
    unreachable!()
}

/// Removes a session with the number and returns it.
fn take_out<N: Naming>(sessions: &mut Vec<Session<N>>, number: u8) -> Session<N>
    requires { 0 < times number sessions.old.items }
    ensures number { result.number ≡ number }
    ensures times { (k : ℕ) → times k sessions.new.items + cond (number == k) 1 0 ≡ times k sessions.old.items }
    ensures made { (k : ℕ) → made_of k sessions.new.items + cond (number == k) result.made 0 ≡ made_of k sessions.old.items }
{
    let at = index_of(sessions.as_slice(), number);
    sessions.remove(at)
}

/// Merges the shares of the sessions 1 to `count` into `all`, and lists their numbers of calls.
fn join_all<N: Naming>(
    all: &mut Share<N>,
    mut sessions: Vec<Session<N>>,
    count: u8,
    mut made: Vec<(SessionNo, u64)>,
) -> Counts
    requires all { AreAll count sessions.items }
    requires parts { (all.old.parts + count ≡ 8) × (all.old.amount ≡ 0) }
    requires room { (count ≤ vec_capacity made) × (made.items ≡ []) }
    ensures parts { all.new.parts ≡ 8 }
    ensures made { result ≡ counts_of count sessions.items }
    ensures amount { all.new.amount ≡ total_made result }
{
    for before in 0..count {
        let session = take_out(&mut sessions, before + 1);
        let (number, calls, share) = session.into_parts();
        all.merge(share);
        made.push_reserved((number, calls));
    }
    Counts { items: made }
}
