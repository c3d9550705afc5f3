ghost use Rattle.std.specs.Prelude.{◌≡◌, ◌↔◌, ◌<◌, ◌≤◌, ◌++◌, ◌∷◌, [], true, map, IfOk, OnOk, IfErr, OnErr, IsOk, IsErrOf, length};
ghost use Rattle.lrc_code.specs.declared.fault.Fault.TheVariants as fault;
ghost use Rattle.lrc_topology.specs.Nodes.{AreNodes};
ghost use Rattle.lrc_rules.specs.States.{load, code_shown, homes_shown, load_shown, level_shown, missing_shown, lease_of, mode_shown};
ghost use Rattle.lrc_rules.specs.Urgency.{risk};
ghost use Rattle.lrc_rules.specs.Histories.{first_world, outcome_in, IsLegalFrom};
ghost use Rattle.lrc_rules.specs.Goodness.{IsGood};
ghost use Rattle.lrc_rules.specs.Served.{IsServed};
ghost use Rattle.lrc_images.specs.Bases.{IsBase};
ghost use Rattle.lrc_book.specs.Books.{world_of, state_of, FaultFits};
ghost use Rattle.lrc_store.specs.Stores.{IsOf};

use crate::{Command, Lease, Level, Mode, Record, Reply, Seat};
use lrc_code::{Code, FRAGMENTS, Fault, Fragment, LossMask, NodeNo, SessionNo, StripeNo};
use lrc_images::Image;
use lrc_leases::Grants;
use lrc_store::{RepairCursor, Store};
use lrc_stripes::Homes;
use lrc_topology::Topology;
use std::alloc::Global;
use std::marker::Model;

/// The most entries of a history.
pub const HISTORY_LIMIT: u32 = 1_000_000;

/// The stripes of a store, the seats of their fragments, the live leases and the modes of the nodes, with the history of
/// commands and replies.
#[derive(Drop)]
pub struct Book {
    /// In a box, so that dropping a book is one call wherever it happens.
    pub(crate) store: Box<Store>,
    pub(crate) grants: Grants,
    /// A stripe with work before which nothing is grantable, if one is known: the search for the next repair begins there.
    pub(crate) repair_cursor: RepairCursor,
    pub(crate) history: Vec<Record>,
    /// Room for the seats of the next stripe that is placed.
    pub(crate) seats: Option<Box<[Seat; FRAGMENTS]>>,
    pub(crate) limit: usize,
    /// The image in which the book began; `None` for the empty store.
    pub(crate) base: Option<Box<Image>>,
}

impl Model for Book {
    ghost use Rattle.std.specs.Prelude.{◌+◌, ◌&&◌, nat_le, is_some, vec_len, vec_capacity};
    ghost use Rattle.lrc_book.specs.Books.{BookView, base_world, entries_before};
    ghost use Rattle.lrc_book.specs.Kept.{IsKept};

    ghost Value = { BookView };

    ghost view = { λ b. record {
      nodes = b.store.value.topology;
      base = base_world b.base;
      before = entries_before b.base;
      limit = b.limit;
      history = b.history.items;
      ready = nat_le (vec_len b.history + 1) (vec_capacity b.history) && is_some b.seats;
    } };

    ghost invariant = { λ b. IsKept b.store.value b.grants b.repair_cursor b.limit (base_world b.base) b.history.items };
}

impl Book {
    /// A book over the nodes of a store, with an empty history of at most 1,000,000 entries.
    ///
    /// # Errors
    ///
    /// Only `Fault::OutOfMemory`.
    pub fn new(alloc: Global, topology: Topology) -> Result<Book, Fault>
        ensures value { IfOk result (λ b. (b.nodes ≡ topology) × (b.limit ≡ 1000000) × (b.history ≡ []) × (b.base ≡ first_world) × (b.before ≡ 0)) }
        ensures err { IfErr result (λ e. e ≡ fault.OutOfMemory) }
    {
        Book::with_limit(alloc, topology, HISTORY_LIMIT)
    }

    /// Like `new`, in a box.
    ///
    /// # Errors
    ///
    /// As `new`.
    pub fn boxed(alloc: Global, topology: Topology) -> Result<Box<Book>, Fault>
        ensures value { IfOk result (λ b. (b.value.nodes ≡ topology) × (b.value.limit ≡ 1000000)
            × (b.value.history ≡ []) × (b.value.base ≡ first_world) × (b.value.before ≡ 0)) }
        ensures err { IfErr result (λ e. e ≡ fault.OutOfMemory) }
    {
        let book = Book::new(alloc, topology)?;
        Ok(Box::new(alloc, book)?)
    }

    /// Drops the book. A crate that drops one in line is proved over all that a book holds; this call costs it nothing.
    pub fn close(self) {}

    /// A book over the nodes of a store, with an empty history of at most `limit` entries, which is 1,000,000 at most.
    ///
    /// # Errors
    ///
    /// Only `Fault::OutOfMemory`.
    pub fn with_limit(alloc: Global, topology: Topology, limit: u32) -> Result<Book, Fault>
        requires limit { limit ≤ 1000000 }
        ensures value { IfOk result (λ b. (b.nodes ≡ topology) × (b.limit ≡ limit) × (b.history ≡ []) × (b.base ≡ first_world) × (b.before ≡ 0)) }
        ensures err { IfErr result (λ e. e ≡ fault.OutOfMemory) }
    {
        let store = Store::new(alloc, topology)?;
        Ok(Book {
            store: Box::new(alloc, store)?,
            grants: Grants::new(alloc)?,
            repair_cursor: RepairCursor::First,
            history: Vec::new(alloc),
            seats: None,
            limit: limit as usize,
            base: None,
        })
    }

    /// The store of the book.
    pub(crate) fn store(&self) -> &Store
        ensures nodes { result.now.topology ≡ self.now.nodes }
        ensures kept { IsOf (state_of self.now) result.now }
    {
        &self.store
    }

    /// The entries so far.
    pub fn history(&self) -> &[Record]
        ensures value { result.now ≡ self.now.history }
        ensures legal { IsLegalFrom self.now.nodes self.now.base self.now.history }
        ensures few { length self.now.history ≤ self.now.limit }
        ensures limit { self.now.limit ≤ 1000000 }
        ensures nodes { AreNodes self.now.nodes }
        ensures based { IsBase self.now.nodes self.now.base }
        ensures good { IsGood self.now.nodes (self.now.base.past ++ self.now.history) (state_of self.now) }
        ensures served { self.now.base ≡ first_world → IsServed self.now.nodes self.now.history }
    {
        self.history.as_slice()
    }

    /// The number of entries of the store before those of `history`.
    pub fn before(&self) -> u64
        ensures { result ≡ self.now.before }
    {
        match &self.base {
            Some(image) => image.before,
            None => 0,
        }
    }

    /// The nodes of the book.
    pub fn topology(&self) -> &Topology
        ensures { result.now ≡ self.now.nodes }
    {
        &self.store().topology
    }

    /// The code of a stripe; `None` where there is no such stripe.
    pub fn code(&self, stripe: StripeNo) -> Option<Code>
        ensures { result ≡ code_shown (state_of self.now) stripe }
    {
        self.store().stripes.code(stripe)
    }

    /// The home of each fragment of a stripe, in rising order, with no home at the numbers that the stripe's code lacks;
    /// `None` where there is no such stripe.
    pub fn homes(&self, stripe: StripeNo) -> Option<[Option<Seat>; FRAGMENTS]>
        ensures { result ≡ homes_shown (state_of self.now) stripe }
    {
        self.store().stripes.homes(stripe)
    }

    /// The same homes in the form in which the store keeps them, which is cheap to copy.
    pub fn packed_homes(&self, stripe: StripeNo) -> Option<Homes>
        ensures { result ≡ homes_shown (state_of self.now) stripe }
    {
        self.store().stripes.packed_homes(stripe)
    }

    /// The number of seats on a node; `None` where the store has no such node.
    pub fn load(&self, node: NodeNo) -> Option<u32>
        ensures { result ≡ load_shown self.now.nodes (state_of self.now) node }
    {
        let store = self.store();
        match store.topology.node(node) {
            Some(_) => Some(store.table.load(node)),
            None => None,
        }
    }

    /// The number of seats on each node, in file order.
    pub fn loads(&self) -> &[u16]
        ensures { result.now ≡ map (λ m. load (state_of self.now) m.number) self.now.nodes }
    {
        self.store().table.loads()
    }

    /// How far a stripe is from loss; `None` where there is no such stripe.
    pub fn level(&self, stripe: StripeNo) -> Option<Level>
        ensures { result ≡ level_shown self.now.nodes (state_of self.now) stripe }
    {
        self.store().stripes.level(stripe)
    }

    /// The fragments of a stripe that have no home, or one on a node that is not online; `None` where there is no
    /// such stripe.
    pub fn missing(&self, stripe: StripeNo) -> Option<LossMask>
        ensures { result ≡ missing_shown self.now.nodes (state_of self.now) stripe }
    {
        self.store().stripes.missing(stripe)
    }

    /// The stripes that are not whole, with their levels, in the order of repair: by rank, and by number.
    ///
    /// # Errors
    ///
    /// Only `Fault::OutOfMemory`.
    pub fn risk(&self, alloc: Global) -> Result<Vec<(StripeNo, Level)>, Fault>
        ensures value { IfOk result (λ rows. rows.items ≡ risk self.now.nodes (state_of self.now)) }
        ensures err { IfErr result (λ e. e ≡ fault.OutOfMemory) }
    {
        let mut rows = Vec::new(alloc);
        for row in self.store().stripes.at_risk() {
            rows.push(row)?;
        }
        Ok(rows)
    }

    /// The live lease of a fragment of a stripe, if it has one.
    pub fn lease(&self, stripe: StripeNo, fragment: Fragment) -> Option<Lease>
        ensures { result ≡ lease_of (state_of self.now) stripe fragment }
    {
        self.store().leases.lease(stripe, fragment)
    }

    /// The number of ticks so far. A live lease ends when the clock comes to its `expiry`.
    pub fn clock(&self) -> u32
        ensures { result ≡ (state_of self.now).clock }
    {
        self.store().clock.get()
    }

    /// The mode of a node, and whether it is online; `None` where the store has no such node.
    pub fn mode(&self, node: NodeNo) -> Option<(Mode, bool)>
        ensures { result ≡ mode_shown self.now.nodes (state_of self.now) node }
    {
        let stripes = &self.store().stripes;
        let mode = stripes.mode(node)?;
        Some((mode, stripes.is_online(node)))
    }

    /// Makes one step of the placement object and adds its entry. A `Fault` changes nothing.
    ///
    /// # Errors
    ///
    /// `Fault::HistoryFull` where the history has as many entries as its limit; else only `Fault::OutOfMemory`.
    pub fn call(&mut self, session: SessionNo, command: Command) -> Result<Reply, Fault>
        ensures reply { IfOk result (λ r. r ≡ (outcome_in self.old.nodes (world_of self.old) session command).0) }
        ensures entry { IfOk result (λ r. self.new.history ≡ self.old.history ++ record { session = session; command = command; reply = r } ∷ []) }
        ensures same { (self.new.nodes ≡ self.old.nodes) × (self.new.limit ≡ self.old.limit) × (self.new.base ≡ self.old.base) × (self.new.before ≡ self.old.before) }
        ensures full { IsErrOf result fault.HistoryFull ↔ (length self.old.history ≡ self.old.limit) }
        ensures fault { IfErr result (FaultFits self.old) }
        ensures enough { self.old.ready ≡ true → length self.old.history < self.old.limit → IsOk result }
        ensures err { OnErr result (self.new.history ≡ self.old.history) }
    {
        self.add(session, command)?;
        let last = &self.history[self.history.len() - 1];
        Ok(last.reply())
    }

    /// The same, but the reply is only in the entry that it adds.
    ///
    /// # Errors
    ///
    /// As `call`.
    #[inline(always)] // so that a loop over commands makes no call for one that changes nothing
    pub fn add(&mut self, session: SessionNo, command: Command) -> Result<(), Fault>
        ensures entry { OnOk result (self.new.history ≡ self.old.history ++ record { session = session; command = command; reply = (outcome_in self.old.nodes (world_of self.old) session command).0 } ∷ []) }
        ensures same { (self.new.nodes ≡ self.old.nodes) × (self.new.limit ≡ self.old.limit) × (self.new.base ≡ self.old.base) × (self.new.before ≡ self.old.before) }
        ensures full { IsErrOf result fault.HistoryFull ↔ (length self.old.history ≡ self.old.limit) }
        ensures fault { IfErr result (FaultFits self.old) }
        ensures enough { self.old.ready ≡ true → length self.old.history < self.old.limit → IsOk result }
        ensures err { OnErr result (self.new.history ≡ self.old.history) }
    {
        if self.history.len() == self.limit {
            return Err(Fault::HistoryFull);
        }
        self.prepare()?;
        self.make_call(session, command);
        Ok(())
    }
}
