//! The image of a book, and a book that forgets its history into one.

ghost use Rattle.std.specs.Prelude.{◌≡◌, ◌+◌, ◌<◌, ◌≤◌, ◌↔◌, ◌++◌, [], true, nat_lt, length, List, map, None, IsTrue, IsFalse, IsNone, IfOk, IfErr, IfSome, OnOk, OnErr, IsErrOf};
ghost use Rattle.std.specs.List.{list_any};
ghost use Rattle.lrc_code.specs.declared.fault.Fault.TheVariants as fault;
ghost use Rattle.lrc_code.specs.declared.numbers.StripeNo.{StripeNo};
ghost use Rattle.lrc_code.specs.declared.numbers.Fragment.{Fragment};
ghost use Rattle.lrc_code.specs.Codes.{all_fragments};
ghost use Rattle.lrc_leases.specs.Granted.{granted_in};
ghost use Rattle.lrc_rules.specs.declared.entry.Entry.{Entry};
ghost use Rattle.lrc_rules.specs.States.{State};
ghost use Rattle.lrc_rules.specs.Alike.{AreAlike};
ghost use Rattle.lrc_rules.specs.Futures.{HaveSameGrants};
ghost use Rattle.lrc_images.specs.Images.{image_world, image_state};
ghost use Rattle.lrc_images.specs.Rising.{AreRising};
ghost use Rattle.lrc_images.specs.Causes.{most_grants, most_entries, first_cause};
ghost use Rattle.lrc_images.specs.Rows.{node_row, node_rows, stripe_row, stripe_rows, grant_row, grant_rows, stripe_leases, lease_rows, IsImageOf};
ghost use Rattle.lrc_book.specs.Books.{state_of, IsSpent};
ghost use Rattle.lrc_store.specs.Stores.{IsOf, AreGrantsOf};

use crate::{Book, Mode};
use lrc_code::{FRAGMENTS, Fault, Fragment, NodeNo, STRIPES, StripeNo};
use lrc_images::{
    GrantRow, Image, LeaseRow, MOST_ENTRIES, MOST_GRANTS, MOST_TICKS, NodeRow, StripeRow,
};
use lrc_leases::Grants;
use lrc_store::{RepairCursor, Store};
use std::alloc::Global;

/// The number of stripe numbers.
const STRIPE_NUMBERS: u16 = STRIPES as u16;

/// The number of node numbers.
const NODE_NUMBERS: u32 = 65_536;

impl Book {
    /// The image of the state, in which a book can begin.
    ///
    /// # Errors
    ///
    /// `Fault::HistoryFull` where a count of grants, the clock or the number of entries is so high that no book can begin with
    /// it; else only `Fault::OutOfMemory`.
    pub fn image(&self, alloc: Global) -> Result<Image, Fault>
        ensures rows { IfOk result (λ i. IsImageOf self.now.nodes (self.now.base.past ++ self.now.history) (state_of self.now) (self.now.before + length self.now.history) i) }
        ensures rising { IfOk result AreRising }
        ensures taken { IfOk result (λ i. first_cause self.now.nodes i ≡ None) }
        ensures alike { IfOk result (λ i. AreAlike (state_of self.now) (image_state i)) }
        ensures counts { IfOk result (λ i. HaveSameGrants (self.now.base.past ++ self.now.history) (image_world i).past) }
        ensures full { IsErrOf result fault.HistoryFull ↔ IsSpent self.now }
    {
        let Some(before) = self.entries_so_far() else {
            return Err(Fault::HistoryFull);
        };
        image_of(alloc, &self.store, &self.grants, before)
    }

    /// Forgets the history: the book begins anew in the image of its state. All looks return what they returned before. A
    /// `Fault` changes nothing.
    ///
    /// # Errors
    ///
    /// As `image`.
    pub fn forget(&mut self) -> Result<(), Fault>
        ensures same { (self.new.nodes ≡ self.old.nodes) × (self.new.limit ≡ self.old.limit) }
        ensures ready { self.old.ready ≡ true → self.new.ready ≡ true }
        ensures history { OnOk result (self.new.history ≡ []) }
        ensures alike { OnOk result (AreAlike (state_of self.old) (state_of self.new)) }
        ensures counts { OnOk result (HaveSameGrants (self.old.base.past ++ self.old.history) self.new.base.past) }
        ensures before { OnOk result (self.new.before ≡ self.old.before + length self.old.history) }
        ensures full { IsErrOf result fault.HistoryFull ↔ IsSpent self.old }
        ensures err { OnErr result ((self.new.history ≡ self.old.history) × (self.new.base ≡ self.old.base) × (self.new.before ≡ self.old.before)) }
    {
        let alloc = *self.history.allocator();
        let image = self.image(alloc)?;
        let base = Box::new(alloc, image)?;
        self.base = Some(base);
        self.repair_cursor = RepairCursor::First;
        self.history.clear();
        Ok(())
    }

    /// The number of entries of the store so far; `None` where no book can begin after them.
    fn entries_so_far(&self) -> Option<u64>
        ensures value { IfSome result (λ n. n ≡ self.now.before + length self.now.history) }
        ensures spent { IsNone result ↔ IsSpent self.now }
    {
        if self.store.clock.get() > MOST_TICKS {
            return None;
        }
        if !are_low(&self.grants) {
            return None;
        }
        entries_after(self.before(), self.history.len() as u64)
    }
}

/// The number of entries after some more; `None` where no book can begin after so many.
fn entries_after(before: u64, more: u64) -> Option<u64>
    ensures value { IfSome result (λ n. n ≡ before + more) }
    ensures many { IsNone result ↔ (most_entries < before + more) }
{
    let entries = before.saturating_add(more);
    if entries > MOST_ENTRIES {
        return None;
    }
    Some(entries)
}

/// Whether a book can begin with these counts of grants.
fn are_low(grants: &Grants) -> bool
    ensures all { IsTrue result → (s : StripeNo) (f : Fragment) → granted_in grants.now s f ≤ most_grants }
    ensures some { IsFalse result → (s : StripeNo) × (f : Fragment) × (most_grants < granted_in grants.now s f) }
{
    for number in 0..STRIPE_NUMBERS {
        let stripe = StripeNo::new(number).unwrap();
        if !are_low_of(grants, stripe) {
            return false;
        }
    }
    true
}

/// Whether a book can begin with the counts of a stripe number.
fn are_low_of(grants: &Grants, stripe: StripeNo) -> bool
    ensures all { IsTrue result → (f : Fragment) → granted_in grants.now stripe f ≤ most_grants }
    ensures some { IsFalse result → (f : Fragment) × (most_grants < granted_in grants.now stripe f) }
{
    for fragment in Fragment::all() {
        if grants.count(stripe, fragment) > MOST_GRANTS {
            return false;
        }
    }
    true
}

/// The image of a state, after `before` entries of the store.
fn image_of(alloc: Global, store: &Store, grants: &Grants, before: u64) -> Result<Image, Fault>
    ensures value { IfOk result (λ i. (st : State) (past : List Entry) → IsOf st store.now → AreGrantsOf past grants.now → IsImageOf store.now.topology past st before i) }
    ensures err { IfErr result (λ e. e ≡ fault.OutOfMemory) }
{
    let nodes = imaged_nodes(alloc, store)?;
    let stripes = imaged_stripes(alloc, store)?;
    let granted = imaged_grants(alloc, grants)?;
    let leases = imaged_leases(alloc, store)?;
    Ok(Image {
        before,
        clock: store.clock.get(),
        upgrading: store.upgrading,
        nodes,
        stripes,
        grants: granted,
        leases,
    })
}

/// The rows of the nodes.
fn imaged_nodes(alloc: Global, store: &Store) -> Result<Vec<NodeRow>, Fault>
    ensures value { IfOk result (λ rows. (st : State) → IsOf st store.now → rows.items ≡ node_rows store.now.topology st) }
    ensures err { IfErr result (λ e. e ≡ fault.OutOfMemory) }
{
    let mut rows = Vec::new(alloc);
    for number in 0..NODE_NUMBERS {
        let node = NodeNo::new(number as u16).unwrap();
        if let Some(row) = node_row_of(store, node) {
            rows.push(row)?;
        }
    }
    Ok(rows)
}

/// The row of a node; `None` where it is active and not down, or not in the store.
fn node_row_of(store: &Store, node: NodeNo) -> Option<NodeRow>
    ensures { (st : State) → IsOf st store.now → result ≡ node_row store.now.topology st node }
{
    store.topology.node(node)?;
    let mode = store.mode(node);
    let is_down = store.is_down(node);
    if mode == Mode::Active && !is_down {
        None
    } else {
        Some(NodeRow {
            node,
            mode,
            is_down,
        })
    }
}

/// The rows of the stripes.
fn imaged_stripes(alloc: Global, store: &Store) -> Result<Vec<StripeRow>, Fault>
    ensures value { IfOk result (λ rows. (st : State) → IsOf st store.now → rows.items ≡ stripe_rows st) }
    ensures err { IfErr result (λ e. e ≡ fault.OutOfMemory) }
{
    let mut rows = Vec::new(alloc);
    for number in 0..STRIPE_NUMBERS {
        let stripe = StripeNo::new(number).unwrap();
        if let Some(row) = stripe_row_of(store, stripe) {
            rows.push(row)?;
        }
    }
    Ok(rows)
}

/// The row of a stripe; `None` where there is no such stripe.
fn stripe_row_of(store: &Store, stripe: StripeNo) -> Option<StripeRow>
    ensures { (st : State) → IsOf st store.now → result ≡ stripe_row st stripe }
{
    match store.stripes.homes(stripe) {
        Some(homes) => Some(StripeRow {
            stripe,
            code: store.code_of(stripe),
            homes,
        }),
        None => None,
    }
}

/// The rows of the grants.
fn imaged_grants(alloc: Global, grants: &Grants) -> Result<Vec<GrantRow>, Fault>
    ensures value { IfOk result (λ rows. (past : List Entry) → AreGrantsOf past grants.now → rows.items ≡ grant_rows past) }
    ensures err { IfErr result (λ e. e ≡ fault.OutOfMemory) }
{
    let mut rows = Vec::new(alloc);
    for number in 0..STRIPE_NUMBERS {
        let stripe = StripeNo::new(number).unwrap();
        if let Some(row) = grant_row_of(grants, stripe) {
            rows.push(row)?;
        }
    }
    Ok(rows)
}

/// The row of the grants of a stripe number; `None` where no lease was granted for it.
fn grant_row_of(grants: &Grants, stripe: StripeNo) -> Option<GrantRow>
    ensures { (past : List Entry) → AreGrantsOf past grants.now → result ≡ grant_row past stripe }
{
    let granted = counts_of(grants, stripe);
    if has_any(&granted) {
        Some(GrantRow { stripe, granted })
    } else {
        None
    }
}

/// Whether a count is not 0.
fn has_any(counts: &[u32; FRAGMENTS]) -> bool
    ensures { result ≡ list_any (nat_lt 0) counts.now }
{
    counts.iter().any(|count| 0 < *count)
}

/// The number of leases granted for each fragment of a stripe number.
fn counts_of(grants: &Grants, stripe: StripeNo) -> [u32; FRAGMENTS]
    ensures { result ≡ map (λ f. granted_in grants.now stripe f) all_fragments }
{
    let mut counts = [0; FRAGMENTS];
    for fragment in Fragment::all() {
        counts[fragment.value as usize] = grants.count(stripe, fragment);
    }
    counts
}

/// The rows of the leases.
fn imaged_leases(alloc: Global, store: &Store) -> Result<Vec<LeaseRow>, Fault>
    ensures value { IfOk result (λ rows. (st : State) → IsOf st store.now → rows.items ≡ lease_rows st) }
    ensures err { IfErr result (λ e. e ≡ fault.OutOfMemory) }
{
    let mut rows = Vec::new(alloc);
    for number in 0..STRIPE_NUMBERS {
        let stripe = StripeNo::new(number).unwrap();
        push_leases(&mut rows, store, stripe)?;
    }
    Ok(rows)
}

/// Adds the rows of the leases of a stripe.
fn push_leases(rows: &mut Vec<LeaseRow>, store: &Store, stripe: StripeNo) -> Result<(), Fault>
    ensures value { OnOk result ((st : State) → IsOf st store.now → rows.new.items ≡ rows.old.items ++ stripe_leases st stripe) }
    ensures err { IfErr result (λ e. e ≡ fault.OutOfMemory) }
{
    for fragment in Fragment::all() {
        if let Some(lease) = store.leases.lease(stripe, fragment) {
            rows.push(LeaseRow {
                stripe: lease.stripe,
                fragment: lease.fragment,
                holder: lease.holder,
                target: lease.target,
                expiry: lease.expiry,
            })?;
        }
    }
    Ok(())
}
