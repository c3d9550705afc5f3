//! The queries. They change nothing.

ghost use Rattle.std.specs.Prelude.{◌≡◌, ℕ, if◌then◌else◌, None, is_some, option_map, ◌<◌, ◌↔◌, IsTrue, IsFalse, IfSome, IfNone, Some};
ghost use Rattle.lrc_code.specs.declared.numbers.StripeNo.{StripeNo as AnyStripe};
ghost use Rattle.lrc_stripes.specs.Stored.{homes_shown, missing_shown, needs_shown, level_shown, AreHomesOn, AreHomesOnFrom, has_work, AreWork, AreWorkFrom, AreAtRisk};
ghost use Rattle.lrc_homes.specs.Domains.{AreDomainsOf};
ghost use Rattle.lrc_code.specs.Codes.{has_fragment};
ghost use Rattle.lrc_code.specs.Losses.{bits_set};
ghost use Rattle.lrc_nodes.specs.States.{infos_in, state_at, down_in, online_in};
ghost use Rattle.lrc_stripes.specs.Tables.{stored_in};
ghost use Rattle.lrc_stripes.specs.Upgrades.{at_rest, is_short_lost_to, IsFirstShortLostTo};

use crate::stripes::Stripes;
use crate::{AtRisk, HomeDomains, Homes, HomesOn, Level, Seat, Work, upgrades};
use lrc_code::{Code, FRAGMENTS, Fragment, LossMask, NodeNo, StripeNo, UpgradeNo};
use lrc_terms::Mode;

#[tactic(auto, unfolding(crate::specs::Tables::stored_in))]
impl Stripes {
    /// Whether the stripe exists.
    pub fn contains(&self, stripe: StripeNo) -> bool
        ensures { result ≡ (stored_in self.now).stripes stripe }
    {
        self.rows.contains(stripe)
    }

    /// The home of a fragment of a stripe, if it has one; a fragment that the stripe's code lacks has none.
    pub fn home(&self, stripe: StripeNo, fragment: Fragment) -> Option<Seat>
        requires { IsTrue ((stored_in self.now).stripes stripe) }
        ensures { result ≡ (stored_in self.now).homes stripe fragment.value }
    {
        let row = self.rows.get(stripe)?;
        row.homes.home(fragment)
    }

    /// The homes of a stripe, by fragment number from 0 to 15; no home for a number that the stripe's code lacks. `None` for
    /// a stripe that does not exist.
    pub fn homes(&self, stripe: StripeNo) -> Option<[Option<Seat>; FRAGMENTS]>
        ensures { result ≡ homes_shown (stored_in self.now) stripe }
    {
        let row = self.rows.get(stripe)?;
        Some(row.homes.all())
    }

    /// The same homes in the form in which they are kept, which is cheap to copy.
    pub fn packed_homes(&self, stripe: StripeNo) -> Option<Homes>
        ensures { result ≡ homes_shown (stored_in self.now) stripe }
    {
        let row = self.rows.get(stripe)?;
        Some(row.homes.again())
    }

    /// The fragments of a stripe that have a home; each is one of the stripe's code.
    pub fn homed(&self, stripe: StripeNo) -> LossMask
        requires { IsTrue ((stored_in self.now).stripes stripe) }
        ensures few { result.bits < 65536 }
        ensures homed { (f : ℕ) → bits_set result.bits f ≡ is_some ((stored_in self.now).homes stripe f) }
        ensures within { (f : ℕ) → IsTrue (bits_set result.bits f) → IsTrue (has_fragment ((stored_in self.now).code stripe) f) }
    {
        self.rows.homed(stripe)
    }

    /// The domains of the nodes of a stripe's homes.
    pub fn domains(&self, stripe: StripeNo) -> &HomeDomains
        requires { IsTrue ((stored_in self.now).stripes stripe) }
        ensures { AreDomainsOf (infos_in (stored_in self.now).nodes) ((stored_in self.now).homes stripe) result.now }
    {
        let row = self.rows.get(stripe).unwrap();
        &row.domains
    }

    /// The missing fragments of a stripe: those without a home on an online node. `None` for a stripe that does not exist.
    pub fn missing(&self, stripe: StripeNo) -> Option<LossMask>
        ensures { result ≡ missing_shown (stored_in self.now) stripe }
    {
        let row = self.rows.get(stripe)?;
        let losses = row.losses_kept(&self.node_table, self.rows.upgrading(), stripe);
        Some(losses.missing())
    }

    /// The fragments of a stripe that need a lease: those without a home or with one on a draining node. `None` for a stripe
    /// that does not exist.
    pub fn needs(&self, stripe: StripeNo) -> Option<LossMask>
        ensures { result ≡ needs_shown (stored_in self.now) stripe }
    {
        let row = self.rows.get(stripe)?;
        Some(row.losses.needs())
    }

    /// The fragments of an existing stripe that need a lease.
    pub fn needs_there(&self, stripe: StripeNo) -> LossMask
        requires { IsTrue ((stored_in self.now).stripes stripe) }
        ensures { Some result ≡ needs_shown (stored_in self.now) stripe }
    {
        self.rows.needs(stripe)
    }

    /// The level of a stripe; `None` for a stripe that does not exist.
    pub fn level(&self, stripe: StripeNo) -> Option<Level>
        ensures { result ≡ level_shown (stored_in self.now) stripe }
    {
        let row = self.rows.get(stripe)?;
        let losses = row.losses_kept(&self.node_table, self.rows.upgrading(), stripe);
        Some(losses.level())
    }

    /// The lowest-numbered short stripe that is recoverable, and would not be with the nodes of this upgrade domain offline, in
    /// the state in which no domain is upgrading; `None` without such a stripe. A stripe is short if one of its fragments needs
    /// a lease, or it has homes on several nodes that are not online. If the homes of each stripe are in different fault
    /// domains, and those of each class in different upgrade domains, an upgrade can make no other stripe unrecoverable.
    pub fn would_lose_short(&self, domain: UpgradeNo) -> Option<StripeNo>
        ensures found { IfSome result (IsFirstShortLostTo (at_rest (stored_in self.now)) domain) }
        ensures none { IfNone result ((s : StripeNo) → IsFalse (is_short_lost_to (at_rest (stored_in self.now)) domain s)) }
    {
        upgrades::first_short(&self.node_table, &self.rows, &self.verdicts, domain)
    }

    /// The fragments with a home on a node, in rising order of stripe and fragment.
    pub fn homes_on(&self, node: NodeNo) -> HomesOn<'_>
        ensures { AreHomesOn (stored_in self.now) node result }
    {
        HomesOn::new(&self.node_table, &self.rows, node, 0)
    }

    /// The fragments with a home on a node, of the stripes from this number on, in rising order of stripe and fragment.
    pub fn homes_on_from(&self, node: NodeNo, first: StripeNo) -> HomesOn<'_>
        ensures { AreHomesOnFrom (stored_in self.now) node first result }
    {
        HomesOn::new(&self.node_table, &self.rows, node, first.value as usize)
    }

    /// The code of a stripe; `None` for a stripe that does not exist.
    pub fn code(&self, stripe: StripeNo) -> Option<Code>
        ensures { result ≡ (if (stored_in self.now).stripes stripe then Some ((stored_in self.now).code stripe) else None) }
    {
        let row = self.rows.get(stripe)?;
        Some(row.losses.code)
    }

    /// Whether a fragment of any stripe needs a lease.
    pub fn has_work(&self) -> bool
        ensures { IsTrue result ↔ ((s : AnyStripe) × IsTrue (has_work (stored_in self.now) s)) }
    {
        self.rows.has_work()
    }

    /// The stripes with a fragment that needs a lease, in the order of repair: by rank, and then by number.
    pub fn work(&self) -> Work<'_>
        ensures { AreWork (stored_in self.now) result }
    {
        self.rows.work()
    }

    /// The stripes with a fragment that needs a lease, in the order of repair, from this stripe on, which is one of them.
    pub fn work_from(&self, first: StripeNo) -> Work<'_>
        requires { IsTrue (has_work (stored_in self.now) first) }
        ensures { AreWorkFrom (stored_in self.now) first result }
    {
        self.rows.work_from(first)
    }

    /// The stripes that are not whole and their levels, in the order of repair: by rank, and then by number.
    pub fn at_risk(&self) -> AtRisk<'_>
        ensures { AreAtRisk (stored_in self.now) result }
    {
        AtRisk::new(&self.node_table, &self.rows)
    }

    /// The mode of a node, if the store has it.
    pub fn mode(&self, node: NodeNo) -> Option<Mode>
        ensures { result ≡ option_map (λ x. x.mode) (state_at (stored_in self.now).nodes node) }
    {
        self.node_table.mode(node)
    }

    /// Whether a node is down; `false` if the store does not have it.
    pub fn is_down(&self, node: NodeNo) -> bool
        ensures { result ≡ down_in (stored_in self.now).nodes node }
    {
        self.node_table.is_down(node)
    }

    /// Whether a node is online; `false` if the store does not have it.
    pub fn is_online(&self, node: NodeNo) -> bool
        ensures { result ≡ online_in (stored_in self.now).nodes node }
    {
        self.node_table.is_online(node)
    }
}
