//! Laws of upgrades. The functions do nothing. Their contracts are theorems about the states of a store.

ghost use Rattle.std.specs.Prelude.{◌≡◌, ◌↔◌, IsTrue, List, None, Some};
ghost use Rattle.lrc_code.specs.declared.numbers.StripeNo.{StripeNo};
ghost use Rattle.lrc_code.specs.declared.numbers.UpgradeNo.{UpgradeNo};
ghost use Rattle.lrc_topology.specs.declared.NodeInfo.{NodeInfo};
ghost use Rattle.lrc_rules.specs.States.{State};
ghost use Rattle.lrc_rules.specs.Goodness.{AreSeated};
ghost use Rattle.lrc_rules.specs.Steps.{would_lose};
ghost use Rattle.lrc_stripes.specs.Upgrades.{is_lost_to, is_short, IsFirstLostTo, IsFirstShortLostTo};
ghost use Rattle.lrc_store.specs.Stores.{stored_of};

/// An upgrade makes no stripe unrecoverable that is not short. So the lowest short stripe that an upgrade would lose is the
/// lowest of all that it would lose, and is exactly the one for which the rules refuse the upgrade. The seats of the state are
/// in order, and no domain is upgrading.
pub fn only_short_stripes_are_lost_to_upgrades()
    ensures short { (nodes : List NodeInfo) (st : State) (u : UpgradeNo) (s : StripeNo)
        → AreSeated nodes st → st.upgrading ≡ None
        → IsTrue (is_lost_to (stored_of nodes st) u s) → IsTrue (is_short (stored_of nodes st) s) }
    ensures first { (nodes : List NodeInfo) (st : State) (u : UpgradeNo) (s : StripeNo)
        → AreSeated nodes st → st.upgrading ≡ None
        → IsFirstShortLostTo (stored_of nodes st) u s ↔ IsFirstLostTo (stored_of nodes st) u s }
    ensures refused { (nodes : List NodeInfo) (st : State) (u : UpgradeNo) (s : StripeNo)
        → AreSeated nodes st → st.upgrading ≡ None
        → IsFirstShortLostTo (stored_of nodes st) u s ↔ (would_lose nodes st u ≡ Some s) }
{}
