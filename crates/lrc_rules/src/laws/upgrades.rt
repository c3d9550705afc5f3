//! Laws of upgrades.

ghost use Rattle.std.specs.Prelude.{◌≡◌, ◌≢◌, ◌↔◌, ℕ, ◌≤◌, IsTrue, IsFalse, List, Some, None};
ghost use Rattle.lrc_code.specs.declared.numbers.StripeNo.{StripeNo};
ghost use Rattle.lrc_topology.specs.declared.NodeInfo.{NodeInfo};
ghost use Rattle.lrc_topology.specs.Nodes.{AreNodes, has_domain};
ghost use Rattle.lrc_code.specs.declared.numbers.NodeNo.{NodeNo};
ghost use Rattle.lrc_code.specs.declared.numbers.SessionNo.{SessionNo};
ghost use Rattle.lrc_rules.specs.declared.entry.Entry.{Entry};
ghost use Rattle.lrc_rules.specs.declared.command.Command.{Command};
ghost use Rattle.lrc_rules.specs.declared.command.Command.TheVariants.{Upgrade, Upgraded};
ghost use Rattle.lrc_rules.specs.declared.reply.Reply.TheVariants.{Changed, Refused};
ghost use Rattle.lrc_rules.specs.declared.refusal.Refusal.TheVariants as refusal;
ghost use Rattle.lrc_terms.specs.declared.level.Level.TheVariants.{Whole};
ghost use Rattle.lrc_code.specs.declared.numbers.UpgradeNo.{UpgradeNo};
ghost use Rattle.lrc_code.specs.Losses.{IsRecoverable, IsMargin};
ghost use Rattle.lrc_rules.specs.Upgrading.{WouldBeLost};
ghost use Rattle.lrc_rules.specs.Steps.{step};
ghost use Rattle.lrc_rules.specs.States.{State, is_down, has_stripe, code_of, missing, level};
ghost use Rattle.lrc_rules.specs.Histories.{IsLegal, outcome_in, world_after, state_after};

/// Upgrade is refused for a stripe exactly if the domain has a node, no domain is upgrading, and the stripe has the
/// lowest number of those that are recoverable and would not be with the domain upgrading. It is done if there is no
/// such stripe. It is refused with UnknownDomain exactly if the domain has no node, and otherwise for the domain that
/// is upgrading, if there is one. After a legal history it is never refused for a stripe that is whole. After it each
/// stripe that was recoverable still is, and each that was whole survives at least one further loss.
#[tactic(auto, unfolding(crate::specs::Steps::upgrade_outcome))]
pub fn upgrades_are_safe()
    ensures lost { (nodes : List NodeInfo) (past : List Entry) (st : State) (session : SessionNo) (u : UpgradeNo) (s : StripeNo)
        → ((step nodes past st session (Upgrade u)).0 ≡ Refused (refusal.WouldLose s))
        ↔ (IsTrue (has_domain nodes u) × (st.upgrading ≡ None) × WouldBeLost nodes st u s
        × ((r : StripeNo) → WouldBeLost nodes st u r → s.value ≤ r.value)) }
    ensures unknown { (nodes : List NodeInfo) (past : List Entry) (st : State) (session : SessionNo) (u : UpgradeNo)
        → ((step nodes past st session (Upgrade u)).0 ≡ Refused refusal.UnknownDomain) ↔ IsFalse (has_domain nodes u) }
    ensures running { (nodes : List NodeInfo) (past : List Entry) (st : State) (session : SessionNo) (u v : UpgradeNo)
        → ((step nodes past st session (Upgrade u)).0 ≡ Refused (refusal.UpgradeRunning v))
        ↔ (IsTrue (has_domain nodes u) × (st.upgrading ≡ Some v)) }
    ensures done { (nodes : List NodeInfo) (past : List Entry) (st : State) (session : SessionNo) (u : UpgradeNo)
        → ((step nodes past st session (Upgrade u)).0 ≡ Changed)
        ↔ (IsTrue (has_domain nodes u) × (st.upgrading ≡ None) × ((s : StripeNo) → ¬ (WouldBeLost nodes st u s))) }
    ensures recoverable { (nodes : List NodeInfo) (past : List Entry) (st : State) (session : SessionNo) (u : UpgradeNo) (s : StripeNo)
        → (step nodes past st session (Upgrade u)).0 ≡ Changed → IsTrue (has_stripe st s) → IsRecoverable (code_of st s) (missing nodes st s)
        → IsRecoverable (code_of st s) (missing nodes (step nodes past st session (Upgrade u)).1 s) }
    ensures whole { (nodes : List NodeInfo) (history : List Entry) (session : SessionNo) (u : UpgradeNo) (s : StripeNo)
        → AreNodes nodes → IsLegal nodes history → level nodes (state_after nodes history) s ≡ Whole
        → (outcome_in nodes (world_after nodes history) session (Upgrade u)).0 ≢ Refused (refusal.WouldLose s) }
    ensures margin { (nodes : List NodeInfo) (history : List Entry) (session : SessionNo) (u : UpgradeNo) (s : StripeNo)
        → AreNodes nodes → IsLegal nodes history → level nodes (state_after nodes history) s ≡ Whole
        → (outcome_in nodes (world_after nodes history) session (Upgrade u)).0 ≡ Changed
        → (t : ℕ) × (1 ≤ t)
        × IsMargin (code_of (state_after nodes history) s) (missing nodes (outcome_in nodes (world_after nodes history) session (Upgrade u)).1 s) t }
{}

/// Upgraded is done exactly if the domain has a node and is upgrading. No domain is upgrading then. Each refusal
/// comes exactly if its reason holds and no earlier one does.
#[tactic(auto, unfolding(crate::specs::Steps::upgraded_outcome))]
pub fn upgraded_in_words()
    ensures done { (nodes : List NodeInfo) (past : List Entry) (st : State) (session : SessionNo) (u : UpgradeNo)
        → ((step nodes past st session (Upgraded u)).0 ≡ Changed) ↔ (IsTrue (has_domain nodes u) × (st.upgrading ≡ Some u)) }
    ensures unknown { (nodes : List NodeInfo) (past : List Entry) (st : State) (session : SessionNo) (u : UpgradeNo)
        → ((step nodes past st session (Upgraded u)).0 ≡ Refused refusal.UnknownDomain) ↔ IsFalse (has_domain nodes u) }
    ensures other { (nodes : List NodeInfo) (past : List Entry) (st : State) (session : SessionNo) (u : UpgradeNo)
        → ((step nodes past st session (Upgraded u)).0 ≡ Refused refusal.NotUpgrading)
        ↔ (IsTrue (has_domain nodes u) × (st.upgrading ≢ Some u)) }
    ensures none { (nodes : List NodeInfo) (past : List Entry) (st : State) (session : SessionNo) (u : UpgradeNo)
        → (step nodes past st session (Upgraded u)).0 ≡ Changed → (step nodes past st session (Upgraded u)).1.upgrading ≡ None }
{}

/// Upgrade and Upgraded change only which domain is upgrading: stripes, homes and leases stay, and so do the nodes
/// that are gone, draining and down. After Upgrade the domain is upgrading.
#[tactic(auto, unfolding(crate::specs::Steps::upgrade_outcome, crate::specs::Steps::upgraded_outcome))]
pub fn upgrades_change_the_domain_alone()
    ensures upgrade { (nodes : List NodeInfo) (past : List Entry) (st : State) (session : SessionNo) (u : UpgradeNo)
        → (step nodes past st session (Upgrade u)).1 ≡ record st { upgrading = (step nodes past st session (Upgrade u)).1.upgrading } }
    ensures upgraded { (nodes : List NodeInfo) (past : List Entry) (st : State) (session : SessionNo) (u : UpgradeNo)
        → (step nodes past st session (Upgraded u)).1 ≡ record st { upgrading = (step nodes past st session (Upgraded u)).1.upgrading } }
    ensures begun { (nodes : List NodeInfo) (past : List Entry) (st : State) (session : SessionNo) (u : UpgradeNo)
        → (step nodes past st session (Upgrade u)).0 ≡ Changed → (step nodes past st session (Upgrade u)).1.upgrading ≡ Some u }
    ensures down { (nodes : List NodeInfo) (past : List Entry) (st : State) (session : SessionNo) (u : UpgradeNo) (n : NodeNo)
        → is_down (step nodes past st session (Upgraded u)).1 n ≡ is_down st n }
{}

/// Only Upgrade and Upgraded change which domain is upgrading.
pub fn upgrading_changes_by_these_alone()
    ensures { (nodes : List NodeInfo) (past : List Entry) (st : State) (session : SessionNo) (command : Command)
        → ((u : UpgradeNo) → command ≢ Upgrade u) → ((u : UpgradeNo) → command ≢ Upgraded u)
        → (step nodes past st session command).1.upgrading ≡ st.upgrading }
{}
