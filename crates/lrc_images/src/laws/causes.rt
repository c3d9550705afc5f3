//! Laws of causes: which row of an image is the first that is wrong, and what is wrong with it.
//! `specs/Cuts` says how rows are counted, and `specs/Faults` says each fault in words.

ghost use Rattle.std.specs.Prelude.{◌≡◌, ◌↔◌, ◌<◌, ◌≤◌, ◌+◌, ◌++◌, ◌∷◌, ℕ, List, length, Some, None};
ghost use Rattle.lrc_topology.specs.declared.NodeInfo.{NodeInfo};
ghost use Rattle.lrc_images.specs.declared.cause.Cause.{Cause};
ghost use Rattle.lrc_images.specs.declared.image.NodeRow.{NodeRow};
ghost use Rattle.lrc_images.specs.declared.image.StripeRow.{StripeRow};
ghost use Rattle.lrc_images.specs.declared.image.GrantRow.{GrantRow};
ghost use Rattle.lrc_images.specs.declared.image.LeaseRow.{LeaseRow};
ghost use Rattle.lrc_images.specs.declared.image.Image.{Image};
ghost use Rattle.lrc_images.specs.Causes.{first_cause};
ghost use Rattle.lrc_images.specs.Cuts.{row_count, IsCut};
ghost use Rattle.lrc_images.specs.Faults.{IsFirst, IsHeadFault, head_causes, IsNodeFault, node_causes};
ghost use Rattle.lrc_images.specs.Faults.{IsStripeCause, IsGrantFault, grant_causes, IsLeaseFault, lease_causes};

/// The position of a first cause is that of the first wrong row. Cut before that row, an image has
/// no cause. Cut after it or after a later row, it has the same cause at the same position. If an
/// image that is cut has no cause, and has one with the next row, that row is the first wrong one.
/// Each image can be cut after each row.
pub fn first_causes_are_of_first_wrong_rows()
    ensures before { (nodes : List NodeInfo) (i j : Image) (p count : ℕ) (c : Cause)
        → first_cause nodes i ≡ Some (p, c) → IsCut i count j → count < p → first_cause nodes j ≡ None }
    ensures after { (nodes : List NodeInfo) (i j : Image) (p count : ℕ) (c : Cause)
        → first_cause nodes i ≡ Some (p, c) → IsCut i count j → p ≤ count → first_cause nodes j ≡ Some (p, c) }
    ensures only { (nodes : List NodeInfo) (i j l : Image) (p count : ℕ) (c : Cause)
        → IsCut i count j → first_cause nodes j ≡ None
        → IsCut i (count + 1) l → first_cause nodes l ≡ Some (p, c)
        → (p ≡ count + 1) × (first_cause nodes i ≡ Some (p, c)) }
    ensures within { (nodes : List NodeInfo) (i : Image) (p : ℕ) (c : Cause)
        → first_cause nodes i ≡ Some (p, c) → p ≤ row_count i }
    ensures cut { (i : Image) (count : ℕ) → (j : Image) × IsCut i count j }
{}

/// At position 0 an image has a cause exactly if something is wrong beside its rows. The cause is the
/// first of `head_causes` whose fault there is.
pub fn causes_of_heads()
    ensures { (nodes : List NodeInfo) (i : Image) (c : Cause)
        → (first_cause nodes i ≡ Some (0, c)) ↔ IsFirst (IsHeadFault nodes i) head_causes c }
{}

/// The row of a node, after rows that are taken, has a cause exactly if it has a fault. The cause is
/// the first of `node_causes` whose fault the row has.
pub fn causes_of_nodes()
    ensures { (nodes : List NodeInfo) (i j : Image) (before : List NodeRow) (r : NodeRow) (later : List NodeRow) (c : Cause)
        → i.nodes.items ≡ before ++ r ∷ later → IsCut i (length before) j → first_cause nodes j ≡ None
        → (first_cause nodes i ≡ Some (1 + length before, c)) ↔ IsFirst (IsNodeFault nodes before r) node_causes c }
{}

/// The row of a stripe, after rows that are taken, has a cause exactly if it is out of order, which is
/// the cause then, or one of its homes has a fault. The cause is then the first of `seat_causes` whose
/// fault the first such home has.
pub fn causes_of_stripes()
    ensures { (nodes : List NodeInfo) (i j : Image) (before : List StripeRow) (r : StripeRow) (later : List StripeRow) (c : Cause)
        → i.stripes.items ≡ before ++ r ∷ later
        → IsCut i (length i.nodes.items + length before) j → first_cause nodes j ≡ None
        → (first_cause nodes i ≡ Some (1 + length i.nodes.items + length before, c)) ↔ IsStripeCause nodes i before r c }
{}

/// The row of grants, after rows that are taken, has a cause exactly if it has a fault. The cause is
/// the first of `grant_causes` whose fault the row has.
pub fn causes_of_grants()
    ensures { (nodes : List NodeInfo) (i j : Image) (before : List GrantRow) (r : GrantRow) (later : List GrantRow) (c : Cause)
        → i.grants.items ≡ before ++ r ∷ later
        → IsCut i (length i.nodes.items + length i.stripes.items + length before) j → first_cause nodes j ≡ None
        → (first_cause nodes i ≡ Some (1 + length i.nodes.items + length i.stripes.items + length before, c))
        ↔ IsFirst (IsGrantFault before r) grant_causes c }
{}

/// The row of a lease, after rows that are taken, has a cause exactly if it has a fault. The cause is
/// the first of `lease_causes` whose fault the row has.
pub fn causes_of_leases()
    ensures { (nodes : List NodeInfo) (i j : Image) (before : List LeaseRow) (r : LeaseRow) (later : List LeaseRow) (c : Cause)
        → i.leases.items ≡ before ++ r ∷ later
        → IsCut i (length i.nodes.items + length i.stripes.items + length i.grants.items + length before) j
        → first_cause nodes j ≡ None
        → (first_cause nodes i
        ≡ Some (1 + length i.nodes.items + length i.stripes.items + length i.grants.items + length before, c))
        ↔ IsFirst (IsLeaseFault nodes i before r) lease_causes c }
{}
