//! Laws of images: what rising rows say, and which images are worlds that a book can begin in.
//! `bases` has laws of the histories that begin in such a world, and `causes` says which row is the
//! first that is wrong, and why.

pub mod bases;
pub mod causes;

ghost use Rattle.std.specs.Prelude.{◌≡◌, ◌≢◌, ◌≤◌, IsTrue, IsFalse, AllPairs, Contains};
ghost use Rattle.std.specs.Prelude.{ℕ, List, get_or, None};
ghost use Rattle.lrc_code.specs.declared.numbers.StripeNo.{StripeNo};
ghost use Rattle.lrc_code.specs.declared.numbers.NodeNo.{NodeNo};
ghost use Rattle.lrc_code.specs.declared.numbers.Fragment.{Fragment};
ghost use Rattle.lrc_topology.specs.declared.NodeInfo.{NodeInfo};
ghost use Rattle.lrc_topology.specs.Nodes.{AreNodes};
ghost use Rattle.lrc_terms.specs.Leased.{AreOneEach};
ghost use Rattle.lrc_rules.specs.States.{has_number};
ghost use Rattle.lrc_rules.specs.Leases.{grants};
ghost use Rattle.lrc_rules.specs.Histories.{World};
ghost use Rattle.lrc_rules.specs.Goodness.{AreSeated, IsGood};
ghost use Rattle.lrc_rules.specs.Tidiness.{IsTidy};
ghost use Rattle.lrc_rules.specs.Alike.{AreAlike, AreDistinct};
ghost use Rattle.lrc_rules.specs.Futures.{HaveSameGrants};
ghost use Rattle.lrc_images.specs.declared.image.GrantRow.{GrantRow};
ghost use Rattle.lrc_images.specs.declared.image.Image.{Image};
ghost use Rattle.lrc_images.specs.Images.{image_state, image_world};
ghost use Rattle.lrc_images.specs.Rising.{grant_first, IsRising, AreRising, HaveAllFragments};
ghost use Rattle.lrc_images.specs.Causes.{most_entries, first_cause};
ghost use Rattle.lrc_images.specs.Bases.{IsBase};
ghost use Rattle.lrc_images.specs.Rows.{IsImageOf};

/// If the rows of an image rise, no list of its state has an element twice, each fragment has at
/// most one home and one lease, and no node is both gone and draining.
pub fn rising_rows_repeat_nothing()
    ensures distinct { (i : Image) → AreRising i → AreDistinct (image_state i) }
    ensures one_home { (i : Image) → AreRising i
        → AllPairs (λ h g. h.stripe ≡ g.stripe → h.fragment ≢ g.fragment) (image_state i).homes }
    ensures one_lease { (i : Image) → AreRising i → AreOneEach (image_state i).leases }
    ensures apart { (i : Image) (n : NodeNo) → AreRising i
        → IsTrue (has_number (image_state i).gone n)
        → IsFalse (has_number (image_state i).draining n) }
{}

/// If the rows of the grants rise, the entries before an image grant as many leases of a fragment
/// as the row of its stripe number says, and none if there is no such row.
pub fn grants_are_those_of_the_rows()
    ensures some { (i : Image) (r : GrantRow) (f : Fragment)
        → IsRising grant_first i.grants.items → Contains i.grants.items r
        → grants (image_world i).past r.stripe f ≡ get_or r.granted f.value 0 }
    ensures none { (i : Image) (s : StripeNo) (f : Fragment)
        → ((r : GrantRow) → Contains i.grants.items r → r.stripe ≢ s)
        → grants (image_world i).past s f ≡ 0 }
{}

/// A state has one image. Images whose rows rise, with a place for each of the sixteen fragments,
/// have the same rows if their states are alike and as many leases of each fragment were granted.
pub fn alike_images_have_the_same_rows()
    ensures nodes { (i j : Image)
        → AreRising i → AreRising j → AreAlike (image_state i) (image_state j)
        → i.nodes.items ≡ j.nodes.items }
    ensures stripes { (i j : Image)
        → AreRising i → AreRising j → AreAlike (image_state i) (image_state j)
        → HaveAllFragments i → HaveAllFragments j → i.stripes.items ≡ j.stripes.items }
    ensures grants { (i j : Image)
        → AreRising i → AreRising j → AreAlike (image_state i) (image_state j)
        → HaveAllFragments i → HaveAllFragments j
        → HaveSameGrants (image_world i).past (image_world j).past
        → i.grants.items ≡ j.grants.items }
    ensures leases { (i j : Image)
        → AreRising i → AreRising j → AreAlike (image_state i) (image_state j)
        → i.leases.items ≡ j.leases.items }
{}

/// If no row of an image is wrong, its rows rise, and a book can begin in its world.
pub fn lawful_images_are_bases()
    ensures rising { (nodes : List NodeInfo) (i : Image)
        → first_cause nodes i ≡ None → AreRising i }
    ensures base { (nodes : List NodeInfo) (i : Image)
        → AreNodes nodes → first_cause nodes i ≡ None → IsBase nodes (image_world i) }
    ensures entries { (nodes : List NodeInfo) (i : Image)
        → first_cause nodes i ≡ None → i.before ≤ most_entries }
{}

/// If the rows of an image rise, and a book can begin in its world, no row of it is wrong. So no
/// image is refused that could be taken.
pub fn bases_are_taken()
    ensures { (nodes : List NodeInfo) (i : Image)
        → AreRising i → IsBase nodes (image_world i) → i.before ≤ most_entries
        → first_cause nodes i ≡ None }
{}

/// A book can begin in the world of an image of any world that a book can begin in: the rows of the
/// image rise, its state is alike, and as many leases of each fragment were granted. If the image
/// says no more than the largest number of entries, no row of it is wrong.
pub fn images_of_bases_are_bases()
    ensures base { (nodes : List NodeInfo) (w : World) (i : Image)
        → IsBase nodes w → AreRising i
        → AreAlike w.state (image_state i) → HaveSameGrants w.past (image_world i).past
        → IsBase nodes (image_world i) }
    ensures taken { (nodes : List NodeInfo) (w : World) (i : Image)
        → IsBase nodes w → AreRising i
        → AreAlike w.state (image_state i) → HaveSameGrants w.past (image_world i).past
        → i.before ≤ most_entries → first_cause nodes i ≡ None }
{}

/// The image of a state, row by row, has rows that rise. As many leases of each fragment were
/// granted before it. If the state is good and tidy, the state of the image is alike.
pub fn images_are_alike()
    ensures rising { (nodes : List NodeInfo) (w : World) (before : ℕ) (i : Image)
        → IsImageOf nodes w.past w.state before i → AreRising i }
    ensures grants { (nodes : List NodeInfo) (w : World) (before : ℕ) (i : Image)
        → IsImageOf nodes w.past w.state before i
        → HaveSameGrants w.past (image_world i).past }
    ensures alike { (nodes : List NodeInfo) (w : World) (before : ℕ) (i : Image)
        → AreNodes nodes → IsGood nodes w.past w.state → IsTidy nodes w.state
        → IsImageOf nodes w.past w.state before i → AreAlike w.state (image_state i) }
{}

/// An image of a state is an image of each state that is alike, if both meet `AreSeated` and as many
/// leases of each fragment were granted. So replicas have one image, and a book that begins in an
/// image has it.
pub fn alike_states_have_one_image()
    ensures { (nodes : List NodeInfo) (w v : World) (before : ℕ) (i : Image)
        → AreSeated nodes w.state → AreSeated nodes v.state
        → AreAlike w.state v.state → HaveSameGrants w.past v.past
        → IsImageOf nodes w.past w.state before i → IsImageOf nodes v.past v.state before i }
{}
