ghost use Rattle.std.specs.Prelude.{◌≡◌, get_or, if◌then◌else◌, nat_lt, None, Some, IfErr, OnOk, IsOk};
ghost use Rattle.std.specs.List.{list_any};
ghost use Rattle.lrc_code.specs.declared.numbers.StripeNo.{StripeNo};
ghost use Rattle.lrc_code.specs.declared.numbers.Fragment.{Fragment};
ghost use Rattle.lrc_code.specs.Numbers.{same_stripe};
ghost use Rattle.lrc_code.specs.Codes.{all_fragments};
ghost use Rattle.lrc_leases.specs.Granted.{none_granted, granted_in};
ghost use Rattle.lrc_images.specs.Images.{earlier};
ghost use Rattle.lrc_images.specs.Rising.{grant_first, IsRising};
ghost use Rattle.lrc_images.specs.Causes.{grant_cause};
ghost use Rattle.lrc_store.specs.Stores.{AreGrantsOf};
ghost use Rattle.lrc_restore.specs.Stages.{grants_refusal};

use crate::error::RefusedRow;
use crate::order::{Ordered, is_out_of_order};
use crate::position::grants_from;
use lrc_code::{FRAGMENTS, Fragment};
use lrc_images::{Cause, GrantRow, Image, MOST_GRANTS};
use lrc_leases::Grants;

/// Sets the counts of an image.
pub(crate) fn restore_grants(grants: &mut Grants, image: &Image) -> Result<(), RefusedRow>
    requires { granted_in grants.old ≡ none_granted }
    ensures kept { OnOk result (AreGrantsOf (earlier image.now.grants.items) grants.new) }
    ensures lawful { IsOk result → grants_refusal image.now ≡ None }
    ensures refused { IfErr result (λ r. grants_refusal image.now ≡ Some (r.position, r.cause)) }
{
    let rows = image.grants.as_slice();
    for (index, row) in rows.iter().enumerate() {
        if let Some(cause) = grant_cause(&rows[..index], row) {
            let position = grants_from(image) + index;
            return Err(RefusedRow { position, cause });
        }
        set_counts(grants, row);
    }
    Ok(())
}

/// Returns why a row can't come after these rows, which rise; `None` if it can.
fn grant_cause(before: &[GrantRow], row: &GrantRow) -> Option<Cause>
    requires { IsRising grant_first before.now }
    ensures { result ≡ grant_cause before.now row.now }
{
    if is_out_of_order(before, row) {
        return Some(Cause::OutOfOrder);
    }
    if !has_above(&row.granted, 0) {
        return Some(Cause::SaysNothing);
    }
    if has_above(&row.granted, MOST_GRANTS) {
        return Some(Cause::TooManyGrants);
    }
    None
}

impl Ordered for GrantRow {
    ghost use Rattle.std.proofs.Common.{rules};
    ghost use Rattle.std.proofs.lemmas.Grind.{common_steps};

    ghost first = { grant_first };

    fn comes_before(&self, other: &GrantRow) -> bool {
        self.stripe.value < other.stripe.value
    }

    ghost joins = { Prim.search (rules, common_steps) };
}

/// Whether a count is above a bound.
fn has_above(counts: &[u32; FRAGMENTS], bound: u32) -> bool
    ensures { result ≡ list_any (λ f. nat_lt bound (get_or counts.now f.value 0)) all_fragments }
{
    let all = Fragment::all();
    all.iter()
        .any(|fragment| bound < counts[fragment.value as usize])
}

/// Sets the counts of a row.
fn set_counts(grants: &mut Grants, row: &GrantRow)
    ensures { (s : StripeNo) (f : Fragment) → granted_in grants.new s f
        ≡ (if same_stripe row.now.stripe s then get_or row.now.granted f.value 0 else granted_in grants.old s f) }
{
    for fragment in Fragment::all() {
        grants.set(row.stripe, fragment, row.granted[fragment.value as usize]);
    }
}
