ghost use Rattle.std.specs.Prelude.{◌≡◌, if◌then◌else◌, ◌||◌, ◌&&◌, ℕ, nat_lt, ◌<◌, ◌≤◌, length, get_or, option_and_then, replicate, Some, None, is_some, true, false, IsTrue, IfOk, IfErr, IfSome};
ghost use Rattle.std.specs.Option.{option_copied};
ghost use Rattle.lrc_code.specs.Numbers.{same_stripe};
ghost use Rattle.lrc_code.specs.declared.numbers.StripeNo.{StripeNo as AnyStripe};
ghost use Rattle.lrc_rows.specs.declared.row.Row.{Row as AnyRow};
ghost use Rattle.lrc_code.specs.declared.fault.Fault.TheVariants.{OutOfMemory};
ghost use Rattle.lrc_ranks.specs.Ranks.{is_at, queue_from};
ghost use Rattle.lrc_homes.specs.Masks.{risk_rank};
ghost use Rattle.lrc_homes.specs.Upgrading.{work_rank_with};
ghost use Rattle.lrc_ranks.specs.Sets.{has, at_fragment};
ghost use Rattle.lrc_code.specs.declared.codes.Code.TheVariants.{Wide, Narrow};
ghost use Rattle.lrc_rows.specs.Kept.{row_has_work, IsKept, queued, ranked, needs_of, is_planed, freshened, level_in, is_row_on, holds, AreRenewed, IsRenewed, IsWithLosses, IsWithMissing, IsRehomed, IsMissingOn, IsToMoveOn};
ghost use Rattle.lrc_rows.specs.NodeStates.{states_in, AreUpgrading};
ghost use Rattle.lrc_homes.specs.Homes.{sits_on};
ghost use Rattle.lrc_code.specs.Losses.{bits_set};
ghost use Rattle.lrc_rows.specs.Listed.{rows_in};

use crate::row::Row;
use crate::upgrading_domains::UpgradingDomains;
use lrc_code::{Code, Fragment, LossMask, StripeNo};
use lrc_homes::{HomeDomains, Losses, masks};
use lrc_ranks::KeptPlanes;
use lrc_topology::Seat;

/// Sets whether these fragments are missing, if there is a row.
pub(super) fn put_missing(row: &mut Option<Row>, fragments: LossMask, are_missing: bool)
    ensures { IsRenewed (IsWithMissing fragments are_missing) row.old row.new }
{
    if let Some(row) = row {
        row.losses.missing = masks::put(row.losses.missing, fragments, are_missing);
    }
}

/// Sets the losses, if there is a row.
pub(super) fn put_losses(row: &mut Option<Row>, losses: Losses)
    ensures { IsRenewed (IsWithLosses losses) row.old row.new }
{
    if let Some(row) = row {
        row.losses = losses;
    }
}

/// Sets or clears the home of a fragment, and sets the domains and the losses, if there is a row.
pub(super) fn put_home(
    row: &mut Option<Row>,
    fragment: Fragment,
    home: Option<Seat>,
    domains: HomeDomains,
    losses: Losses,
)
    ensures { IsRenewed (IsRehomed fragment.value home domains losses) row.old row.new }
{
    if let Some(row) = row {
        row.homes.put(fragment, home);
        row.domains = domains;
        row.losses = losses;
    }
}

/// The fragments that need a lease, as bits; 0 without a row.
pub(super) fn needs_of(row: Option<&Row>) -> u16
    ensures { result ≡ needs_of (option_copied row.entry) }
{
    match row {
        Some(row) => row.losses.needs.bits,
        None => 0,
    }
}

/// The rank of the row; `None` without a row or without work.
pub(super) fn work_rank(row: Option<&Row>, upgrading: &UpgradingDomains) -> Option<u8>
    ensures value { result ≡ option_and_then (λ r. work_rank_with upgrading.now r.homes r.domains r.losses) (option_copied row.entry) }
    ensures few { IfSome result (λ k. k ≤ 4) }
{
    row?.work_rank(upgrading)
}

/// The fragments that the planes have of a row: those of the mask of the missing ones, if it has work.
pub(super) fn planed(row: Option<&Row>) -> LossMask
    ensures { (f : ℕ) → bits_set result.bits f ≡ is_planed f (option_copied row.entry) }
{
    match row {
        Some(row) => row.planed(),
        None => LossMask::from_bits(0),
    }
}

/// Sets what the planes have of a stripe. Before, they had these fragments of it.
pub(super) fn set_planes(
    planes: &mut KeptPlanes,
    stripe: StripeNo,
    before: LossMask,
    after: LossMask,
    has_work: bool,
)
    requires { (f : ℕ) → f < 16 → at_fragment planes.old.missing f stripe ≡ bits_set before.bits f }
    ensures missing { (f : ℕ) (s : AnyStripe) → f < 16 → at_fragment planes.new.missing f s ≡ (if same_stripe stripe s then bits_set after.bits f else at_fragment planes.old.missing f s) }
    ensures work { has planes.new.work ≡ λ s. if same_stripe stripe s then has_work else has planes.old.work s }
    ensures narrow { planes.new.narrow ≡ planes.old.narrow }
{
    planes.put_missing(stripe, masks::put(after, before, false), true);
    planes.put_missing(stripe, masks::put(before, after, false), false);
    planes.set_work(stripe, has_work);
}

/// Whether the code is `Narrow`.
pub(super) fn is_narrow(code: Code) -> bool
    ensures { (if result then Narrow else Wide) ≡ code }
{
    match code {
        Code::Wide => false,
        Code::Narrow => true,
    }
}
