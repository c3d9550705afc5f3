ghost use Rattle.std.specs.Prelude.{◌≡◌, option_map};
ghost use Rattle.std.specs.Fn.{FnOnceReturnsAt};
ghost use Rattle.lrc_book.specs.Books.{state_of};
ghost use Rattle.lrc_rules.specs.States.{code_shown, homes_shown, level_shown, missing_shown, lease_of};
ghost use Rattle.lrc_rules.specs.States.{load_shown, mode_shown};
ghost use Rattle.lrc_book.specs.Looks.{down_shown, kind_shown};
ghost use Rattle.lrc_records.specs.Replies.{encoded_lease, repair_plan};
ghost use Rattle.lrc_records.specs.Shown.{flag, encoded_code, encoded_homes, encoded_level, encoded_mode};
ghost use Rattle.lrc_images.specs.Rows.{node_no};
ghost use Rattle.lrc_embed.specs.Calls.{IsLook, IsStripeLook, IsFragmentLook, IsReading};

use crate::LrcHandle;
use crate::status::{DONE, IS_CLOSED, OUT_OF_RANGE, UNKNOWN};
use lrc_book::Book;
use lrc_code::{Fragment, NodeNo, StripeNo};
use lrc_records::{LrcHomes, LrcLease, LrcLevel, LrcMode, LrcRepairPlan, code_number};
use lrc_walks::{down_of, mode_of};
use std::alloc::Global;

/// Writes what is found in the book of an open handle, if something is.
pub(super) fn look<T: Copy, F: FnOnce(&Book) -> Option<T>>(
    alloc: Global,
    handle: &mut LrcHandle,
    to: &mut T,
    find: F,
) -> u32
    requires callable { F.IsAlwaysCallable find }
    ensures { IsLook ⊥ (FnOnceReturnsAt F.FnOnce find)
        handle.old.owned.book handle.new.owned.book result to.old to.new }
{
    let Some(book) = handle.take(alloc) else {
        return IS_CLOSED;
    };
    let found = find(&book);
    handle.put(book);
    match found {
        Some(found) => {
            *to = found;
            DONE
        }
        None => UNKNOWN,
    }
}

/// The home of each of the sixteen fragments; a narrow stripe has none from 10 on.
#[unsafe(no_mangle)]
pub extern "C" fn lrc_embed_homes(
    alloc: Global,
    handle: &mut LrcHandle,
    stripe: u16,
    homes: &mut LrcHomes,
) -> u32
    ensures { IsStripeLook stripe (λ b s. option_map encoded_homes (homes_shown (state_of b) s))
        handle.old.owned.book handle.new.owned.book result homes.old homes.new }
{
    let Some(stripe) = StripeNo::new(stripe) else {
        return OUT_OF_RANGE;
    };
    look(
        alloc,
        handle,
        homes,
        |book| Some(LrcHomes::of(&book.homes(stripe)?)),
    )
}

/// How far a stripe is from loss.
#[unsafe(no_mangle)]
pub extern "C" fn lrc_embed_level(
    alloc: Global,
    handle: &mut LrcHandle,
    stripe: u16,
    level: &mut LrcLevel,
) -> u32
    ensures { IsStripeLook stripe (λ b s. option_map encoded_level (level_shown b.nodes (state_of b) s))
        handle.old.owned.book handle.new.owned.book result level.old level.new }
{
    let Some(stripe) = StripeNo::new(stripe) else {
        return OUT_OF_RANGE;
    };
    look(
        alloc,
        handle,
        level,
        |book| Some(LrcLevel::of(book.level(stripe)?)),
    )
}

/// The missing fragments of a stripe; fragment f is bit f.
#[unsafe(no_mangle)]
pub extern "C" fn lrc_embed_missing(
    alloc: Global,
    handle: &mut LrcHandle,
    stripe: u16,
    missing: &mut u16,
) -> u32
    ensures { IsStripeLook stripe (λ b s. option_map (λ m. m.bits) (missing_shown b.nodes (state_of b) s))
        handle.old.owned.book handle.new.owned.book result missing.old missing.new }
{
    let Some(stripe) = StripeNo::new(stripe) else {
        return OUT_OF_RANGE;
    };
    look(
        alloc,
        handle,
        missing,
        |book| Some(book.missing(stripe)?.bits),
    )
}

/// The code of a stripe: 1 is wide, 2 narrow.
#[unsafe(no_mangle)]
pub extern "C" fn lrc_embed_code(
    alloc: Global,
    handle: &mut LrcHandle,
    stripe: u16,
    code: &mut u8,
) -> u32
    ensures { IsStripeLook stripe (λ b s. option_map encoded_code (code_shown (state_of b) s))
        handle.old.owned.book handle.new.owned.book result code.old code.new }
{
    let Some(stripe) = StripeNo::new(stripe) else {
        return OUT_OF_RANGE;
    };
    look(
        alloc,
        handle,
        code,
        |book| Some(code_number(book.code(stripe)?)),
    )
}

/// The live lease of a fragment of a stripe.
#[unsafe(no_mangle)]
pub extern "C" fn lrc_embed_lease(
    alloc: Global,
    handle: &mut LrcHandle,
    stripe: u16,
    fragment: u8,
    lease: &mut LrcLease,
) -> u32
    ensures { IsFragmentLook stripe fragment (λ b s f. option_map encoded_lease (lease_of (state_of b) s f))
        handle.old.owned.book handle.new.owned.book result lease.old lease.new }
{
    let Some(stripe) = StripeNo::new(stripe) else {
        return OUT_OF_RANGE;
    };
    let Some(fragment) = Fragment::new(fragment) else {
        return OUT_OF_RANGE;
    };
    look(
        alloc,
        handle,
        lease,
        |book| Some(LrcLease::of(&book.lease(stripe, fragment)?)),
    )
}

/// How a fragment that needs a lease is rebuilt, whether or not it has one.
#[unsafe(no_mangle)]
pub extern "C" fn lrc_embed_repair(
    alloc: Global,
    handle: &mut LrcHandle,
    stripe: u16,
    fragment: u8,
    plan: &mut LrcRepairPlan,
) -> u32
    ensures { IsFragmentLook stripe fragment (λ b s f. option_map repair_plan (kind_shown b.nodes (state_of b) s f))
        handle.old.owned.book handle.new.owned.book result plan.old plan.new }
{
    let Some(stripe) = StripeNo::new(stripe) else {
        return OUT_OF_RANGE;
    };
    let Some(fragment) = Fragment::new(fragment) else {
        return OUT_OF_RANGE;
    };
    look(
        alloc,
        handle,
        plan,
        |book| Some(LrcRepairPlan::of(&book.kind(stripe, fragment)?)),
    )
}

/// The number of seats on a node.
#[unsafe(no_mangle)]
pub extern "C" fn lrc_embed_load(
    alloc: Global,
    handle: &mut LrcHandle,
    node: u16,
    load: &mut u32,
) -> u32
    ensures { IsLook ⊥ (λ b found. load_shown b.nodes (state_of b) (node_no node) ≡ found)
        handle.old.owned.book handle.new.owned.book result load.old load.new }
{
    look(
        alloc,
        handle,
        load,
        |book| book.load(NodeNo { value: node }),
    )
}

/// The mode of a node, and whether it is online.
#[unsafe(no_mangle)]
pub extern "C" fn lrc_embed_mode(
    alloc: Global,
    handle: &mut LrcHandle,
    node: u16,
    mode: &mut LrcMode,
) -> u32
    ensures { IsLook ⊥ (λ b found. option_map encoded_mode (mode_shown b.nodes (state_of b) (node_no node)) ≡ found)
        handle.old.owned.book handle.new.owned.book result mode.old mode.new }
{
    look(
        alloc,
        handle,
        mode,
        |book| mode_of(book, NodeNo { value: node }),
    )
}

/// Whether a node is down: 1 if it is, else 0.
#[unsafe(no_mangle)]
pub extern "C" fn lrc_embed_is_down(
    alloc: Global,
    handle: &mut LrcHandle,
    node: u16,
    is_down: &mut u8,
) -> u32
    ensures { IsLook ⊥ (λ b found. option_map flag (down_shown b.nodes (state_of b) (node_no node)) ≡ found)
        handle.old.owned.book handle.new.owned.book result is_down.old is_down.new }
{
    look(
        alloc,
        handle,
        is_down,
        |book| down_of(book, NodeNo { value: node }),
    )
}

/// The upgrade domain that is upgrading, if one is.
#[unsafe(no_mangle)]
pub extern "C" fn lrc_embed_upgrading(alloc: Global, handle: &mut LrcHandle, domain: &mut u8) -> u32
    ensures { IsLook ⊥ (λ b found. option_map (λ u. u.value) (state_of b).upgrading ≡ found)
        handle.old.owned.book handle.new.owned.book result domain.old domain.new }
{
    look(alloc, handle, domain, |book| Some(book.upgrading()?.value))
}

/// The number of ticks. A live lease ends when the clock reaches its expiry.
#[unsafe(no_mangle)]
pub extern "C" fn lrc_embed_clock(alloc: Global, handle: &mut LrcHandle, clock: &mut u32) -> u32
    ensures { IsReading (λ b. (state_of b).clock)
        handle.old.owned.book handle.new.owned.book result clock.old clock.new }
{
    let Some(book) = handle.take(alloc) else {
        return IS_CLOSED;
    };
    *clock = book.clock();
    handle.put(book);
    DONE
}
