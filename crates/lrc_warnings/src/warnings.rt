//! The lines for codes for which the nodes are in too few domains.

ghost use Rattle.std.specs.Prelude.{◌≡◌, ◌++◌, string_bytes, IfOk, OnOk};
ghost use Rattle.lrc_code.specs.Codes.{code_name};
ghost use Rattle.lrc_warnings.specs.Warnings.{needed_domains, are_too_few, shortage_line, warning, warnings};

use crate::domains::{Domains, count_domains};
use lrc_code::{Code, FRAGMENTS, NARROW_FRAGMENTS};
use lrc_topology::Topology;
use std::alloc::{AllocError, Global};

/// Returns a line for each code for which the nodes are in too few fault or upgrade domains, the wide one first: how many
/// different ones they are in, and how many a stripe needs. No stripe of such a code can be placed. A code without a line may
/// lack slots, or nodes that are fit; that depends on the state.
///
/// # Errors
///
/// Only for want of memory.
pub fn warnings_of(alloc: Global, topology: &Topology) -> Result<Vec<u8>, AllocError>
    ensures { IfOk result (λ text. text.items ≡ warnings topology.now) }
{
    let domains = count_domains(alloc, topology)?;
    let mut text = String::new(alloc);
    push_warning(&mut text, Code::Wide, domains)?;
    push_warning(&mut text, Code::Narrow, domains)?;
    Ok(text.into_bytes())
}

/// Adds the line for a code, if these domains are too few for it.
fn push_warning(out: &mut String, code: Code, domains: Domains) -> Result<(), AllocError>
    ensures { OnOk result (string_bytes out.new ≡ string_bytes out.old ++ warning code domains) }
{
    let needed = needed_domains(code);
    if domains.faults >= needed.faults && domains.upgrades >= needed.upgrades {
        return Ok(());
    }
    push_shortage(out, code.name(), domains, needed)
}

/// Adds the line for a code of this name.
fn push_shortage(
    out: &mut String,
    name: &str,
    found: Domains,
    needed: Domains,
) -> Result<(), AllocError>
    ensures { OnOk result (string_bytes out.new ≡ string_bytes out.old ++ shortage_line name.now found needed) }
{
    let Domains { faults, upgrades } = found;
    let fault_need = needed.faults;
    let upgrade_need = needed.upgrades;
    write!(
        out,
        "lrcman: no {name} stripe can be placed: {faults} of {fault_need} fault domains, {upgrades} of {upgrade_need} upgrade domains\n"
    )
}

/// How many domains a stripe of the code needs: a fault domain for each fragment, and an upgrade domain for each fragment
/// of its largest class.
fn needed_domains(code: Code) -> Domains
    ensures { result ≡ needed_domains code }
{
    match code {
        Code::Wide => Domains {
            faults: FRAGMENTS,
            upgrades: 7,
        },
        Code::Narrow => Domains {
            faults: NARROW_FRAGMENTS,
            upgrades: 4,
        },
    }
}
