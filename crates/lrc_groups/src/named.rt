ghost use Rattle.std.specs.Prelude.{◌≡◌, ◌++◌, string_bytes, OnOk};
ghost use Rattle.lrc_groups.specs.Groups.{named_line, lacking_line, lacking_words};

use lrc_code::{FaultNo, NodeNo, UpgradeNo};
use std::alloc::AllocError;

/// A node, or all nodes of a domain.
#[derive(Clone, Copy, Debug, PartialEq, Eq)]
pub enum Named {
    /// The node of this number.
    Node(NodeNo),
    /// All nodes of this fault domain.
    Fault(FaultNo),
    /// All nodes of this upgrade domain.
    Upgrade(UpgradeNo),
}

impl Named {
    /// Adds the line that says that no node has it.
    ///
    /// # Errors
    ///
    /// Only for want of memory; then a beginning of the line may have been added.
    pub fn push_line(self, out: &mut String) -> Result<(), AllocError>
        ensures { OnOk result (string_bytes out.new ≡ string_bytes out.old ++ lacking_line self) }
    {
        match self {
            Named::Node(number) => push_named(out, "node", u64::from(number.value)),
            Named::Fault(domain) => push_named(out, "fault", u64::from(domain.value)),
            Named::Upgrade(domain) => push_named(out, "upgrade", u64::from(domain.value)),
        }
    }

    /// Returns the words that say so.
    pub fn words(self) -> &'static str
        ensures { result.now ≡ lacking_words self }
    {
        match self {
            Named::Node(_) => "there is no such node",
            Named::Fault(_) => "no node is in this fault domain",
            Named::Upgrade(_) => "no node is in this upgrade domain",
        }
    }
}

/// Adds a line with a name and a number.
fn push_named(out: &mut String, name: &str, number: u64) -> Result<(), AllocError>
    ensures { OnOk result (string_bytes out.new ≡ string_bytes out.old ++ named_line name.now number) }
{
    write!(out, "{name} {number}\n")
}
