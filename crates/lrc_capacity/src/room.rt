//! What the choice of a seat reads of a node, and of the fragments that have one.

use lrc_code::Fragment;
use lrc_topology::NodeInfo;

/// What the choice of a seat reads of a node.
#[derive(Clone, Copy)]
pub struct NodeRoom {
    pub node: NodeInfo,
    /// The node is neither gone nor draining.
    pub is_active: bool,
    pub is_online: bool,
    /// The number of held seats on the node.
    pub load: u32,
}

/// A fragment of a stripe, and the node that was chosen for it.
#[derive(Clone, Copy)]
pub(crate) struct Placed {
    pub(crate) fragment: Fragment,
    pub(crate) node: NodeInfo,
}
