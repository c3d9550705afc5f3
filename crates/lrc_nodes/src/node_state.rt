use lrc_terms::Mode;
use lrc_topology::NodeInfo;

/// A node with its mode, whether it is down, and whether its upgrade domain is upgrading.
#[derive(Clone, Copy)]
pub struct NodeState {
    pub node: NodeInfo,
    pub mode: Mode,
    pub is_down: bool,
    pub is_upgrading: bool,
}
