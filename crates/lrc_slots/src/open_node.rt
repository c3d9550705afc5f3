use lrc_topology::NodeInfo;

/// The node that gets the next seat, and its lowest free slot.
#[derive(Clone, Copy, Debug, PartialEq, Eq)]
pub struct OpenNode {
    pub node: NodeInfo,
    pub slot: u16,
}

/// The node that gets the next seat, by reference into the table, and its lowest free slot.
#[derive(Clone, Copy)]
pub struct OpenRow<'a> {
    pub node: &'a NodeInfo,
    pub slot: u16,
}
