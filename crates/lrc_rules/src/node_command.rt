/// What a command on a node does, whichever node it is. The variants are those of `Command` that name a node.
#[derive(Clone, Copy, Debug, PartialEq, Eq)]
pub enum NodeCommand {
    Fail,
    Down,
    Up,
    Drain,
    Undrain,
    Retire,
    Join,
}
