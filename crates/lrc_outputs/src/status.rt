/// How a call of the program ended. The numbers are the program's exit statuses.
#[derive(Clone, Copy, Debug, PartialEq, Eq)]
pub enum Status {
    /// The commands were run, the bundle was checked, or what was asked for was told. An outage is safe.
    Done = 0,
    /// A line of a script is bad.
    BadLine = 1,
    /// The bundle, its topology or the mask is refused.
    Refused = 2,
    /// An outage is not safe: its forecast was told, and a stripe becomes unavailable or lost. Or the table of health was told, and
    /// a stripe is unavailable, lost, or at margin 0.
    Unsafe = 4,
}
