// Where a reader stands among the lines of a file.
use crate::TabFault;
use crate::line::Version;

/// What has come so far.
#[derive(Clone, Copy, Debug)]
pub enum Stage {
    Start,
    Body(Version),
    Ended,
    Failed(TabFault),
}
