//! Why an installation ends before its last command.

use vab_gate::DiskFault;
use vab_model::Refusal;

/// Why commands that are carried out one after another end before all are done.
#[derive(Clone, Copy, Debug, PartialEq, Eq)]
pub enum Stop {
    /// A command was refused, or memory to it. Those before it are done.
    Refused(Refusal),
    /// The disk failed.
    Disk(DiskFault),
}
