//! What the scheduler tells a kernel thread.

/// A command to a kernel thread (Doranjei's form: Caladan's scheduler interrupts a core instead).
#[derive(Clone, Copy, Debug, PartialEq, Eq)]
pub enum Command {
    /// Run on this core.
    Run(u8),
    /// Leave the core.
    Park,
}
