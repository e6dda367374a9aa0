//! What is told of a message or of a group.

use dsec_cause::Cause;
use dsec_group::ValidationState;

/// What is told of a message, or of its first group.
#[derive(Clone, Copy)]
pub struct Told {
    /// The message's index.
    pub index: usize,
    /// The state.
    pub state: ValidationState,
    /// The cause, where there is one.
    pub cause: Option<Cause>,
    /// How many questions were asked; of what a node says, for how many seconds that may be kept.
    pub number: u64,
}
