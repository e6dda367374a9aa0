//! What NSEC records say of a name.

use dsec_name::Name;

/// Whether NSEC records deny that a type stands at a name.
#[derive(Clone, Copy, Debug, PartialEq, Eq)]
pub enum NsecState {
    /// They deny it.
    NoData,
    /// They don't show it.
    Nothing,
}

/// Whether NSEC records deny that a name exists.
#[derive(Drop)]
pub enum NsecNXState {
    /// They show that the name exists, or aren't the records that can say so.
    Exists,
    /// They deny it; this is the closest encloser.
    DoesNotExist(Name),
    /// They don't show it.
    Nothing,
}
