//! What NSEC3 records say of a name.

use dsec_name::Name;

/// Whether NSEC3 records deny that a type stands at a name.
#[derive(Clone, Copy, Debug, PartialEq, Eq)]
pub enum Nsec3State {
    /// They deny it.
    NoData,
    /// They leave it open: by Opt-Out, or with more iterations than are followed.
    NoDataInsecure,
    /// They can't be trusted.
    Bogus,
    /// They don't show it.
    Nothing,
}

/// Whether NSEC3 records deny that a name exists.
#[derive(Drop)]
pub enum Nsec3NXState {
    /// They deny it; this is the closest encloser.
    DoesNotExist(Name),
    /// They leave it open: by Opt-Out, or with more iterations than are followed at the wildcard under this closest encloser.
    DoesNotExistInsecure(Name),
    /// They can't be trusted.
    Bogus,
    /// They leave it open, with more iterations than are followed.
    Insecure,
    /// They don't show it.
    Nothing,
}

/// Whether they deny that a name exists whose closest encloser is known.
#[derive(Clone, Copy, Debug, PartialEq, Eq)]
pub enum Nsec3NXStateNoCE {
    /// They deny it.
    DoesNotExist,
    /// They leave it open: by Opt-Out, or with more iterations than are followed.
    DoesNotExistInsecure,
    /// They don't show it.
    Nothing,
    /// They can't be trusted.
    Bogus,
}
