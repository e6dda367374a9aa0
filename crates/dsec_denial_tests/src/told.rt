//! What the calls on NSEC3 records answer, as one type, and whether it is what is wanted.

ghost use Rattle.std.specs.Prelude.{◌≡◌, ◌<◌};

use dsec_cause::Cause;
use dsec_crypto::StandIn;
use dsec_found::JudgedGroup;
use dsec_group::{Limits, NoMemo, Steps, ValidationState};
use dsec_lines::name;
use dsec_name::{Name, NoMemory};
use dsec_negative::Used;
use dsec_nsec3_calls::{
    Nsec3NXState, Nsec3NXStateNoCE, Nsec3State, check_not_exists_for_wildcard, nsec3_for_nodata,
    nsec3_for_nodata_wildcard, nsec3_for_not_exists, nsec3_for_not_exists_no_ce,
    nsec3_for_nxdomain,
};
use dsec_number::{Class, Rtype};
use std::alloc::Global;
use std::marker::Brand;
use std::sync::ledger::{Blank, Ledger};

/// What is asked of the records.
#[derive(Clone, Copy)]
pub(crate) enum Asked {
    /// Whether they deny that the type stands at the name.
    Type(Rtype),
    /// Whether they deny that it stands at the wildcard under the name's closest encloser.
    TypeOfWildcard(Rtype),
    /// Whether they deny that the name exists.
    Name,
    /// Whether they deny that the name and the wildcard exist.
    NameAndWildcard,
    /// Whether they deny that the name exists, its closest encloser known.
    NextCloser,
    /// Whether the wildcard under this name may stand for the name.
    ByWildcard(&'static str),
}

/// What a call answers in its first place.
#[derive(Clone, Copy, PartialEq, Eq)]
pub(crate) enum Answer {
    /// It is denied.
    Denied,
    /// It is left open.
    Open,
    /// The records can't be trusted.
    Bogus,
    /// It isn't shown.
    Nothing,
}

/// What a call answers: also the closest encloser, the cause, and the indexes of the groups.
#[derive(Drop)]
pub(crate) struct Told {
    answer: Answer,
    encloser: Option<Name>,
    cause: Option<Cause>,
    used: Used,
}

/// What is wanted of a call.
#[derive(Clone, Copy)]
pub(crate) enum Want {
    /// It is denied by the groups of these indexes.
    Denied(&'static [usize]),
    /// It is denied under this closest encloser, by the groups of these indexes.
    DeniedUnder(&'static str, &'static [usize]),
    /// It is left open, with this cause.
    Open(Option<Cause>),
    /// It is left open under this closest encloser, with this cause.
    OpenUnder(&'static str, Cause),
    /// The records can't be trusted, with this cause.
    Bogus(Cause),
    /// It isn't shown, with this cause.
    Nothing(Option<Cause>),
}

fn by_type((state, cause, used): (Nsec3State, Option<Cause>, Used)) -> Told {
    let answer = match state {
        Nsec3State::NoData => Answer::Denied,
        Nsec3State::NoDataInsecure => Answer::Open,
        Nsec3State::Bogus => Answer::Bogus,
        Nsec3State::Nothing => Answer::Nothing,
    };
    Told {
        answer,
        encloser: None,
        cause,
        used,
    }
}

fn by_name((state, cause, used): (Nsec3NXState, Option<Cause>, Used)) -> Told {
    let (answer, encloser) = match state {
        Nsec3NXState::DoesNotExist(name) => (Answer::Denied, Some(name)),
        Nsec3NXState::DoesNotExistInsecure(name) => (Answer::Open, Some(name)),
        Nsec3NXState::Insecure => (Answer::Open, None),
        Nsec3NXState::Bogus => (Answer::Bogus, None),
        Nsec3NXState::Nothing => (Answer::Nothing, None),
    };
    Told {
        answer,
        encloser,
        cause,
        used,
    }
}

fn by_next((state, cause, used): (Nsec3NXStateNoCE, Option<Cause>, Used)) -> Told {
    let answer = match state {
        Nsec3NXStateNoCE::DoesNotExist => Answer::Denied,
        Nsec3NXStateNoCE::DoesNotExistInsecure => Answer::Open,
        Nsec3NXStateNoCE::Bogus => Answer::Bogus,
        Nsec3NXStateNoCE::Nothing => Answer::Nothing,
    };
    Told {
        answer,
        encloser: None,
        cause,
        used,
    }
}

fn by_wildcard((denied, state, cause, used): (bool, ValidationState, Option<Cause>, Used)) -> Told {
    let answer = match (denied, state) {
        (true, ValidationState::Secure) => Answer::Denied,
        (true, _) => Answer::Open,
        (false, _) => Answer::Bogus,
    };
    Told {
        answer,
        encloser: None,
        cause,
        used,
    }
}

/// What the wildcard's call answers.
fn wildcard(
    alloc: Global,
    groups: &[JudgedGroup<StandIn>],
    signer: &Name,
    target: &Name,
    encloser: &Name,
) -> Result<Told, NoMemory> {
    let limits = Limits::default();
    let told = check_not_exists_for_wildcard::<StandIn>(
        alloc,
        target,
        groups,
        Class::IN,
        signer,
        encloser,
        &limits,
        &mut NoMemo,
    )?;
    Ok(by_wildcard(told))
}

/// What the call answers that walks down to a name, with steps that nobody counts.
fn walked<L: Ledger>(
    alloc: Global,
    groups: &[JudgedGroup<StandIn>],
    signer: &Name,
    target: &Name,
    blank: Blank,
) -> Result<Told, NoMemory>
    requires name { blank.name ≡ L.name }
    requires parts { blank.parts ≡ L.parts }
    requires some { 0 < L.parts }
{
    let mut steps: Steps<L> = Steps::begin(blank);
    let told = nsec3_for_not_exists::<StandIn, L>(
        alloc,
        target,
        groups,
        Class::IN,
        signer,
        &Limits::default(),
        &mut NoMemo,
        &mut steps,
    )?;
    Ok(by_name(told))
}

/// What a call answers on a name, by records that the signer has signed.
pub(crate) fn answered(
    alloc: Global,
    groups: &[JudgedGroup<StandIn>],
    signer: &Name,
    target: &Name,
    asked: &Asked,
) -> Result<Told, NoMemory> {
    let class = Class::IN;
    let limits = Limits::default();
    let memo = &mut NoMemo;
    let told = match asked {
        Asked::Type(rtype) => by_type(nsec3_for_nodata::<StandIn>(
            target, groups, *rtype, class, signer, &limits, memo,
        )),
        Asked::TypeOfWildcard(rtype) => by_type(nsec3_for_nodata_wildcard::<StandIn>(
            alloc, target, groups, *rtype, class, signer, &limits, memo,
        )?),
        Asked::Name => walked::<Brand>(alloc, groups, signer, target, Blank::new(1))?,
        Asked::NameAndWildcard => by_name(nsec3_for_nxdomain::<StandIn>(
            alloc, target, groups, class, signer, &limits, memo,
        )?),
        Asked::NextCloser => by_next(nsec3_for_not_exists_no_ce::<StandIn>(
            target, groups, class, signer, &limits, memo,
        )),
        Asked::ByWildcard(encloser) => match name(alloc, encloser) {
            Some(encloser) => wildcard(alloc, groups, signer, target, &encloser)?,
            None => return Err(NoMemory),
        },
    };
    Ok(told)
}

impl Told {
    /// Whether this is wanted.
    pub(crate) fn is(&self, alloc: Global, want: &Want) -> bool {
        match want {
            Want::Denied(used) => self.says(Answer::Denied, None) && self.is_by(used),
            Want::DeniedUnder(encloser, used) => {
                self.says(Answer::Denied, None)
                    && self.is_by(used)
                    && self.is_under(alloc, encloser)
            }
            Want::Open(cause) => self.says(Answer::Open, *cause),
            Want::OpenUnder(encloser, cause) => {
                self.says(Answer::Open, Some(*cause)) && self.is_under(alloc, encloser)
            }
            Want::Bogus(cause) => self.says(Answer::Bogus, Some(*cause)),
            Want::Nothing(cause) => self.says(Answer::Nothing, *cause),
        }
    }

    fn says(&self, answer: Answer, cause: Option<Cause>) -> bool {
        self.answer == answer && self.cause == cause
    }

    fn is_by(&self, used: &[usize]) -> bool {
        self.used.as_slice() == used
    }

    /// Whether this is the closest encloser.
    fn is_under(&self, alloc: Global, want: &str) -> bool {
        match (&self.encloser, name(alloc, want)) {
            (Some(encloser), Some(want)) => *encloser == want,
            _ => false,
        }
    }
}
