//! Copies, which a clause sees as what they are copies of.

ghost use Rattle.std.specs.Prelude.{◌≡◌, IfOk};

use crate::standing::Standing;
use dsec_link::{Link, Links};
use dsec_name::{Name, NoMemory, Octets};
use dsec_wire::Record;

/// A copy of a name.
pub(crate) fn copy_of(name: &Name) -> Result<Name, NoMemory>
    ensures { IfOk result (λ copy. copy ≡ name.now) }
{
    Ok(name.clone()?)
}

/// A copy of links.
pub(crate) fn links_copy(links: &Links) -> Result<Links, NoMemory>
    ensures { IfOk result (λ copy. copy ≡ links.now) }
{
    Ok(links.clone()?)
}

/// A copy of a link.
pub(crate) fn link_copy(link: &Link) -> Result<Link, NoMemory>
    ensures { IfOk result (λ copy. copy ≡ link.now) }
{
    Ok(link.clone()?)
}

/// A copy of octets.
pub(crate) fn octets_copy(octets: &Octets) -> Result<Octets, NoMemory>
    ensures { IfOk result (λ copy. copy ≡ octets.now) }
{
    Ok(octets.clone()?)
}

/// A copy of a record.
pub(crate) fn record_copy(one: &Record) -> Result<Record, NoMemory>
    ensures { IfOk result (λ copy. copy ≡ one.now) }
{
    Ok(one.clone()?)
}

/// A copy of what is known of a name.
pub(crate) fn standing_copy(standing: &Standing) -> Result<Standing, NoMemory>
    ensures { IfOk result (λ copy. copy ≡ standing.now) }
{
    Ok(standing.clone()?)
}
