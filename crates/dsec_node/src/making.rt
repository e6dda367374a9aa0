//! Nodes of given parts, which have to hold for as long as they are kept.

ghost use Rattle.std.specs.Prelude.{◌≡◌, IfOk};
ghost use Rattle.dsec_spec.specs.Names.{place};
ghost use Rattle.dsec_nodes.specs.Nodes.{Kept};
ghost use Rattle.dsec_nodes.specs.Nodes as nodes;
ghost use Rattle.dsec_node.specs.Views.{bounds_view, standing_view};

use crate::bounds::Bounds;
use crate::copies::{copy_of, links_copy, standing_copy};
use crate::node::Node;
use crate::standing::Standing;
use dsec_crypto::Verifier;
use dsec_link::{Link, Links};
use dsec_name::{Name, NoMemory};
use dsec_wire::Record;

impl<V: Verifier> Node<V> {
    /// The node of a delegation: what is known at the apex of a zone, or of what would be one. It stands at the signer's name.
    pub fn new_delegation(
        signer_name: Name,
        standing: Standing,
        anchor: Option<Record>,
        links: Links,
        made: u64,
        valid_for: u64,
        bounds: Bounds,
    ) -> Result<Node<V>, NoMemory>
        requires { Kept V.accepts (record { name = place signer_name; made = made; valid_for = valid_for; anchor = anchor; signer = place signer_name; links = links; standing = standing_view standing; bounds = bounds_view bounds }) }
        ensures { IfOk result (λ node. node ≡ record { name = place signer_name; made = made; valid_for = valid_for; anchor = anchor; signer = place signer_name; links = links; standing = standing_view standing; bounds = bounds_view bounds }) }
    {
        let name = copy_of(&signer_name)?;
        Ok(Node::new(
            name,
            made,
            valid_for,
            anchor,
            signer_name,
            links,
            standing,
            bounds,
        ))
    }

    /// The node of a name that is within a zone, whose name is `signer_name` and to whose keys the links lead, and at which no zone
    /// begins, as the set of `last` shows.
    pub fn new_intermediate(
        name: Name,
        signer_name: Name,
        anchor: Option<Record>,
        links: Links,
        last: Link,
        made: u64,
        valid_for: u64,
        bounds: Bounds,
    ) -> Node<V>
        requires { Kept V.accepts (record { name = place name; made = made; valid_for = valid_for; anchor = anchor; signer = place signer_name; links = links; standing = nodes.within last; bounds = bounds_view bounds }) }
        ensures { result ≡ record { name = place name; made = made; valid_for = valid_for; anchor = anchor; signer = place signer_name; links = links; standing = nodes.within last; bounds = bounds_view bounds } }
    {
        Node::new(
            name,
            made,
            valid_for,
            anchor,
            signer_name,
            links,
            Standing::Within(last),
            bounds,
        )
    }

    /// A copy of the node.
    pub fn clone(&self) -> Result<Node<V>, NoMemory>
        ensures { IfOk result (λ copy. copy ≡ self.now) }
    {
        let name = copy_of(self.name())?;
        let anchor = self.copied_anchor()?;
        let signer = copy_of(self.signer_name())?;
        let links = links_copy(self.chain())?;
        let standing = standing_copy(self.standing())?;
        Ok(Node::new(
            name,
            self.made(),
            self.valid_for(),
            anchor,
            signer,
            links,
            standing,
            self.bounds(),
        ))
    }
}
