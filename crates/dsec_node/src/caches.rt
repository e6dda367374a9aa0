//! Caches of nodes (RFC 4035 4.5).

ghost use Rattle.std.specs.Prelude.{◌≡◌, [], List, ℕ, map, Option, Some, IfOk, IfSome, OnOk, OnErr};
ghost use Rattle.std.specs.Arc.{arc_value};
ghost use Rattle.std.specs.Option.{option_map};
ghost use Rattle.dsec_spec.specs.Names.{Place, place};
ghost use Rattle.dsec_spec.specs.Outside.{risen};
ghost use Rattle.dsec_node.specs.Caches.{Adds, Becomes, Held, IsFound, IsHeld, Keeps, Lasting, Wants, held_in, lasting_in, with_node};

use crate::node::Node;
use dsec_crypto::Verifier;
use dsec_name::{Name, NoMemory};
use std::alloc::Global;
use std::collections::BTreeMap;
use std::marker::Model;
use std::sync::Arc;

/// A cache of nodes. Each node that it gives is what its type says, whoever put it; whether it counts for the taker is the
/// taker's to see. A node may be forgotten at any call; caches that forget none can say so.
pub trait Caches<V: Verifier> {
    /// Which nodes are held, where that is told.
    ghost held: { Self → Option Held };

    /// The same, as long as none is forgotten, and how many calls have found no memory: such a call loses nothing.
    ghost lasting: { Self → Option Lasting };

    /// The node that is held for a name, if one is.
    fn get(&mut self, name: &Name) -> Result<Option<Arc<Node<V>>>, NoMemory>
        ensures found { IfOk result (λ found. IfSome found (λ node. IsHeld (held self.old) (place name.now) (arc_value node))) }
        ensures keeps { Keeps (held self.old) (held self.new) }
        ensures given { IfOk result (λ found. IsFound (lasting self.old) (place name.now) (option_map (λ node. arc_value node) found)) }
        ensures lasts { OnOk result (Becomes (lasting self.old) (lasting self.new) (λ held. held)) }
        ensures wanting { OnErr result (Wants (lasting self.old) (lasting self.new)) };

    /// Holds a node for a name, in the place of the one that is held for it, if one is.
    fn put(&mut self, name: Name, node: &Arc<Node<V>>) -> Result<(), NoMemory>
        ensures adds { Adds (held self.old) (held self.new) (place name) (arc_value node.now) }
        ensures stored { OnOk result (Becomes (lasting self.old) (lasting self.new) (λ held. with_node held (place name) (arc_value node.now))) }
        ensures wanting { OnErr result (Wants (lasting self.old) (lasting self.new)) };
}

/// Nodes by name, in a map of one owner, which forgets none.
#[derive(Drop)]
pub struct OwnedCaches<V: Verifier> {
    nodes: BTreeMap<Name, Arc<Node<V>>>,
    wants: u64,
}

impl<V: Verifier> Model for OwnedCaches<V> {
    ghost use Rattle.std.specs.Prelude.{map};
    ghost use Rattle.std.specs.Arc.{arc_value};
    ghost use Rattle.dsec_node.specs.Caches.{Owned};

    ghost Value = { Owned };

    ghost view = { λ it. record { nodes = map (λ e. (e.0, arc_value e.1)) it.nodes.entries; wants = it.wants } };
}

impl<V: Verifier> OwnedCaches<V> {
    /// Caches that hold nothing.
    pub fn new(alloc: Global) -> Self
        ensures { result ≡ record { nodes = []; wants = 0 } }
    {
        OwnedCaches {
            nodes: BTreeMap::new(alloc),
            wants: 0,
        }
    }

    /// How many of the calls of `get` and `put` have found no memory since the caches were made, or cleared; it stays at the greatest number. Such a call
    /// puts nothing, and gives nothing.
    pub fn wants(&self) -> u64
        ensures { result ≡ self.now.wants }
    {
        self.wants
    }

    /// Counts a call that finds no memory.
    fn count_want(&mut self)
        ensures { self.new ≡ record { nodes = self.old.nodes; wants = risen self.old.wants } }
    {
        self.wants = self.wants.saturating_add(1);
    }

    /// The node that is held for a name, if one is.
    fn look_up(&self, name: &Name) -> Result<Option<Arc<Node<V>>>, NoMemory>
        ensures { IfOk result (λ found. option_map (λ node. arc_value node) found ≡ held_in self.now.nodes (place name.now)) }
    {
        match self.nodes.get(name) {
            None => Ok(None),
            Some(node) => Ok(Some(Arc::try_clone(node)?)),
        }
    }

    /// Holds a node for a name.
    fn store(&mut self, name: Name, node: Arc<Node<V>>) -> Result<(), NoMemory>
        ensures ok { OnOk result ((p : Place) → held_in self.new.nodes p ≡ with_node (held_in self.old.nodes) (place name) (arc_value node) p) }
        ensures err { OnErr result (self.new ≡ self.old) }
        ensures wants { self.new.wants ≡ self.old.wants }
    {
        self.nodes.insert(name, node)?;
        Ok(())
    }

    /// Holds a copy of a node for a name.
    fn hold(&mut self, name: Name, node: &Arc<Node<V>>) -> Result<(), NoMemory>
        ensures ok { OnOk result ((p : Place) → held_in self.new.nodes p ≡ with_node (held_in self.old.nodes) (place name) (arc_value node.now) p) }
        ensures err { OnErr result (self.new ≡ self.old) }
        ensures wants { self.new.wants ≡ self.old.wants }
    {
        let copy = Arc::try_clone(node)?;
        self.store(name, copy)
    }

    /// Forgets all nodes.
    pub fn clear(&mut self)
        ensures { self.new ≡ record { nodes = []; wants = 0 } }
    {
        self.nodes.clear();
        self.wants = 0;
    }
}

impl<V: Verifier> Caches<V> for OwnedCaches<V> {
    ghost held = { λ caches. Some (held_in caches.nodes) };

    ghost lasting = { λ caches. lasting_in caches.nodes caches.wants };

    fn get(&mut self, name: &Name) -> Result<Option<Arc<Node<V>>>, NoMemory>
        ensures exact { IfOk result (λ found. option_map (λ node. arc_value node) found ≡ held_in self.old.nodes (place name.now)) }
        ensures unchanged { OnOk result (self.new ≡ self.old) }
        ensures err { OnErr result (self.new ≡ record { nodes = self.old.nodes; wants = risen self.old.wants }) }
        ensures found { IfOk result (λ found. IfSome found (λ node. IsHeld (Some (held_in self.old.nodes)) (place name.now) (arc_value node))) }
        ensures keeps { Keeps (Some (held_in self.old.nodes)) (Some (held_in self.new.nodes)) }
        ensures given { IfOk result (λ found. IsFound (lasting_in self.old.nodes self.old.wants) (place name.now) (option_map (λ node. arc_value node) found)) }
        ensures lasts { OnOk result (Becomes (lasting_in self.old.nodes self.old.wants) (lasting_in self.new.nodes self.new.wants) (λ held. held)) }
        ensures wanting { OnErr result (Wants (lasting_in self.old.nodes self.old.wants) (lasting_in self.new.nodes self.new.wants)) }
    {
        match self.look_up(name) {
            Ok(found) => Ok(found),
            Err(NoMemory) => {
                self.count_want();
                Err(NoMemory)
            }
        }
    }

    fn put(&mut self, name: Name, node: &Arc<Node<V>>) -> Result<(), NoMemory>
        ensures ok { OnOk result ((p : Place) → held_in self.new.nodes p ≡ with_node (held_in self.old.nodes) (place name) (arc_value node.now) p) }
        ensures kept { OnOk result (self.new.wants ≡ self.old.wants) }
        ensures err { OnErr result (self.new ≡ record { nodes = self.old.nodes; wants = risen self.old.wants }) }
        ensures adds { Adds (Some (held_in self.old.nodes)) (Some (held_in self.new.nodes)) (place name) (arc_value node.now) }
        ensures stored { OnOk result (Becomes (lasting_in self.old.nodes self.old.wants) (lasting_in self.new.nodes self.new.wants) (λ held. with_node held (place name) (arc_value node.now))) }
        ensures wanting { OnErr result (Wants (lasting_in self.old.nodes self.old.wants) (lasting_in self.new.nodes self.new.wants)) }
    {
        match self.hold(name, node) {
            Ok(()) => Ok(()),
            Err(NoMemory) => {
                self.count_want();
                Err(NoMemory)
            }
        }
    }
}
