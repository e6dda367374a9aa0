//! Caches that keep nothing.

ghost use Rattle.std.specs.Prelude.{None};

use dsec_crypto::StandIn;
use dsec_name::{Name, NoMemory};
use dsec_node::{Caches, Node};
use std::sync::Arc;

/// Caches that keep nothing.
#[derive(Clone, Copy)]
pub enum Keepless {
    /// They forget each node at once.
    Forgetting,
    /// They never find memory.
    Refusing,
}

impl Caches<StandIn> for Keepless {
    ghost held = { λ _. None };

    ghost lasting = { λ _. None };

    fn get(&mut self, _name: &Name) -> Result<Option<Arc<Node<StandIn>>>, NoMemory> {
        match self {
            Keepless::Forgetting => Ok(None),
            Keepless::Refusing => Err(NoMemory),
        }
    }

    fn put(&mut self, _name: Name, _node: &Arc<Node<StandIn>>) -> Result<(), NoMemory> {
        match self {
            Keepless::Forgetting => Ok(()),
            Keepless::Refusing => Err(NoMemory),
        }
    }
}
