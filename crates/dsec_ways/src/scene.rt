//! What messages are judged by: anchors, an upstream and moments.

use dsec_anchors::TrustAnchors;
use dsec_context::Error;
use dsec_message::Message;
use dsec_outside::TableUpstream;
use dsec_script::{Item, Items, ScriptError, read_script};
use std::alloc::Global;

/// What a script says: anchors and messages, and an upstream that has its replies.
#[derive(Drop)]
pub struct Scene {
    pub(crate) messages: Messages,
    pub(crate) upstream: TableUpstream,
}

impl Scene {
    /// The scene of a script, or why that is refused.
    pub fn read(alloc: Global, text: &[u8]) -> Result<Scene, ScriptError> {
        let script = read_script(alloc, text)?;
        Ok(Scene {
            messages: Messages {
                anchors: TrustAnchors::from_vec(script.anchors.into_vec()),
                items: script.items,
            },
            upstream: TableUpstream::new(script.replies),
        })
    }
}

/// Messages, and the anchors from which they are judged.
#[derive(Drop)]
pub(crate) struct Messages {
    pub(crate) anchors: TrustAnchors,
    items: Items,
}

impl Messages {
    /// How many there are.
    pub(crate) fn len(&self) -> usize {
        self.items.len()
    }

    /// The message with this index, with the moment at which it is judged, if there is one.
    pub(crate) fn item(&self, index: usize) -> Option<&Item> {
        self.items.as_slice().get(index)
    }
}

/// The message of an item.
pub(crate) fn message_of(alloc: Global, item: &Item) -> Result<Message, Error> {
    Ok(Message::from_octets(item.octets.as_slice().to_vec(alloc)?)?)
}
