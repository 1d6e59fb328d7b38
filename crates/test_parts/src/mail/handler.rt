//! Messages of a resolver's fetcher to it.
use crate::mail::spelled::Spelled;
use simplex_mailbox::Post;
use simplex_messages::resolver;
use simplex_messages::resolver::HandlerMessage;
use simplex_types::{Feedback, Sequence, View};
use std::alloc::{AllocError, Global};
use test_support::number;

impl Spelled for HandlerMessage {
    fn of(alloc: Global, words: &[&str]) -> Option<HandlerMessage> {
        let [kind, id] = words else {
            return None;
        };
        let id = number(id)?;
        match *kind {
            "answer" => Some(HandlerMessage::Deliver {
                id,
                view: View(id),
                bytes: Sequence::new(alloc),
                asks: Sequence::new(alloc),
                waiting: true,
            }),
            "request" => Some(HandlerMessage::Produce { id, view: View(id) }),
            _ => None,
        }
    }

    fn text(&self, alloc: Global) -> Result<String, AllocError> {
        match self {
            HandlerMessage::Deliver { id, .. } => format!(in alloc; "answer {id}"),
            HandlerMessage::Produce { id, .. } => format!(in alloc; "request {id}"),
        }
    }

    fn put_into<P: Post<HandlerMessage> + Drop>(
        self,
        post: P,
    ) -> Result<(P, Feedback), AllocError> {
        let mut post = resolver::Handler::new(post);
        let feedback = match self {
            HandlerMessage::Deliver {
                id,
                view,
                bytes,
                asks,
                ..
            } => post.deliver(id, view, bytes, asks)?,
            HandlerMessage::Produce { id, view } => post.produce(id, view)?,
        };
        Ok((post.into_post(), feedback))
    }
}
