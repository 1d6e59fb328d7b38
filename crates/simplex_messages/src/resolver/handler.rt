//! The mailbox of a resolver's handler, as its fetcher sees it.
ghost use Rattle.std.specs.Prelude.{◌≡◌, IfOk, OnErr, true};
ghost use Rattle.simplex_messages.specs.declared.resolver.HandlerMessage.TheVariants as messages;

use super::HandlerMessage;
use simplex_mailbox::Post;
use simplex_types::{Ask, Bytes, Feedback, Sequence, View};
use std::alloc::AllocError;
use std::marker::Model;

/// Where messages of a fetcher to its resolver are put. Contracts see the post alone.
#[derive(Drop)]
pub struct Handler<P> {
    post: P,
}

impl<P> Model for Handler<P> {
    ghost Value = { P };

    ghost view = { λ handler. handler.post };
}

impl<P: Post<HandlerMessage>> Handler<P> {
    /// Puts messages into this post.
    pub fn new(post: P) -> Handler<P>
        ensures { result ≡ post }
    {
        Handler { post }
    }

    /// The post.
    pub fn into_post(self) -> P
        ensures { result ≡ self }
    {
        let Handler { post } = self;
        post
    }

    /// A response for the view came, which may settle these asks. Its requester still waits.
    pub fn deliver(
        &mut self,
        id: u64,
        view: View,
        bytes: Bytes,
        asks: Sequence<Ask>,
    ) -> Result<Feedback, AllocError>
        ensures put { IfOk result (λ feedback. P.puts self.old
            (messages.Deliver id view bytes asks true) feedback self.new) }
        ensures err { OnErr result (self.new ≡ self.old) }
    {
        self.post.enqueue(HandlerMessage::Deliver {
            id,
            view,
            bytes,
            asks,
            waiting: true,
        })
    }

    /// A peer asks for the view.
    pub fn produce(&mut self, id: u64, view: View) -> Result<Feedback, AllocError>
        ensures put { IfOk result
            (λ feedback. P.puts self.old (messages.Produce id view) feedback self.new) }
        ensures err { OnErr result (self.new ≡ self.old) }
    {
        self.post.enqueue(HandlerMessage::Produce { id, view })
    }
}
