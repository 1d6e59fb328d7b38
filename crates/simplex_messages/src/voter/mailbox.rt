//! A voter's mailbox, as those see it who write to the voter.
ghost use Rattle.std.specs.Prelude.{◌≡◌, IfOk, OnErr};
ghost use Rattle.simplex_messages.specs.declared.voter.Message.TheVariants as messages;

use super::Message;
use simplex_mailbox::Post;
use simplex_types::{Certificate, Feedback, Proposal, Round, TimeoutReason};
use std::alloc::AllocError;
use std::marker::Model;

/// Where messages to a voter are put. Contracts see the post alone.
#[derive(Drop)]
pub struct Mailbox<P> {
    post: P,
}

impl<P> Model for Mailbox<P> {
    ghost Value = { P };

    ghost view = { λ mailbox. mailbox.post };
}

impl<P: Post<Message>> Mailbox<P> {
    /// Puts messages into this post.
    pub fn new(post: P) -> Mailbox<P>
        ensures { result ≡ post }
    {
        Mailbox { post }
    }

    /// The post.
    pub fn into_post(self) -> P
        ensures { result ≡ self }
    {
        let Mailbox { post } = self;
        post
    }

    /// The leader proposed.
    pub fn proposal(&mut self, proposal: Proposal) -> Result<Feedback, AllocError>
        ensures put { IfOk result
            (λ feedback. P.puts self.old (messages.Proposal proposal) feedback self.new) }
        ensures err { OnErr result (self.new ≡ self.old) }
    {
        self.post.enqueue(Message::Proposal { proposal })
    }

    /// A view is to be given up.
    pub fn timeout(&mut self, round: Round, reason: TimeoutReason) -> Result<Feedback, AllocError>
        ensures put { IfOk result
            (λ feedback. P.puts self.old (messages.Timeout round reason) feedback self.new) }
        ensures err { OnErr result (self.new ≡ self.old) }
    {
        self.post.enqueue(Message::Timeout { round, reason })
    }

    /// A certificate that verifies was recovered.
    pub fn recovered(&mut self, certificate: Certificate) -> Result<Feedback, AllocError>
        ensures put { IfOk result
            (λ feedback. P.puts self.old (messages.Verified certificate) feedback self.new) }
        ensures err { OnErr result (self.new ≡ self.old) }
    {
        self.post.enqueue(Message::Verified { certificate })
    }
}
