//! A batcher's mailbox, as the voter sees it.
ghost use Rattle.std.specs.Prelude.{◌≡◌, IfOk, OnErr};
ghost use Rattle.simplex_messages.specs.declared.batcher.Message.TheVariants as messages;

use super::Message;
use simplex_mailbox::Post;
use simplex_types::{Feedback, Participant, Proposal, View, Vote};
use std::alloc::AllocError;
use std::marker::Model;

/// Where messages to a batcher are put. Contracts see the post alone.
#[derive(Drop)]
pub struct Mailbox<P> {
    post: P,
}

impl<P> Model for Mailbox<P> {
    ghost Value = { P };

    ghost view = { λ mailbox. mailbox.post };
}

impl<P: Post<Message>> Mailbox<P> {
    /// Puts messages into this post.
    pub fn new(post: P) -> Mailbox<P>
        ensures { result ≡ post }
    {
        Mailbox { post }
    }

    /// The post.
    pub fn into_post(self) -> P
        ensures { result ≡ self }
    {
        let Mailbox { post } = self;
        post
    }

    /// The voter is in a view now.
    pub fn update(
        &mut self,
        current: View,
        leader: Participant,
        finalized: View,
        forwardable_proposal: Option<Proposal>,
    ) -> Result<Feedback, AllocError>
        ensures put { IfOk result (λ feedback. P.puts self.old
            (messages.Update current leader finalized forwardable_proposal) feedback self.new) }
        ensures err { OnErr result (self.new ≡ self.old) }
    {
        self.post.enqueue(Message::Update {
            current,
            leader,
            finalized,
            forwardable_proposal,
        })
    }

    /// The voter made a vote.
    pub fn constructed(&mut self, vote: Vote) -> Result<Feedback, AllocError>
        ensures put { IfOk result
            (λ feedback. P.puts self.old (messages.Constructed vote) feedback self.new) }
        ensures err { OnErr result (self.new ≡ self.old) }
    {
        self.post.enqueue(Message::Constructed(vote))
    }
}
