//! A resolver's mailbox, as the voter sees it.
ghost use Rattle.std.specs.Prelude.{◌≡◌, IfOk, OnErr};
ghost use Rattle.simplex_messages.specs.declared.resolver.MailboxMessage.TheVariants as messages;

use super::MailboxMessage;
use simplex_mailbox::Post;
use simplex_types::{Certificate, Feedback, Kind, Notarization, Participant, View};
use std::alloc::AllocError;
use std::marker::Model;

/// Where messages to a resolver are put. Contracts see the post alone.
#[derive(Drop)]
pub struct Mailbox<P> {
    post: P,
}

impl<P> Model for Mailbox<P> {
    ghost Value = { P };

    ghost view = { λ mailbox. mailbox.post };
}

impl<P: Post<MailboxMessage>> Mailbox<P> {
    /// Puts messages into this post.
    pub fn new(post: P) -> Mailbox<P>
        ensures { result ≡ post }
    {
        Mailbox { post }
    }

    /// The post.
    pub fn into_post(self) -> P
        ensures { result ≡ self }
    {
        let Mailbox { post } = self;
        post
    }

    /// The voter knows a certificate.
    pub fn updated(&mut self, certificate: Certificate) -> Result<Feedback, AllocError>
        ensures put { IfOk result
            (λ feedback. P.puts self.old (messages.Updated certificate) feedback self.new) }
        ensures err { OnErr result (self.new ≡ self.old) }
    {
        self.post.enqueue(MailboxMessage::Updated { certificate })
    }

    /// The application judged a notarization.
    pub fn certified(
        &mut self,
        notarization: Notarization,
        success: bool,
    ) -> Result<Feedback, AllocError>
        ensures put { IfOk result (λ feedback. P.puts self.old
            (messages.Certified notarization success) feedback self.new) }
        ensures err { OnErr result (self.new ≡ self.old) }
    {
        self.post.enqueue(MailboxMessage::Certified {
            notarization,
            success,
        })
    }

    /// For the proposal of a view, a certificate of this kind of another view is missing. Where there is a target,
    /// only this member is to be asked.
    pub fn resolve(
        &mut self,
        proposal: View,
        view: View,
        kind: Kind,
        target: Option<Participant>,
    ) -> Result<Feedback, AllocError>
        ensures put { IfOk result (λ feedback. P.puts self.old
            (messages.Resolve proposal view kind target) feedback self.new) }
        ensures err { OnErr result (self.new ≡ self.old) }
    {
        self.post.enqueue(MailboxMessage::Resolve {
            proposal,
            view,
            kind,
            target,
        })
    }

    /// The voter's journal was read.
    pub fn replayed(&mut self) -> Result<Feedback, AllocError>
        ensures put { IfOk result
            (λ feedback. P.puts self.old messages.Replayed feedback self.new) }
        ensures err { OnErr result (self.new ≡ self.old) }
    {
        self.post.enqueue(MailboxMessage::Replayed)
    }
}
