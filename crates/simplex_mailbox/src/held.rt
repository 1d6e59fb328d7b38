//! Messages that are held back, as until a step is known to be whole.
#![tactic(auto, unfolding(crate::specs::Mail::all_enqueued))]

ghost use Rattle.std.specs.Prelude.{◌≡◌, [], ◌∷◌, ◌++◌, OnOk};
ghost use Rattle.simplex_mailbox.specs.Mail.{all_enqueued};

use crate::mailbox::Mailbox;
use crate::policy::Policy;
use crate::post::Post;
use simplex_values::Feedback;
use std::alloc::{AllocError, Global};
use std::collections::VecDeque;
use std::marker::Model;

/// A post that keeps what is put, in order.
#[derive(Drop)]
pub struct Held<M> {
    messages: VecDeque<M>,
}

impl<M> Model for Held<M> {
    ghost use Rattle.std.specs.Prelude.{List};

    ghost Value = { List M };

    ghost view = { λ held. held.messages.items };
}

impl<M> Held<M> {
    /// Nothing is held.
    pub fn new(alloc: Global) -> Held<M>
        ensures { result ≡ [] }
    {
        Held {
            messages: VecDeque::new(alloc),
        }
    }

    /// The messages, in order.
    pub fn into_messages(self) -> VecDeque<M>
        ensures { result.items ≡ self }
    {
        self.messages
    }
}

impl<M: Drop> Post<M> for Held<M> {
    ghost puts = { λ before message answer after. after ≡ before ++ message ∷ [] };

    fn enqueue(&mut self, message: M) -> Result<Feedback, AllocError> {
        self.messages.push_back(message)?;
        Ok(Feedback::Ok)
    }
}

impl<M: Policy> Held<M> {
    /// Puts all that is held into the mailbox.
    pub fn put_into(self, mailbox: &mut Mailbox<M>) -> Result<(), AllocError>
        ensures { OnOk result (mailbox.new ≡ all_enqueued M.handle mailbox.old self) }
    {
        put_each(self.into_messages(), mailbox)
    }
}

/// Puts each message into the mailbox, in order.
fn put_each<M: Policy>(
    mut messages: VecDeque<M>,
    mailbox: &mut Mailbox<M>,
) -> Result<(), AllocError>
    ensures { OnOk result (mailbox.new ≡ all_enqueued M.handle mailbox.old messages.items) }
{
    while let Some(message) = messages.pop_front() {
        mailbox.enqueue(message)?;
    }
    Ok(())
}
