//! What becomes of what the fetcher wants.
ghost use Rattle.std.specs.Prelude.{◌≡◌, IfOk, OnOk, None};
ghost use Rattle.std.specs.Option.{option_map};
ghost use Rattle.simplex_mailbox.specs.Mail.{feedback_of};
ghost use Rattle.model_resolver.specs.Resolver.{Doing, called, called_all, putting, leaving, serving, requested, minded, minded_all};
ghost use Rattle.simplex_resolver.specs.Stands.{Does, Reads, work_of};

use crate::actor::Actor;
use crate::work::Work;
use simplex_fetch::Out;
use simplex_messages::Handed;
use simplex_messages::resolver::HandlerMessage;
use simplex_types::{Feedback, Keep, Scheme, View};
use std::alloc::{AllocError, Global};

/// What goes outside: a block, or a send.
#[tactic(auto, unfolding(model_resolver::specs::Resolver::called))]
fn call(alloc: Global, out: Out, work: &mut Work) -> Result<(), AllocError>
    ensures { OnOk result ((doing : Doing) → work.old ≡ work_of doing
        → work.new ≡ work_of (called out doing)) }
{
    match out {
        Out::Send { to, bytes } => work.send(alloc, to, bytes),
        Out::Block(member, cause) => work.block(member, cause),
        Out::Deliver { .. } | Out::Produce { .. } | Out::Left { .. } => Ok(()),
    }
}

/// All that goes outside.
#[tactic(auto, unfolding(model_resolver::specs::Resolver::called_all))]
fn call_each(alloc: Global, outs: Vec<Out>, work: &mut Work) -> Result<(), AllocError>
    ensures { OnOk result ((doing : Doing) → work.old ≡ work_of doing
        → work.new ≡ work_of (called_all outs.items doing)) }
{
    for out in outs {
        call(alloc, out, work)?;
    }
    Ok(())
}

impl<S: Scheme + Drop> Actor<S> {
    /// The message is put into the handler's mailbox.
    #[tactic(auto, unfolding(model_resolver::specs::Resolver::putting))]
    fn put(&mut self, message: HandlerMessage, work: &mut Work) -> Result<Feedback, AllocError>
        ensures work { OnOk result (Does self.old work.old self.new work.new
            (λ made. putting message)) }
        ensures feedback { IfOk result (λ answer. Reads self.old
            (λ made standing. feedback_of standing.handler) answer) }
    {
        let copy = message.keep(self.alloc)?;
        work.hand(Handed::Handler(copy))?;
        self.handler.enqueue(message)
    }

    /// A peer's request is answered.
    #[tactic(auto, unfolding(model_resolver::specs::Resolver::serving))]
    pub(crate) fn serve(
        &mut self,
        id: u64,
        bytes: Option<Vec<u8>>,
        work: &mut Work,
    ) -> Result<(), AllocError>
        ensures { OnOk result (Does self.old work.old self.new work.new
            (λ made. serving id (option_map (λ vector. vector.items) bytes))) }
    {
        let outs = self.fetcher.serve(self.alloc, id, bytes)?;
        call_each(self.alloc, outs, work)?;
        Ok(())
    }

    /// A peer's request goes to the handler, where no room means that it is answered with an error.
    #[tactic(auto, unfolding(model_resolver::specs::Resolver::requested))]
    fn request(&mut self, id: u64, view: View, work: &mut Work) -> Result<(), AllocError>
        ensures { OnOk result (Does self.old work.old self.new work.new
            (λ made. requested id view)) }
    {
        let answer = self.put(HandlerMessage::Produce { id, view }, work)?;
        if answer == Feedback::Backoff {
            self.serve(id, None, work)?;
        }
        Ok(())
    }

    /// The requester of this number left.
    #[tactic(auto, unfolding(model_resolver::specs::Resolver::leaving))]
    fn leave(&mut self, id: u64)
        ensures { (work : Work) → Does self.old work self.new work (λ made. leaving id) }
    {
        self.handler.leave(id);
    }

    /// Deliveries and requests go to the handler, and the others outside.
    #[tactic(auto, unfolding(model_resolver::specs::Resolver::minded, model_resolver::specs::Resolver::called))]
    fn mind(&mut self, out: Out, work: &mut Work) -> Result<(), AllocError>
        ensures { OnOk result (Does self.old work.old self.new work.new (λ made. minded out)) }
    {
        match out {
            Out::Deliver {
                id,
                view,
                bytes,
                asks,
            } => {
                let message = HandlerMessage::Deliver {
                    id,
                    view,
                    bytes,
                    asks,
                    waiting: true,
                };
                self.put(message, work)?;
                Ok(())
            }
            Out::Produce { id, view } => self.request(id, view, work),
            Out::Left { id } => {
                self.leave(id);
                Ok(())
            }
            Out::Send { to, bytes } => {
                work.send(self.alloc, to, bytes)?;
                Ok(())
            }
            Out::Block(member, cause) => {
                work.block(member, cause)?;
                Ok(())
            }
        }
    }

    /// All that the fetcher wants.
    #[tactic(auto, unfolding(model_resolver::specs::Resolver::minded_all))]
    pub(crate) fn mind_each(&mut self, outs: Vec<Out>, work: &mut Work) -> Result<(), AllocError>
        ensures { OnOk result (Does self.old work.old self.new work.new
            (λ made. minded_all outs.items)) }
    {
        for out in outs {
            self.mind(out, work)?;
        }
        Ok(())
    }
}
