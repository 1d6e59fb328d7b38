//! What a step takes, and all that it does with it.
ghost use Rattle.std.specs.Prelude.{◌<◌, ◌^◌, IfOk, OnOk};
ghost use Rattle.simplex_values.specs.declared.ask.Kind.{Kind};
ghost use Rattle.model_resolver.specs.Resolver.{produced, resolving, took_mail, took_handled, acted, step};
ghost use Rattle.simplex_resolver.specs.Stands.{Does, WorksAs};

use crate::actor::Actor;
use crate::work::Work;
use simplex_messages::resolver::{HandlerMessage, MailboxMessage};
use simplex_messages::{ResolverInput, voter};
use simplex_types::{Kind, Participant, Scheme, View};
use std::alloc::AllocError;

impl<S: Scheme + Drop> Actor<S> {
    /// A peer asks for the view.
    #[tactic(auto, unfolding(model_resolver::specs::Resolver::produced))]
    fn produce(&mut self, id: u64, view: View, work: &mut Work) -> Result<(), AllocError>
        ensures { OnOk result (Does self.old work.old self.new work.new
            (λ made. produced made id view)) }
    {
        let bytes = self.repair.produce(view)?;
        self.serve(id, bytes, work)?;
        Ok(())
    }

    /// For the proposal of a view, a certificate of another view is missing.
    #[tactic(auto, unfolding(model_resolver::specs::Resolver::resolving))]
    fn resolve(
        &mut self,
        proposal: View,
        view: View,
        kind: Kind,
        target: Option<Participant>,
        now: u64,
        work: &mut Work,
    ) -> Result<(), AllocError>
        requires clock { now < 2 ^ 63 }
        ensures { OnOk result (Does self.old work.old self.new work.new
            (λ made. resolving made now proposal view kind target)) }
    {
        if view >= proposal || self.repair.settled(view, kind) {
            return Ok(());
        }
        self.fetch_ancestry(view, kind, target, now, work)
    }

    /// A message of the voter.
    #[tactic(auto, unfolding(model_resolver::specs::Resolver::took_mail))]
    fn take_mail(
        &mut self,
        message: MailboxMessage,
        now: u64,
        work: &mut Work,
    ) -> Result<(), AllocError>
        requires clock { now < 2 ^ 63 }
        ensures { OnOk result (Does self.old work.old self.new work.new
            (λ made. took_mail made message now)) }
    {
        match message {
            MailboxMessage::Updated { certificate } => {
                self.take_certificate(&certificate, now, work)
            }
            MailboxMessage::Certified {
                notarization,
                success,
            } => self.take_verdict(notarization, success, now, work),
            MailboxMessage::Resolve {
                proposal,
                view,
                kind,
                target,
            } => self.resolve(proposal, view, kind, target, now, work),
            MailboxMessage::Replayed => self.take_replayed(now, work),
        }
    }

    /// A message of the handler. A response whose requester left is dropped.
    #[tactic(auto, unfolding(model_resolver::specs::Resolver::took_handled))]
    fn take_handled(
        &mut self,
        message: HandlerMessage,
        now: u64,
        work: &mut Work,
    ) -> Result<(), AllocError>
        requires clock { now < 2 ^ 63 }
        ensures { OnOk result (Does self.old work.old self.new work.new
            (λ made. took_handled made message now)) }
    {
        match message {
            HandlerMessage::Deliver {
                id,
                view,
                bytes,
                asks,
                waiting,
            } => {
                if !waiting {
                    return Ok(());
                }
                self.deliver(id, view, bytes.as_slice(), asks.as_slice(), now, work)
            }
            HandlerMessage::Produce { id, view } => self.produce(id, view, work),
        }
    }

    /// What the step takes.
    #[tactic(auto, unfolding(model_resolver::specs::Resolver::acted))]
    fn act(&mut self, input: ResolverInput, now: u64, work: &mut Work) -> Result<(), AllocError>
        requires clock { now < 2 ^ 63 }
        ensures { OnOk result (Does self.old work.old self.new work.new
            (λ made. acted made input now)) }
    {
        match input {
            ResolverInput::Mail(message) => self.take_mail(message, now, work),
            ResolverInput::Handler(message) => self.take_handled(message, now, work),
            ResolverInput::Packet { sender, bytes } => {
                self.hear(sender, bytes.as_slice(), now, work)
            }
            ResolverInput::Timer => self.expire(now, work),
        }
    }

    /// A whole step, but for the posting. What it has done.
    #[tactic(auto, unfolding(model_resolver::specs::Resolver::step))]
    pub(crate) fn take(&mut self, input: ResolverInput, now: u64) -> Result<Work, AllocError>
        requires clock { now < 2 ^ 63 }
        ensures { IfOk result (λ work. WorksAs self.old self.new work
            (λ made standing. step made standing input now)) }
    {
        let mut work = Work::new(self.alloc);
        self.act(input, now, &mut work)?;
        Ok(work)
    }
}
