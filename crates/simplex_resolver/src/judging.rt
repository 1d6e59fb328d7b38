//! How an answer of a peer is judged.
ghost use Rattle.std.specs.Prelude.{◌≡◌, ◌<◌, ◌^◌, ◌&&◌, ◌==◌, Some, None, IfOk, OnOk};
ghost use Rattle.simplex_values.specs.declared.ask.Outcome.TheVariants.{Ignored, Invalid};
ghost use Rattle.simplex_wire.specs.Certified.{is_certified};
ghost use Rattle.simplex_wire.specs.Fields.{certificate_signatures, certificate_subject};
ghost use Rattle.model_resolver.specs.Resolver.{may_answer, is_valid, validated, settled_count, is_excepted, verdict_of, passed_over, accepted, answered, delivered};
ghost use Rattle.simplex_resolver.specs.Stands.{Does, Reads};

use crate::actor::Actor;
use crate::work::Work;
use simplex_messages::{Handed, voter};
use simplex_types::{Ask, Certificate, DecodeError, Outcome, Resolution, Scheme, View};
use std::alloc::AllocError;

/// The verdict where so many of all asks were settled before, and so many are after.
#[tactic(auto, unfolding(model_resolver::specs::Resolver::verdict_of))]
fn verdict_of(all: usize, before: usize, after: usize) -> Option<Outcome>
    ensures { result ≡ verdict_of all before after }
{
    if before == all {
        return None;
    }
    if after == all {
        return Some(Outcome::Resolved(Resolution::Complete));
    }
    if before < after {
        return Some(Outcome::Resolved(Resolution::Partial));
    }
    Some(Outcome::Unresolved)
}

impl<S: Scheme + Drop> Actor<S> {
    /// Whether the certificate can be an answer for the view.
    #[tactic(auto, unfolding(crate::specs::Stands::resolver_made))]
    fn may_answer(&self, view: View, certificate: &Certificate) -> bool
        ensures { Reads self.now
            (λ made standing. may_answer made.term view certificate.now) result }
    {
        match certificate {
            Certificate::Nullification(it) => it.view().covers(view, self.config.term_length),
            Certificate::Notarization(it) => view <= it.view(),
            Certificate::Finalization(it) => view <= it.view(),
        }
    }

    /// Whether a quorum signed the certificate.
    #[tactic(auto, unfolding(crate::specs::Stands::resolver_made))]
    fn is_certified(&self, certificate: &Certificate) -> bool
        ensures { Reads self.now
            (λ made standing. is_certified
            (made.verifies (certificate_subject certificate.now)) made.members
            (certificate_signatures certificate.now)) result }
    {
        let subject = certificate.subject();
        self.config
            .scheme
            .verify_certificate(&subject, certificate.signatures())
    }

    /// Whether the certificate is an answer for the view.
    #[tactic(auto, unfolding(crate::specs::Stands::resolver_made, model_resolver::specs::Resolver::is_valid))]
    fn is_valid(&self, view: View, certificate: &Certificate) -> bool
        ensures { Reads self.now (λ made standing. is_valid made view certificate.now) result }
    {
        self.may_answer(view, certificate)
            && certificate.epoch() == self.config.epoch
            && self.is_certified(certificate)
    }

    /// The certificate that these bytes are, where it is an answer for the view.
    #[tactic(auto, unfolding(model_resolver::specs::Resolver::validated))]
    pub(crate) fn read_answer(
        &self,
        view: View,
        bytes: &[u8],
    ) -> Result<Option<Certificate>, AllocError>
        ensures { IfOk result (λ it. Reads self.now
            (λ made standing. validated made view bytes.now) it) }
    {
        match Certificate::decode(self.alloc, bytes) {
            Err(DecodeError::Memory) => Err(AllocError),
            Err(DecodeError::Fault { .. }) => Ok(None),
            Ok(certificate) => {
                if self.is_valid(view, &certificate) {
                    Ok(Some(certificate))
                } else {
                    Ok(None)
                }
            }
        }
    }

    /// How many of the asks for the view are settled.
    #[tactic(auto, unfolding(model_resolver::specs::Resolver::settled_count))]
    fn count_settled(&self, view: View, asks: &[Ask]) -> usize
        ensures { Reads self.now
            (λ made standing. settled_count made.term standing.held view asks.now) result }
    {
        let mut count = 0;
        for ask in asks {
            if self.repair.settled(view, ask.kind) {
                count += 1;
            }
        }
        count
    }

    /// Whether it is a notarization of a view that failed.
    #[tactic(auto, unfolding(model_resolver::specs::Resolver::is_excepted))]
    fn is_excepted(&self, certificate: &Certificate) -> bool
        ensures { Reads self.now
            (λ made standing. is_excepted standing.held certificate.now) result }
    {
        match certificate {
            Certificate::Notarization(it) => self.repair.uncertifiable(it.view()),
            Certificate::Nullification(_) | Certificate::Finalization(_) => false,
        }
    }

    /// A valid answer that changes nothing.
    #[tactic(auto, unfolding(model_resolver::specs::Resolver::passed_over))]
    fn pass_over(
        &mut self,
        id: u64,
        view: View,
        asks: &[Ask],
        now: u64,
        work: &mut Work,
    ) -> Result<(), AllocError>
        requires clock { now < 2 ^ 63 }
        ensures { OnOk result (Does self.old work.old self.new work.new
            (λ made. passed_over made now id view asks.now)) }
    {
        let count = self.count_settled(view, asks);
        let verdict = verdict_of(asks.len(), count, count);
        self.judge(id, verdict, now, work)?;
        Ok(())
    }

    /// A valid answer is recorded. The fetcher is given the verdict first, then the retiring and the fetches, and
    /// then the certificate is for the voter.
    #[tactic(auto, unfolding(model_resolver::specs::Resolver::accepted))]
    fn accept(
        &mut self,
        id: u64,
        view: View,
        asks: &[Ask],
        certificate: Certificate,
        now: u64,
        work: &mut Work,
    ) -> Result<(), AllocError>
        requires clock { now < 2 ^ 63 }
        ensures { OnOk result (Does self.old work.old self.new work.new
            (λ made. accepted made now id view asks.now certificate)) }
    {
        let before = self.count_settled(view, asks);
        let effects = self.repair.updated(&certificate)?;
        let after = self.count_settled(view, asks);
        let verdict = verdict_of(asks.len(), before, after);
        self.judge(id, verdict, now, work)?;
        self.follow(effects, now, work)?;
        work.hand(Handed::Voter(voter::Message::Verified { certificate }))?;
        Ok(())
    }

    /// An answer, with the certificate that it is, where it is one for the view.
    #[tactic(auto, unfolding(model_resolver::specs::Resolver::answered))]
    fn take_answer(
        &mut self,
        id: u64,
        view: View,
        asks: &[Ask],
        certificate: Option<Certificate>,
        now: u64,
        work: &mut Work,
    ) -> Result<(), AllocError>
        requires clock { now < 2 ^ 63 }
        ensures { OnOk result (Does self.old work.old self.new work.new
            (λ made. answered made now id view asks.now certificate)) }
    {
        let Some(certificate) = certificate else {
            return self.judge(id, Some(Outcome::Invalid), now, work);
        };
        if self.is_excepted(&certificate) {
            return self.pass_over(id, view, asks, now, work);
        }
        self.accept(id, view, asks, certificate, now, work)
    }

    /// An answer's bytes, which are not read where nothing is left to settle. [verdict-first]
    #[tactic(auto, unfolding(model_resolver::specs::Resolver::delivered))]
    pub(crate) fn deliver(
        &mut self,
        id: u64,
        view: View,
        bytes: &[u8],
        asks: &[Ask],
        now: u64,
        work: &mut Work,
    ) -> Result<(), AllocError>
        requires clock { now < 2 ^ 63 }
        ensures { OnOk result (Does self.old work.old self.new work.new
            (λ made. delivered made now id view bytes.now asks.now)) }
    {
        if self.repair.key_settled(view) {
            return self.judge(id, Some(Outcome::Ignored), now, work);
        }
        let certificate = self.read_answer(view, bytes)?;
        self.take_answer(id, view, asks, certificate, now, work)
    }
}
