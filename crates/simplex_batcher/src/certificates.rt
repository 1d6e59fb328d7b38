//! Certificates from the network.
ghost use Rattle.std.specs.Prelude.{◌≡◌, OnOk};
ghost use Rattle.simplex_wire.specs.Certified.{is_certified};
ghost use Rattle.simplex_wire.specs.Fields.{certificate_signatures, certificate_subject};
ghost use Rattle.model_steps.specs.Batcher.{holds_kind, kept_certificate, took_certificate};
ghost use Rattle.simplex_batcher.specs.Working.{recorded_at};
ghost use Rattle.simplex_batcher.specs.Stands.{Marks, Reads};

use crate::actor::Actor;
use crate::marks::Marked;
use crate::work::{block, hand};
use simplex_messages::{StepOut, voter};
use simplex_types::{BlockCause, Certificate, Participant, Scheme};
use std::alloc::AllocError;

impl<S: Scheme + Drop> Actor<S> {
    /// Whether a certificate of the kind is held for the view.
    #[tactic(auto, unfolding(model_steps::specs::Batcher::holds_kind))]
    fn holds_kind(&self, certificate: &Certificate) -> bool
        ensures { Reads self.now (λ made standing. holds_kind standing certificate.now) result }
    {
        self.rounds
            .has_certificate(certificate.view(), certificate.kind())
    }

    /// Whether a quorum signed the certificate.
    #[tactic(auto, unfolding(crate::specs::Stands::batcher_made))]
    fn is_certified(&self, certificate: &Certificate) -> bool
        ensures { Reads self.now
            (λ made standing. is_certified
            (made.scheme.verifies (certificate_subject certificate.now)) made.members
            (certificate_signatures certificate.now)) result }
    {
        let subject = certificate.subject();
        self.config
            .scheme
            .verify_certificate(&subject, certificate.signatures())
    }

    /// The certificate, by the round of its view.
    fn record(
        &mut self,
        certificate: &Certificate,
        dirty: &mut Marked,
        work: &mut StepOut,
    ) -> Result<(), AllocError>
        ensures { OnOk result (Marks self.old work.old dirty.old self.new work.new dirty.new
            (λ made. recorded_at made certificate.now)) }
    {
        let view = certificate.view();
        self.make_round(view)?;
        let is_marked = self
            .rounds
            .record_certificate(view, self.alloc, certificate)?;
        dirty.mark(is_marked, view)?;
        Ok(())
    }

    /// A certificate that verifies.
    #[tactic(auto, unfolding(crate::specs::Working::recorded_at, model_steps::specs::Batcher::kept_certificate))]
    fn keep_certificate(
        &mut self,
        certificate: Certificate,
        dirty: &mut Marked,
        work: &mut StepOut,
    ) -> Result<(), AllocError>
        ensures { OnOk result (Marks self.old work.old dirty.old self.new work.new dirty.new
            (λ made. kept_certificate made certificate)) }
    {
        self.record(&certificate, dirty, work)?;
        hand(work, voter::Message::Verified { certificate })?;
        Ok(())
    }

    /// A certificate from the network, where it is still of use. A sender of one that does not verify is blocked.
    #[tactic(auto, unfolding(model_steps::specs::Batcher::took_certificate))]
    pub(crate) fn take_certificate(
        &mut self,
        sender: Participant,
        certificate: Certificate,
        dirty: &mut Marked,
        work: &mut StepOut,
    ) -> Result<(), AllocError>
        ensures { OnOk result (Marks self.old work.old dirty.old self.new work.new dirty.new
            (λ made. took_certificate made sender certificate)) }
    {
        if !self.retains(certificate.view()) {
            return Ok(());
        }
        if self.holds_kind(&certificate) {
            return Ok(());
        }
        if !self.is_certified(&certificate) {
            block(work, sender, BlockCause::InvalidCertificate)?;
            return Ok(());
        }
        self.keep_certificate(certificate, dirty, work)?;
        Ok(())
    }
}
