//! The certificates of a record that verify, taken entry by entry.
ghost use Rattle.std.specs.Prelude.{◌≡◌, ◌<◌, ◌∷◌, [], List, false, IsNone, IfOk};
ghost use Rattle.std.specs.List.{flat_map};
ghost use Rattle.simplex_transcript.specs.declared.event.Event.{Event};
ghost use Rattle.simplex_transcript.specs.declared.setup.Setup.{Setup};
ghost use Rattle.simplex_wire.specs.declared.certificate.Certificate.{Certificate};
ghost use Rattle.simplex_wire.specs.Fields.{certificate_subject, certificate_signatures};
ghost use Rattle.model_run.specs.Kinds as kinds;
ghost use Rattle.model_run.specs.Life.{Noted};
ghost use Rattle.model_run.specs.Setups.{first_bad};
ghost use Rattle.law_run.specs.Backed as backed;
ghost use Rattle.model_audit.specs.Conflicts.{has_conflict};
ghost use Rattle.model_audit.specs.Rebuilt.{rebuilt, rebuilt_entry};
ghost use Rattle.simplex_conflicts.specs.Standing.{StandsFor, TakesIn, in_call};

use crate::certificates::certificate_on;
use crate::index::Index;
use model_audit::{AuditCall, AuditEntry};
use simplex_transcript::{Packet, Setup};
use simplex_types::{Artifact, Certificate, Keyed, Scheme, Signatures, Subject, TermLength};
use std::alloc::{AllocError, Global};

/// The certificates of a record that verify, of which no two conflict.
///
/// Of each only what it is about is kept, and that by views: no entry is gone over again. Where a conflict was found, or a call wanted
/// memory, nothing is told of what comes after it.
#[derive(Drop)]
pub struct Standing {
    scheme: Keyed,
    index: Index,
}

impl Standing {
    /// Of no entries, in a run that is so set up.
    pub fn new(alloc: Global, setup: &Setup) -> Result<Standing, AllocError>
        requires { IsNone (first_bad setup.now) }
        ensures { IfOk result (λ standing. StandsFor standing setup.now []) }
    {
        Ok(Standing {
            scheme: Keyed::new(alloc, setup.key_base, members_of(setup), None)?,
            index: Index::new(alloc, term_of(setup)),
        })
    }

    /// Takes the certificates of one more entry. Whether one of them conflicts with another of the entry, or with one of those
    /// before.
    pub fn take(&mut self, alloc: Global, entry: &AuditEntry) -> Result<bool, AllocError>
        ensures answer { IfOk result (λ conflict. (setup : Setup) (before : List Noted) → StandsFor self.old setup before
            → conflict ≡ has_conflict setup before (rebuilt_entry entry.now)) }
        ensures stands { IfOk result (λ conflict. conflict ≡ false → (setup : Setup) (before : List Noted) (event : Event)
            → StandsFor self.old setup before
            → StandsFor self.new setup (rebuilt event entry.now ∷ before)) }
    {
        if self.take_certificates(entry.added.as_slice())? {
            return Ok(true);
        }
        if self.take_calls(entry.calls.as_slice())? {
            return Ok(true);
        }
        self.take_packets(alloc, entry.packets.as_slice())
    }

    // Takes certificates, up to the first that conflicts with one before it.
    fn take_certificates(&mut self, certificates: &[Certificate]) -> Result<bool, AllocError>
        ensures { IfOk result (λ conflict. TakesIn self.old self.new certificates.now conflict) }
    {
        for certificate in certificates {
            if self.take_one(&certificate.subject(), certificate.signatures())? {
                return Ok(true);
            }
        }
        Ok(false)
    }

    // Those that are appended and reported, likewise.
    fn take_calls(&mut self, calls: &[AuditCall]) -> Result<bool, AllocError>
        ensures { IfOk result
            (λ conflict. TakesIn self.old self.new (flat_map in_call calls.now) conflict) }
    {
        for call in calls {
            if self.take_call(call)? {
                return Ok(true);
            }
        }
        Ok(false)
    }

    // That of a call.
    #[tactic(auto, using(crate::proofs::Clashing::takes_nothing))]
    fn take_call(&mut self, call: &AuditCall) -> Result<bool, AllocError>
        ensures { IfOk result (λ conflict. TakesIn self.old self.new (in_call call.now) conflict) }
    {
        match call {
            AuditCall::Append(_, artifact) => self.take_record(artifact),
            AuditCall::Report(certificate) => {
                self.take_one(&certificate.subject(), certificate.signatures())
            }
            AuditCall::Sync(_) | AuditCall::Prune(_) | AuditCall::Send(_, _) | AuditCall::Other => {
                Ok(false)
            }
        }
    }

    // That of a record of the journal.
    #[tactic(auto, using(crate::proofs::Clashing::takes_nothing))]
    fn take_record(&mut self, artifact: &Artifact) -> Result<bool, AllocError>
        ensures { IfOk result
            (λ conflict. TakesIn self.old self.new (backed.of_record artifact.now) conflict) }
    {
        match artifact {
            Artifact::Notarization(it) => {
                self.take_one(&Subject::Notarize(it.proposal), &it.certificate)
            }
            Artifact::Nullification(it) => {
                self.take_one(&Subject::Nullify(it.round), &it.certificate)
            }
            Artifact::Finalization(it) => {
                self.take_one(&Subject::Finalize(it.proposal), &it.certificate)
            }
            Artifact::Notarize(_)
            | Artifact::Certification(_, _)
            | Artifact::Nullify(_)
            | Artifact::Finalize(_) => Ok(false),
        }
    }

    // Those of packets, likewise.
    fn take_packets(&mut self, alloc: Global, packets: &[Packet]) -> Result<bool, AllocError>
        ensures { IfOk result
            (λ conflict. TakesIn self.old self.new
            (flat_map backed.of_packet packets.now) conflict) }
    {
        for packet in packets {
            if self.take_packet(alloc, packet)? {
                return Ok(true);
            }
        }
        Ok(false)
    }

    // That of a packet.
    fn take_packet(&mut self, alloc: Global, packet: &Packet) -> Result<bool, AllocError>
        ensures { IfOk result
            (λ conflict. TakesIn self.old self.new (backed.of_packet packet.now) conflict) }
    {
        match certificate_on(alloc, packet.channel, packet.bytes.as_slice())? {
            None => Ok(false),
            Some(certificate) => self.take_one(&certificate.subject(), certificate.signatures()),
        }
    }

    // Takes a certificate that says this, where its signatures verify. Whether it conflicts with one before it.
    fn take_one(&mut self, subject: &Subject, signatures: &Signatures) -> Result<bool, AllocError>
        ensures { IfOk result (λ conflict. (c : Certificate) → certificate_subject c ≡ subject.now → certificate_signatures c ≡ signatures.now
            → TakesIn self.old self.new (c ∷ []) conflict) }
    {
        if self.scheme.verify_certificate(subject, signatures) {
            self.index.take(subject)
        } else {
            Ok(false)
        }
    }
}

// How many members there are.
#[tactic(auto, using(crate::proofs::Good::good))]
fn members_of(setup: &Setup) -> u32
    requires { IsNone (first_bad setup.now) }
    ensures count { result ≡ kinds.members_of setup.now }
    ensures some { 0 < result }
{
    setup.members.len() as u32
}

// How long a term is.
#[tactic(auto, using(crate::proofs::Good::good))]
fn term_of(setup: &Setup) -> TermLength
    requires { IsNone (first_bad setup.now) }
    ensures { result ≡ setup.now.term }
{
    TermLength::new(setup.term).unwrap()
}
