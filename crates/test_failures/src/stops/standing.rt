//! The certificates that stand in a run: added, handed on, appended, reported, in packets, in injected bytes, and in responses.
use simplex_messages::{Call, Handed, resolver, voter};
use simplex_transcript::{Entry, Packet, Setup};
use simplex_types::{
    Activity, Artifact, Certificate, Channel, Finalization, Keyed, Notarization, Nullification,
    ResolverBody, ResolverMessage, Subject,
};
use std::alloc::{AllocError, Global};
use std::process::Abort;

/// What the certificates are on that were looked at and verify, each once.
#[derive(Drop)]
struct Found {
    alloc: Global,
    scheme: Keyed,
    subjects: Vec<Subject>,
}

impl Found {
    /// Whether no certificate on it was found.
    fn is_new(&self, subject: &Subject) -> bool {
        !self.subjects.contains(subject)
    }

    fn notarization(&mut self, it: &Notarization) -> Result<(), AllocError> {
        let subject = Subject::Notarize(it.proposal);
        if self.is_new(&subject) && it.verify(&self.scheme) {
            self.subjects.push(subject)?;
        }
        Ok(())
    }

    fn nullification(&mut self, it: &Nullification) -> Result<(), AllocError> {
        let subject = Subject::Nullify(it.round);
        if self.is_new(&subject) && it.verify(&self.scheme) {
            self.subjects.push(subject)?;
        }
        Ok(())
    }

    fn finalization(&mut self, it: &Finalization) -> Result<(), AllocError> {
        let subject = Subject::Finalize(it.proposal);
        if self.is_new(&subject) && it.verify(&self.scheme) {
            self.subjects.push(subject)?;
        }
        Ok(())
    }

    fn certificate(&mut self, it: &Certificate) -> Result<(), AllocError> {
        match it {
            Certificate::Notarization(it) => self.notarization(it),
            Certificate::Nullification(it) => self.nullification(it),
            Certificate::Finalization(it) => self.finalization(it),
        }
    }

    /// A message that was put into a mailbox.
    fn message(&mut self, handed: &Handed) -> Result<(), AllocError> {
        match handed {
            Handed::Voter(voter::Message::Verified { certificate })
            | Handed::Resolver(resolver::MailboxMessage::Updated { certificate }) => {
                self.certificate(certificate)
            }
            Handed::Resolver(resolver::MailboxMessage::Certified { notarization, .. }) => {
                self.notarization(notarization)
            }
            _ => Ok(()),
        }
    }

    fn record(&mut self, artifact: &Artifact) -> Result<(), AllocError> {
        match artifact {
            Artifact::Notarization(it) => self.notarization(it),
            Artifact::Nullification(it) => self.nullification(it),
            Artifact::Finalization(it) => self.finalization(it),
            _ => Ok(()),
        }
    }

    fn report(&mut self, activity: &Activity) -> Result<(), AllocError> {
        match activity {
            Activity::Notarization(it) | Activity::Certification(it) => self.notarization(it),
            Activity::Nullification(it) => self.nullification(it),
            Activity::Finalization(it) => self.finalization(it),
            _ => Ok(()),
        }
    }

    fn call(&mut self, call: &Call) -> Result<(), AllocError> {
        match call {
            Call::Append(_, artifact) => self.record(artifact),
            Call::Report(activity) => self.report(activity),
            _ => Ok(()),
        }
    }

    fn bytes(&mut self, bytes: &[u8]) -> Result<(), AllocError> {
        match Certificate::decode(self.alloc, bytes) {
            Ok(certificate) => self.certificate(&certificate),
            Err(_) => Ok(()),
        }
    }

    /// A packet that was sent or injected: a certificate, or a response that carries one.
    fn packet(&mut self, packet: &Packet) -> Result<(), AllocError> {
        let bytes = packet.bytes.as_slice();
        match packet.channel {
            Channel::Vote => Ok(()),
            Channel::Certificate => self.bytes(bytes),
            Channel::Resolver => match ResolverMessage::decode(self.alloc, bytes) {
                Ok(
                    ResolverMessage {
                        body: ResolverBody::Response { bytes },
                        ..
                    },
                ) => self.bytes(bytes.as_slice()),
                _ => Ok(()),
            },
        }
    }

    fn entry(&mut self, entry: &Entry) -> Result<(), AllocError> {
        for certificate in entry.added.as_slice() {
            self.certificate(certificate)?;
        }
        for handed in entry.handed.as_slice() {
            self.message(handed)?;
        }
        for call in entry.calls.as_slice() {
            self.call(call)?;
        }
        for packet in entry.packets.as_slice() {
            self.packet(packet)?;
        }
        Ok(())
    }
}

/// What the certificates are on that stand in the entries and verify.
pub(super) fn certified(
    rt: &impl Abort,
    alloc: Global,
    setup: &Setup,
    entries: &[Entry],
) -> Vec<Subject> {
    let members = u32::try_from(setup.members.as_slice().len()).unwrap_or(0);
    assert!(rt; members > 0, "a member");
    let scheme = Keyed::new(alloc, setup.key_base, members, None).expect(rt, "memory");
    let mut found = Found {
        alloc,
        scheme,
        subjects: Vec::new(alloc),
    };
    for entry in entries {
        found.entry(entry).expect(rt, "memory");
    }
    found.subjects
}
