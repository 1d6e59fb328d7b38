//! Scripts about a scheme: what a member signs, and for whom that verifies.
use simplex_types::{
    Attestation, Digest, Epoch, Hidden, Keep, Keyed, Participant, Proposal, Round, Scheme, Subject,
    View,
};
use std::alloc::{AllocError, Global};
use test_support::{Part, Script, Told, member, number, play_made};

/// A scheme.
#[derive(Drop)]
struct Desk<S: Drop> {
    alloc: Global,
    scheme: S,
}

/// The base of the keys, how many members there are, and who signs.
#[derive(Clone, Copy)]
struct Setup {
    base: u64,
    n: u32,
    me: Participant,
}

/// `base BASE of N member ME`.
fn setup_of(words: &[&str]) -> Option<Setup> {
    match words {
        ["base", base, "of", n, "member", me] => Some(Setup {
            base: number(base)?,
            n: member(n)?,
            me: Participant(member(me)?),
        }),
        _ => None,
    }
}

fn keyed_of(alloc: Global, setup: Setup) -> Result<Option<Keyed>, AllocError> {
    let Setup { base, n, me } = setup;
    if me.0 < n {
        Ok(Some(Keyed::new(alloc, base, n, Some(me))?))
    } else {
        Ok(None)
    }
}

/// Plays a script whose first line is `scheme`, and these words: `keyed` or `hidden`, and a setup.
pub(crate) fn run(words: &[&str], script: &Script, told: &mut Told) -> Result<(), AllocError> {
    let alloc = told.alloc();
    let (kind, setup) = match words {
        [kind, words @ ..] => (*kind, setup_of(words)),
        [] => ("", None),
    };
    let inner = match setup {
        Some(setup) => keyed_of(alloc, setup)?,
        None => None,
    };
    match kind {
        "keyed" => play_made(inner.map(|scheme| Desk { alloc, scheme }), script, told),
        "hidden" => {
            let scheme = inner.map(|inner| Hidden { inner });
            play_made(scheme.map(|scheme| Desk { alloc, scheme }), script, told)
        }
        _ => told.says("not a command"),
    }
}

fn proposal() -> Proposal {
    Proposal {
        round: Round {
            epoch: Epoch(3),
            view: View(300),
        },
        parent: View(299),
        payload: Digest([17; 32]),
    }
}

fn subject_of(words: &[&str]) -> Option<Subject> {
    match words {
        ["notarize", "3.300"] => Some(Subject::Notarize(proposal())),
        ["finalize", "3.300"] => Some(Subject::Finalize(proposal())),
        ["nullify", epoch, view] => Some(Subject::Nullify(Round {
            epoch: Epoch(number(epoch)?),
            view: View(number(view)?),
        })),
        _ => None,
    }
}

impl<S: Scheme + Drop> Desk<S> {
    fn who(&self) -> Result<String, AllocError> {
        let n = self.scheme.participants();
        let proves = S::is_attributable();
        let size = S::max_certificate_size(100);
        match self.scheme.me() {
            Some(me) => format!(in self.alloc;
                "{me} of {n}, proves who signed: {proves}, 100 signatures take {size} bytes"
            ),
            None => format!(in self.alloc;
                "nobody of {n}, proves who signed: {proves}, 100 signatures take {size} bytes"
            ),
        }
    }

    /// Whether what was signed verifies on the subject as that of this signer.
    fn verifies_as(&self, subject: &Subject, signed: &Attestation, signer: u32) -> bool {
        let signature = signed.signature;
        let forged = Attestation {
            signer: Participant(signer),
            signature,
        };
        self.scheme.verify_attestation(subject, &forged)
    }

    /// Tells a signature, and for whom it verifies: on its subject, on the nullify of 3.300, and as that of others.
    fn sign(&self, subject: &Subject, told: &mut Told) -> Result<(), AllocError> {
        let Some(signed) = self.scheme.sign(subject) else {
            return told.says("does not sign");
        };
        let (signer, signature) = (signed.signer, Digest(signed.signature));
        told.says(format!(in self.alloc; "{signer} signs {signature}")?.as_str())?;
        let verifies = self.scheme.verify_attestation(subject, &signed);
        let other = Subject::Nullify(proposal().round);
        let elsewhere = self.scheme.verify_attestation(&other, &signed);
        let (first, fourth) = (
            self.verifies_as(subject, &signed, 1),
            self.verifies_as(subject, &signed, 4),
        );
        told.says(format!(in self.alloc;
            "verifies: {verifies}, on the nullify of 3.300 {elsewhere}, as of 1 {first}, as of 4 {fourth}"
        )?.as_str())
    }
}

impl<S: Scheme + Keep + Drop> Part for Desk<S> {
    fn take(&mut self, words: &[&str], told: &mut Told) -> Result<(), AllocError> {
        match words {
            ["who"] => told.says(self.who()?.as_str()),
            ["copy"] => {
                self.scheme = self.scheme.keep(self.alloc)?;
                Ok(())
            }
            ["sign", words @ ..] => match subject_of(words) {
                Some(subject) => self.sign(&subject, told),
                None => told.says("not a command"),
            },
            _ => told.says("not a command"),
        }
    }
}
