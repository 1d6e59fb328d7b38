//! A verifier of nullifies of view 1 by four members, told line by line: `verifier of 2` wants two of them.
use simplex_round::Verifier;
use simplex_types::Keyed;
use simplex_values::{Epoch, Participant, Round, Subject, View};
use std::alloc::AllocError;
use test_support::reading::member;
use test_support::signing::{KEYS, OTHER_KEYS, attested};
use test_support::telling::{Items, members_text};
use test_support::{Part, Script, Told, play};

/// How many members there are.
const MEMBERS: u32 = 4;

/// Each nullify is on this.
const SUBJECT: Subject = Subject::Nullify(Round {
    epoch: Epoch(0),
    view: View(1),
});

/// A verifier.
#[derive(Drop)]
struct Desk {
    verifier: Verifier,
}

/// Tells the script of a verifier.
pub(crate) fn tell(script: &Script, words: &[&str], told: &mut Told) -> Result<(), AllocError> {
    let quorum = match words {
        ["verifier", "of", quorum] => member(quorum),
        _ => None,
    };
    let Some(quorum) = quorum else {
        return told.says("not a command");
    };
    let verifier = Verifier::new(told.alloc(), quorum.0);
    play(&mut Desk { verifier }, script, told)
}

impl Desk {
    /// Whether there are enough.
    fn ready(&self) -> &'static str {
        if self.verifier.ready() {
            "ready"
        } else {
            "waits"
        }
    }

    fn add(
        &mut self,
        told: &mut Told,
        keys: u64,
        signer: Option<Participant>,
    ) -> Result<(), AllocError> {
        let Some(signer) = signer else {
            return told.says("not a command");
        };
        let Some(attestation) = attested(told.alloc(), keys, MEMBERS, signer, &SUBJECT)? else {
            return told.says("not allowed: the signer is no member");
        };
        self.verifier.add(attestation)?;
        told.says(self.ready())
    }

    fn check(&mut self, told: &mut Told) -> Result<(), AllocError> {
        let alloc = told.alloc();
        let scheme = Keyed::new(alloc, KEYS, MEMBERS, None)?;
        let invalid = self.verifier.check(alloc, &scheme, &SUBJECT)?;
        let mut items = Items::new(alloc);
        if !invalid.is_empty() {
            let invalid = members_text(alloc, &invalid)?;
            let invalid = format!(in alloc; "invalid by {}", invalid.as_str())?;
            items.push(invalid.as_str())?;
        }
        items.push(self.ready())?;
        told.says(items.text())
    }
}

impl Part for Desk {
    fn take(&mut self, words: &[&str], told: &mut Told) -> Result<(), AllocError> {
        match words {
            ["nullify", signer] => self.add(told, KEYS, member(signer)),
            ["forged", "nullify", signer] => self.add(told, OTHER_KEYS, member(signer)),
            ["check"] => self.check(told),
            _ => told.says("not a command"),
        }
    }
}
