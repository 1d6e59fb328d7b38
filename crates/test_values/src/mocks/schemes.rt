//! Wrapped schemes, which fail in one way, and the wrapped elector.
ghost use Rattle.std.specs.Prelude.{◌<◌, ◌≡◌};
ghost use Rattle.simplex_wire.specs.Signatures.{IsSignatures};

use simplex_mocks::wrapped::{Behavior, Config, Scheme as Wrapped};
use simplex_types::elector::{Config as Electing, Elector};
use simplex_types::{
    Attestation, Epoch, Keep, Keyed, Nullify, Participant, Round, RoundRobin, Scheme, TermLength,
    Terms, View,
};
use std::alloc::{AllocError, Global};
use test_support::Told;

fn round(view: u64) -> Round {
    Round {
        epoch: Epoch(0),
        view: View(view),
    }
}

fn listed(signer: u32) -> Attestation
    ensures { result.signer ≡ signer }
{
    Attestation {
        signer: Participant(signer),
        signature: [5; 32],
    }
}

fn tell_assembled(
    told: &mut Told,
    scheme: &Wrapped<Keyed>,
    listed: &[Attestation],
) -> Result<(), AllocError>
    requires { IsSignatures listed.now }
{
    let alloc = told.alloc();
    let count = listed.len();
    let line = match scheme.assemble(alloc, listed) {
        Ok(_) => format!(in alloc; "{count} assembled")?,
        Err(error) => format!(in alloc; "{count}: {error:?}")?,
    };
    told.says(line.as_str())
}

fn tell_signed(told: &mut Told, scheme: &Wrapped<Keyed>) -> Result<(), AllocError> {
    let alloc = told.alloc();
    let Some(vote) = Nullify::sign(scheme, round(1)) else {
        return told.says("it does not sign");
    };
    let signature = hex::encode(alloc, &vote.attestation.signature)?;
    let signer = vote.attestation.signer.0;
    let verifies = vote.verify(scheme);
    told.says(format!(in alloc; "{signature} of {signer}, verifies {verifies}")?.as_str())?;
    let (me, all) = (scheme.me(), scheme.participants());
    told.says(format!(in alloc; "signs as {me:?} of {all}")?.as_str())
}

/// Tells how member 2 of four signs the nullify of view 1 by a scheme that behaves so, and what it assembles.
pub(super) fn tell_behavior(told: &mut Told, word: &str) -> Result<(), AllocError> {
    let alloc = told.alloc();
    let behavior = match word {
        "honest" => Behavior::Honest,
        "corrupt" => Behavior::CorruptSignature,
        "unrecovering" => Behavior::RecoveryFailure,
        _ => return told.says("not a command"),
    };
    let inner = Keyed::new(alloc, 1, 4, Some(Participant(2)))?;
    let scheme = Wrapped::new(inner, behavior).keep(alloc)?;
    tell_signed(told, &scheme)?;
    tell_assembled(told, &scheme, &[listed(0), listed(1), listed(2)])?;
    tell_assembled(told, &scheme, &[listed(0), listed(1)])
}

/// Tells the terms of a wrapped elector of four members, and who leads these views.
pub(super) fn tell_elected(told: &mut Told, views: &[&str]) -> Result<(), AllocError> {
    let alloc = told.alloc();
    let terms = Terms {
        length: TermLength::ONE,
        lookahead: 2,
        stall_timeout: None,
    };
    let elector = Config(RoundRobin::new(terms)).build(4).keep(alloc)?;
    let same = elector.terms() == terms;
    told.says(format!(in alloc; "its terms: {same}")?.as_str())?;
    for view in views {
        let Ok(view) = view.parse::<u64>() else {
            return told.says("not a command");
        };
        let leader = elector.elect(round(view)).0;
        told.says(format!(in alloc; "view {view}: {leader}")?.as_str())?;
    }
    Ok(())
}
