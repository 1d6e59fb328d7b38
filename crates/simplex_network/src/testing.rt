//! Whether packets of faulty members are forged.
ghost use Rattle.std.specs.Prelude.{◌≡◌, true, false, IfErr, OnOk};
ghost use Rattle.model_run.specs.Kinds.{is_of_kind};
ghost use Rattle.law_run.specs.EventForging.{is_impersonator};
ghost use Rattle.simplex_network.specs.Answer.{is_memory, is_failed};
ghost use Rattle.simplex_network.specs.Stands.{IsUnforged, IsForgedAs, IsPassed, IsStopped};

use crate::nodes::is_impersonator;
use simplex_records::{Forgery, Records};
use simplex_transcript::{Node, Packet, RunError, Setup};
use std::alloc::Global;

/// Refuses packets of faulty members in which an attestation is forged. [forgeries-in-two-places]
pub(crate) fn test(
    alloc: Global,
    setup: &Setup,
    records: &Records,
    packets: &[Packet],
) -> Result<(), RunError>
    ensures none { OnOk result (IsUnforged setup.now records.now packets.now) }
    ensures some { IfErr result (λ error. is_memory error ≡ false
        → IsForgedAs setup.now records.now packets.now error) }
    ensures unfailed { IfErr result (λ error. is_failed error ≡ false) }
{
    match records.first_forged(alloc, setup, packets)? {
        None => Ok(()),
        Some(Forgery { member, subject }) => Err(RunError::Forged { member, subject }),
    }
}

/// The same of packets that a node says on hearing another: only an impersonator's may be forged.
pub(crate) fn test_heard(
    alloc: Global,
    setup: &Setup,
    records: &Records,
    node: Node,
    packets: &[Packet],
) -> Result<(), RunError>
    ensures none { OnOk result (IsPassed setup.now records.now node packets.now) }
    ensures some { IfErr result (λ error. is_memory error ≡ false
        → IsStopped setup.now records.now node packets.now error) }
    ensures of { IfErr result (λ error. is_of_kind is_impersonator setup.now node.member ≡ true) }
    ensures unfailed { IfErr result (λ error. is_failed error ≡ false) }
{
    if is_impersonator(setup, node.member) {
        test(alloc, setup, records, packets)
    } else {
        Ok(())
    }
}
