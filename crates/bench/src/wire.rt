//! A certificate as bytes and as a value.
ghost use Rattle.std.specs.Prelude.{◌<◌};

use simplex_types::{
    Certificate, Digest, Epoch, Keyed, Notarize, Participant, Proposal, Round, View,
};
use std::alloc::{AllocError, Global};

/// What every key is made from.
const KEY_BASE: u64 = 1;

/// What the certificate is about.
fn proposal() -> Proposal {
    Proposal {
        round: Round {
            epoch: Epoch(3),
            view: View(300),
        },
        parent: View(299),
        payload: Digest([17; 32]),
    }
}

/// How many members sign: at most so many, so that each number is one byte.
fn members(size: u32) -> u8
    ensures { 0 < result }
{
    size.clamp(1, 127) as u8
}

/// Puts the member's signature of the proposal behind the others.
fn sign(alloc: Global, members: u8, member: u8, bytes: &mut Vec<u8>) -> Result<(), AllocError>
    requires { member < members }
{
    let me = Some(Participant(u32::from(member)));
    let scheme = Keyed::new(alloc, KEY_BASE, u32::from(members), me)?;
    if let Some(vote) = Notarize::sign(&scheme, proposal()) {
        bytes.push(member)?;
        bytes.extend_from_slice(&vote.attestation.signature)?;
    }
    Ok(())
}

/// The bytes of the proposal's notarization by all members.
fn signed_by_all(alloc: Global, members: u8) -> Result<Vec<u8>, AllocError> {
    let mut bytes = Vec::new(alloc);
    bytes.extend_from_slice(&[0, 3, 172, 2, 171, 2])?;
    bytes.extend_from_slice(&[17; 32])?;
    bytes.push(members)?;
    for member in 0..members {
        sign(alloc, members, member, &mut bytes)?;
    }
    Ok(bytes)
}

fn encode_it(alloc: Global, certificate: &Certificate, times: u32) -> Result<u64, AllocError> {
    let mut written = 0u64;
    for _ in 0..times {
        written = written.saturating_add(certificate.encode(alloc)?.len() as u64);
    }
    Ok(written)
}

/// How many bytes all encodings have together.
pub fn encode(alloc: Global, size: u32, times: u32) -> Result<u64, AllocError> {
    let bytes = signed_by_all(alloc, members(size))?;
    match Certificate::decode(alloc, &bytes) {
        Ok(certificate) => encode_it(alloc, &certificate, times),
        Err(_) => Ok(0),
    }
}

/// The view that was read, or 0.
fn view_of(alloc: Global, bytes: &[u8]) -> u64 {
    match Certificate::decode(alloc, bytes) {
        Ok(certificate) => certificate.view().0,
        Err(_) => 0,
    }
}

/// The sum of the views that were read.
pub fn decode(alloc: Global, size: u32, times: u32) -> Result<u64, AllocError> {
    let bytes = signed_by_all(alloc, members(size))?;
    let mut views = 0u64;
    for _ in 0..times {
        views = views.saturating_add(view_of(alloc, &bytes));
    }
    Ok(views)
}

fn verify_it(certificate: &Certificate, scheme: &Keyed, times: u32) -> u64 {
    let mut verified = 0u64;
    for _ in 0..times {
        if certificate.verify(scheme) {
            verified = verified.saturating_add(1);
        }
    }
    verified
}

/// How often the certificate verified.
pub fn verify(alloc: Global, size: u32, times: u32) -> Result<u64, AllocError> {
    let members = members(size);
    let bytes = signed_by_all(alloc, members)?;
    let scheme = Keyed::new(alloc, KEY_BASE, u32::from(members), None)?;
    match Certificate::decode(alloc, &bytes) {
        Ok(certificate) => Ok(verify_it(&certificate, &scheme, times)),
        Err(_) => Ok(0),
    }
}
