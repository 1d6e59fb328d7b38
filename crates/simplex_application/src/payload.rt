//! Payloads by their texts.
ghost use Rattle.std.specs.Prelude.{◌≡◌, ◌++◌, IfOk, OnOk};
ghost use Rattle.sha2.specs.Sha256.{sha256};
ghost use Rattle.model_faults.specs.Payload.{payload_text};
ghost use Rattle.simplex_application.specs.Application.{is_asked};

use sha2::{Digest as Hash, Sha256};
use simplex_types::{Bytes, Context, Digest, Round};
use simplex_wire::push_number;
use std::alloc::{AllocError, Global};

/// The text of a payload: its round, the digest of its parent, and a word.
#[tactic(auto, using(simplex_types::proofs::Spellings::round_spelling))]
pub(crate) fn payload_contents(
    alloc: Global,
    round: &Round,
    parent: &Digest,
    word: u64,
) -> Result<Bytes, AllocError>
    ensures { IfOk result (λ contents. contents ≡ payload_text round.now parent.now word) }
{
    let mut bytes = Vec::new(alloc);
    push_number(&mut bytes, round.epoch.0)?;
    push_number(&mut bytes, round.view.0)?;
    bytes.extend_from_slice(&parent.0)?;
    bytes.extend_from_slice(&word.to_be_bytes())?;
    Ok(Bytes::from_vec(bytes))
}

/// The digest of the contents.
pub(crate) fn digest_of(contents: &[u8]) -> Digest
    ensures { result ≡ sha256 contents.now }
{
    Digest(Sha256::digest(contents))
}

/// Whether the contents are the text of a payload for the context, with whatever word.
#[tactic(auto, unfolding(crate::specs::Application::is_asked))]
pub(crate) fn is_asked(
    alloc: Global,
    context: &Context,
    contents: &[u8],
) -> Result<bool, AllocError>
    ensures { IfOk result (λ asked. asked ≡ is_asked context.now contents.now) }
{
    let Some((_, word)) = contents.split_last_chunk::<8>() else {
        return Ok(false);
    };
    let parent = &context.parent.payload;
    let text = payload_contents(alloc, &context.round, parent, u64::from_be_bytes(*word))?;
    Ok(contents == text.as_slice())
}
