//! What a step hands on is put into the mailboxes of the batcher and the resolver.
ghost use Rattle.std.specs.Prelude.{OnOk, ◌∷◌, []};
ghost use Rattle.std.specs.List.{filter_map};
ghost use Rattle.simplex_mailbox.specs.Post.{Posted};
ghost use Rattle.model_steps.specs.Engine.{for_batcher, for_resolver};

use simplex_mailbox::Post;
use simplex_messages::{Handed, batcher, resolver};
use simplex_types::Keep;
use std::alloc::{AllocError, Global};

// A copy of the message is put where it is for, if that is the batcher or the resolver.
fn post<B: Post<batcher::Message>, R: Post<resolver::MailboxMessage>>(
    alloc: Global,
    message: &Handed,
    batcher: &mut B,
    resolver: &mut R,
) -> Result<(), AllocError>
    ensures batcher { OnOk result (Posted B.puts batcher.old
        (filter_map for_batcher (message.now ∷ [])) batcher.new) }
    ensures resolver { OnOk result (Posted R.puts resolver.old
        (filter_map for_resolver (message.now ∷ [])) resolver.new) }
{
    match message {
        Handed::Batcher(message) => {
            batcher.enqueue(message.keep(alloc)?)?;
        }
        Handed::Resolver(message) => {
            resolver.enqueue(message.keep(alloc)?)?;
        }
        Handed::Voter(_) | Handed::Handler(_) => {}
    }
    Ok(())
}

/// A copy of each message is put where it is for, in order.
pub(crate) fn post_all<B: Post<batcher::Message>, R: Post<resolver::MailboxMessage>>(
    alloc: Global,
    handed: &[Handed],
    batcher: &mut B,
    resolver: &mut R,
) -> Result<(), AllocError>
    ensures batcher { OnOk result (Posted B.puts batcher.old
        (filter_map for_batcher handed.now) batcher.new) }
    ensures resolver { OnOk result (Posted R.puts resolver.old
        (filter_map for_resolver handed.now) resolver.new) }
{
    for message in handed {
        post(alloc, message, batcher, resolver)?;
    }
    Ok(())
}
