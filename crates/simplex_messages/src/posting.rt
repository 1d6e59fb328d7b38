//! Messages of a step go to the voter's mailbox.
ghost use Rattle.std.specs.Prelude.{List, filter_map, OnOk};
ghost use Rattle.std.specs.List.{cons_option};
ghost use Rattle.simplex_mailbox.specs.Post.{Posted};
ghost use Rattle.simplex_messages.specs.declared.voter.Message.{Message};
ghost use Rattle.simplex_messages.specs.Handing.{for_voter};

use crate::{Handed, voter};
use simplex_mailbox::Post;
use simplex_types::Keep;
use std::alloc::{AllocError, Global};

/// A copy of the message, where it is for the voter, is put into its mailbox.
fn post_one<V: Post<voter::Message>>(
    alloc: Global,
    message: &Handed,
    post: &mut V,
) -> Result<(), AllocError>
    // What is posted behind it is posted behind its copy.
    ensures { OnOk result ((rest : List Message) (after : V)
        → Posted V.puts post.new rest after
        → Posted V.puts post.old (cons_option (for_voter message.now) rest) after) }
{
    match message {
        Handed::Voter(message) => {
            let copy = message.keep(alloc)?;
            post.enqueue(copy)?;
            Ok(())
        }
        _ => Ok(()),
    }
}

/// Copies of the messages for the voter are put into its mailbox, in their order. For want of memory a first part of them
/// may have been.
pub fn post_to_voter<V: Post<voter::Message>>(
    alloc: Global,
    handed: &[Handed],
    post: &mut V,
) -> Result<(), AllocError>
    ensures { OnOk result (Posted V.puts post.old (filter_map for_voter handed.now) post.new) }
{
    for message in handed {
        post_one(alloc, message, post)?;
    }
    Ok(())
}
