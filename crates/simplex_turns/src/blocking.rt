//! Whom a batcher's steps block.
ghost use Rattle.std.specs.Prelude.{[], ◌∷◌, OnOk};
ghost use Rattle.simplex_turns.specs.Batching.{AlsoBlocks};

use simplex_messages::Call;
use simplex_types::Participant;
use std::alloc::AllocError;
use std::collections::BTreeSet;

/// The members that these calls block are among the blocked.
pub(crate) fn note_blocks(blocked: &mut BTreeSet<u32>, calls: &[Call]) -> Result<(), AllocError>
    ensures { OnOk result (AlsoBlocks calls.now blocked.old.keys blocked.new.keys) }
{
    for call in calls {
        note(blocked, call)?;
    }
    Ok(())
}

// The member that the call blocks, if it does, is among the blocked.
fn note(blocked: &mut BTreeSet<u32>, call: &Call) -> Result<(), AllocError>
    ensures { OnOk result (AlsoBlocks (call.now ∷ []) blocked.old.keys blocked.new.keys) }
{
    match call {
        Call::Block(member, _) => {
            blocked.insert(member.0)?;
            Ok(())
        }
        _ => Ok(()),
    }
}
