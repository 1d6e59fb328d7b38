//! What a step has done so far.
ghost use Rattle.std.specs.Prelude.{◌≡◌, ◌++◌, ◌∷◌, [], OnOk};
ghost use Rattle.simplex_messages.specs.declared.call.Call.TheVariants.{Block};
ghost use Rattle.model_resolver.specs.Sends.{sending, placed};

use crate::sends::Sends;
use model_resolver::Sending;
use simplex_messages::{Call, Handed};
use simplex_types::{BlockCause, Bytes, Participant, Sequence};
use std::alloc::{AllocError, Global};

/// What a step has done so far: the messages that it hands on, the members that it blocks, and its sends.
#[derive(Drop)]
pub(crate) struct Work {
    pub(crate) handed: Sequence<Handed>,
    pub(crate) blocks: Sequence<Call>,
    pub(crate) sends: Sends,
}

impl Work {
    /// Nothing yet.
    pub(crate) fn new(alloc: Global) -> Work
        ensures { result ≡ record { handed = []; blocks = []; sends = [] } }
    {
        Work {
            handed: Sequence::new(alloc),
            blocks: Sequence::new(alloc),
            sends: Sends::new(alloc),
        }
    }

    /// A message is handed on.
    pub(crate) fn hand(&mut self, message: Handed) -> Result<(), AllocError>
        ensures { OnOk result (self.new
            ≡ record self.old { handed = self.old.handed ++ message ∷ [] }) }
    {
        self.handed.push(message)?;
        Ok(())
    }

    /// The member is blocked, for this cause.
    pub(crate) fn block(&mut self, member: Participant, cause: BlockCause) -> Result<(), AllocError>
        ensures { OnOk result (self.new
            ≡ record self.old { blocks = self.old.blocks ++ Block member cause ∷ [] }) }
    {
        self.blocks.push(Call::Block(member, cause))?;
        Ok(())
    }

    /// The bytes are sent to the member.
    pub(crate) fn send(
        &mut self,
        alloc: Global,
        to: Participant,
        bytes: Bytes,
    ) -> Result<(), AllocError>
        ensures { OnOk result (self.new
            ≡ record self.old { sends = placed (sending to bytes) self.old.sends }) }
    {
        let sent = Sending::new(alloc, to, bytes)?;
        self.sends.place(sent)?;
        Ok(())
    }
}
