//! A generator: it draws an event, and lets the network make it.
ghost use Rattle.std.specs.Prelude.{◌≡◌, [], IfOk, IfErr, OnOk, false};
ghost use Rattle.simplex_network.specs.Answer.{is_memory};
ghost use Rattle.simplex_generator.specs.Setup.{setup_of};
ghost use Rattle.simplex_generator.specs.Stands.{Generates, Draw, Drew, Makes, Refuses};

use crate::held::{all_held, running_nodes};
use crate::{Choice, Drawing, step_at};
use simplex_network::Network;
use simplex_transcript::{Event, RunError, Setup};
use std::alloc::{AllocError, Global};

/// A network that is given drawn events, and what they are drawn from. [gen-runs-twice]
#[derive(Drop)]
pub(crate) struct Generator {
    alloc: Global,
    network: Network,
    drawing: Drawing,
}

impl Generator {
    /// The number's generator, before any event.
    #[tactic(auto, using(crate::proofs::Steps::begins))]
    pub(crate) fn new(alloc: Global, number: u64, setup: &Setup) -> Result<Generator, RunError>
        ensures { IfOk result (λ generator. setup.now ≡ setup_of number
            → Generates generator number [] 0) }
    {
        Ok(Generator {
            alloc,
            network: Network::new(alloc, setup)?,
            drawing: Drawing::new(alloc, number),
        })
    }

    /// The next event.
    #[tactic(auto, using(crate::proofs::Steps::draws_event, crate::proofs::Steps::draws_delivery, crate::proofs::Steps::draws_step, crate::proofs::Steps::drew))]
    pub(crate) fn next_event(&mut self) -> Result<Event, AllocError>
        ensures event { IfOk result (Draw self.old) }
        ensures later { OnOk result (Drew self.old self.new) }
    {
        match self.drawing.choose() {
            Choice::Event(event) => Ok(event),
            Choice::Delivery(place) => {
                let running = running_nodes(self.alloc, &self.network)?;
                self.drawing.delivery_at(self.alloc, &running, place)
            }
            Choice::Step(place) => {
                let held = all_held(self.alloc, &self.network, self.drawing.clock())?;
                Ok(step_at(&held, place))
            }
        }
    }

    /// Lets the network make the event.
    #[tactic(auto, using(crate::proofs::Steps::makes, crate::proofs::Steps::refuses))]
    pub(crate) fn make(&mut self, event: &Event) -> Result<(), RunError>
        ensures made { OnOk result (Makes self.old self.new event.now) }
        ensures refused { IfErr result (λ error. is_memory error ≡ false
            → Refuses self.old event.now error) }
    {
        match self.network.apply(event) {
            Err(error) => Err(error),
            Ok(entry) => match self.drawing.take_in(event, &entry) {
                Ok(()) => Ok(()),
                Err(_) => Err(RunError::Memory),
            },
        }
    }
}
