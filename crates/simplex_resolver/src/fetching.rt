//! Calls of the fetcher, with what it wants.
ghost use Rattle.std.specs.Prelude.{◌<◌, ◌^◌, ◌∷◌, [], map, OnOk, Some, None};
ghost use Rattle.model_resolver.specs.Fetcher.{of_all, of_target};
ghost use Rattle.model_resolver.specs.Resolver.{ancestry, judging, hearing, expiring, retiring, fetching};
ghost use Rattle.simplex_resolver.specs.Stands.{Does};

use crate::actor::Actor;
use crate::work::Work;
use simplex_fetch::{Fetch, Retire};
use simplex_types::{Ask, Kind, Outcome, Participant, Scheme, View};
use std::alloc::AllocError;

impl<S: Scheme + Drop> Actor<S> {
    /// Nothing is done where the fetcher has no numbers left. [resolver-runs-out]
    fn want_room(&self) -> Result<(), AllocError>
        ensures { OnOk result ((self.now.fetcher.next_id < 2 ^ 62)
            × (self.now.fetcher.next_serve < 2 ^ 62)) }
    {
        if self.fetcher.has_room() {
            Ok(())
        } else {
            Err(AllocError)
        }
    }

    /// What became of the answer that was delivered under this number.
    #[tactic(auto, unfolding(model_resolver::specs::Resolver::judging))]
    pub(crate) fn judge(
        &mut self,
        id: u64,
        verdict: Option<Outcome>,
        now: u64,
        work: &mut Work,
    ) -> Result<(), AllocError>
        requires clock { now < 2 ^ 63 }
        ensures { OnOk result (Does self.old work.old self.new work.new
            (λ made. judging now id verdict)) }
    {
        self.want_room()?;
        let outs = self.fetcher.verdict(self.alloc, id, verdict, now)?;
        self.mind_each(outs, work)?;
        Ok(())
    }

    /// Bytes of a peer.
    #[tactic(auto, unfolding(model_resolver::specs::Resolver::hearing))]
    pub(crate) fn hear(
        &mut self,
        sender: Participant,
        bytes: &[u8],
        now: u64,
        work: &mut Work,
    ) -> Result<(), AllocError>
        requires clock { now < 2 ^ 63 }
        ensures { OnOk result (Does self.old work.old self.new work.new
            (λ made. hearing sender bytes.now now)) }
    {
        self.want_room()?;
        let outs = self.fetcher.hear(self.alloc, sender, bytes, now)?;
        self.mind_each(outs, work)?;
        Ok(())
    }

    /// The fetcher's deadline may be reached.
    #[tactic(auto, unfolding(model_resolver::specs::Resolver::expiring))]
    pub(crate) fn expire(&mut self, now: u64, work: &mut Work) -> Result<(), AllocError>
        requires clock { now < 2 ^ 63 }
        ensures { OnOk result (Does self.old work.old self.new work.new (λ made. expiring now)) }
    {
        self.want_room()?;
        let outs = self.fetcher.expire(self.alloc, now)?;
        self.mind_each(outs, work)?;
        Ok(())
    }

    /// These asks are done with.
    #[tactic(auto, unfolding(model_resolver::specs::Resolver::retiring))]
    pub(crate) fn retire(&mut self, retire: &Retire, work: &mut Work) -> Result<(), AllocError>
        ensures { OnOk result (Does self.old work.old self.new work.new
            (λ made. retiring retire.now)) }
    {
        let outs = self.fetcher.retain(self.alloc, retire)?;
        self.mind_each(outs, work)?;
        Ok(())
    }

    /// These are asked for, of any member. [gaps-in-order]
    #[tactic(auto, unfolding(model_resolver::specs::Resolver::fetching))]
    pub(crate) fn fetch_all(
        &mut self,
        fetches: Vec<Fetch>,
        now: u64,
        work: &mut Work,
    ) -> Result<(), AllocError>
        requires clock { now < 2 ^ 63 }
        ensures { OnOk result (Does self.old work.old self.new work.new
            (λ made. fetching (map of_all fetches.items) now)) }
    {
        self.want_room()?;
        let outs = self.fetcher.fetch_all(self.alloc, fetches, now)?;
        self.mind_each(outs, work)?;
        Ok(())
    }

    /// A proposal's ancestry is asked for, of the target alone where there is one.
    pub(crate) fn fetch_ancestry(
        &mut self,
        view: View,
        kind: Kind,
        target: Option<Participant>,
        now: u64,
        work: &mut Work,
    ) -> Result<(), AllocError>
        requires clock { now < 2 ^ 63 }
        ensures { OnOk result (Does self.old work.old self.new work.new
            (λ made. fetching (ancestry view kind target ∷ []) now)) }
    {
        let fetch = Fetch {
            view,
            ask: Ask::ancestry(kind),
        };
        match target {
            None => self.fetch_any(fetch, now, work),
            Some(target) => self.fetch_target(fetch, target, now, work),
        }
    }

    /// This is asked for, of any member.
    #[tactic(auto, unfolding(model_resolver::specs::Resolver::fetching))]
    fn fetch_any(&mut self, fetch: Fetch, now: u64, work: &mut Work) -> Result<(), AllocError>
        requires clock { now < 2 ^ 63 }
        ensures { OnOk result (Does self.old work.old self.new work.new
            (λ made. fetching (of_all fetch ∷ []) now)) }
    {
        self.want_room()?;
        let outs = self.fetcher.fetch(self.alloc, fetch, now)?;
        self.mind_each(outs, work)?;
        Ok(())
    }

    /// This is asked for, of the target alone.
    #[tactic(auto, unfolding(model_resolver::specs::Resolver::fetching))]
    fn fetch_target(
        &mut self,
        fetch: Fetch,
        target: Participant,
        now: u64,
        work: &mut Work,
    ) -> Result<(), AllocError>
        requires clock { now < 2 ^ 63 }
        ensures { OnOk result (Does self.old work.old self.new work.new
            (λ made. fetching (of_target fetch target ∷ []) now)) }
    {
        self.want_room()?;
        let outs = self.fetcher.fetch_targeted(self.alloc, fetch, target, now)?;
        self.mind_each(outs, work)?;
        Ok(())
    }
}
