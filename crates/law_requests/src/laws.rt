//! What holds of every run.
ghost use Rattle.std.specs.Prelude.{◌≡◌, ℕ, List, Some};
ghost use Rattle.std.specs.List.{slice_get};
ghost use Rattle.model_rules.specs.declared.request.Asked.{Asked};
ghost use Rattle.model_rules.specs.Lists.{greatest_of};
ghost use Rattle.model_rules.specs.Views.{least_active};
ghost use Rattle.model_rules.specs.Calls.{pruned_view};
ghost use Rattle.simplex_transcript.specs.declared.node.Node.{Node};
ghost use Rattle.model_steps.specs.VoterLife.{place_of};
ghost use Rattle.model_steps.specs.Engine.{voter_in, voter_past};
ghost use Rattle.model_run.specs.Life.{Noted};
ghost use Rattle.law_run.specs.Asked.{asked_of};
ghost use Rattle.law_requests.specs.Since.{dropped_of, answers_of};
ghost use Rattle.law_requests.specs.Open.{AreStanding, OfRunning};
ghost use Rattle.law_requests.specs.Named.{HasPlace};

/// Where the engine of a node runs, each open request of its voter stands at its number in what the node asked since its
/// start, and was not dropped since; and the answers that the voter has are those that were given since.
pub fn open_requests_stand()
    ensures stand { OfRunning (λ noted node made past. AreStanding
        (asked_of noted node) (dropped_of noted node)
        (place_of (voter_in made past) (voter_past past)).standing) }
    ensures answered { OfRunning (λ noted node made past.
        (place_of (voter_in made past) (voter_past past)).standing.answers
        ≡ answers_of noted node) }
{}

/// What a node asked at a number stands at a place, and both lead to each other.
pub fn numbers_have_places()
    ensures { (noted : List Noted) (node : Node) (number : ℕ) (asked : Asked)
        → slice_get (asked_of noted node) number ≡ Some asked
        → HasPlace noted node number asked }
{}

/// Where the engine of a node runs, the greatest view below which its voter pruned is the least active view.
pub fn prunes_reach_the_least_active_view()
    ensures { OfRunning (λ noted node made past.
        let known = (place_of (voter_in made past) (voter_past past)).standing.desk.known in
        greatest_of pruned_view known ≡ least_active (voter_in made past).rules known) }
{}
