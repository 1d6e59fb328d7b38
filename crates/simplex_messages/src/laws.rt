//! What follows from the policies alone, whatever comes and goes.
ghost use Rattle.std.specs.Prelude.{◌≡◌, ◌++◌, ◌∷◌, [], false, List, filter, All};
ghost use Rattle.simplex_mailbox.specs.Waiting.{Waiting};
ghost use Rattle.simplex_messages.specs.declared.batcher.Message as batcher;
ghost use Rattle.simplex_messages.specs.declared.voter.Message as voter;
ghost use Rattle.simplex_messages.specs.declared.resolver.MailboxMessage.{MailboxMessage};
ghost use Rattle.simplex_messages.specs.Policies.{voter_view, is_final_for_voter, stands_for_voter, voter_handled, resolver_view, is_final_for_resolver, is_replayed, stands_for_resolver, resolver_handled, is_needless, stands_for_batcher, batcher_handled};
ghost use Rattle.simplex_messages.specs.Turns.{Turn, waits_after, FinalityRules, NoneTwice};

/// While a finalization waits, nothing at or below its view waits beside it but a Replayed.
pub fn finality_rules()
    ensures voter { (turns : List (Turn voter.Message))
        → FinalityRules voter_view is_final_for_voter
        (λ _. false) (waits_after voter_handled (λ _. false) turns) }
    ensures resolver { (turns : List (Turn MailboxMessage)) → FinalityRules
        resolver_view is_final_for_resolver is_replayed
        (waits_after resolver_handled (λ _. false) turns) }
{}

/// No message makes a Replayed go that waits: those wait that waited before, and the one that came.
pub fn replayed_survives()
    ensures { (waiting : Waiting MailboxMessage) (message : MailboxMessage) → filter is_replayed
        (resolver_handled waiting message).rest
        ≡ filter is_replayed (waiting.rest ++ message ∷ []) }
{}

/// While an update waits, no vote waits beside it that it makes needless.
pub fn update_rules()
    ensures { (turns : List (Turn batcher.Message)) → let waiting = waits_after batcher_handled (λ _. false) turns in
        All (λ queued. is_needless waiting.place queued ≡ false) waiting.rest }
{}

/// No message waits for which an earlier one stands.
pub fn none_waits_twice()
    ensures voter { (turns : List (Turn voter.Message))
        → NoneTwice stands_for_voter (waits_after voter_handled (λ _. false) turns) }
    ensures resolver { (turns : List (Turn MailboxMessage))
        → NoneTwice stands_for_resolver (waits_after resolver_handled (λ _. false) turns) }
    ensures batcher { (turns : List (Turn batcher.Message))
        → NoneTwice stands_for_batcher (waits_after batcher_handled (λ _. false) turns) }
{}
