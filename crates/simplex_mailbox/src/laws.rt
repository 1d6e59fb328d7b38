//! What follows from the definitions alone, for every policy.
ghost use Rattle.std.specs.Prelude.{◌≡◌, ℕ, ◌+◌, ◌<◌, ◌≤◌, ◌++◌, List, length, filter, not, Option};
ghost use Rattle.std.specs.Option.{option_to_list};
ghost use Rattle.simplex_mailbox.specs.Waiting.{Waiting, nothing, in_turn, drained, undrained};
ghost use Rattle.simplex_mailbox.specs.Mail.{Mail, all_enqueued};
ghost use Rattle.simplex_mailbox.specs.Post.{Posted};

use crate::held::Held;
use crate::mailbox::Mailbox;
use crate::policy::Policy;
use crate::post::Post;

/// Where there is room for all that goes, the place goes first, then the rest in order of arrival without
/// what is skipped. Where there is more room, nothing waits on.
pub fn all_goes_in_turn<M: Policy>()
    ensures goes { (waiting : Waiting M) (room : ℕ) → length (in_turn M.is_skipped waiting) ≤ room
        → drained M.is_skipped room waiting ≡ option_to_list waiting.place
        ++ filter (λ message. not (M.is_skipped message)) waiting.rest }
    ensures nothing_is_left { (waiting : Waiting M) (room : ℕ)
        → length (in_turn M.is_skipped waiting) < room
        → undrained M.is_skipped room waiting ≡ nothing }
{}

/// Once the place went, nothing of it is remembered: what waits on is what waits on without it.
pub fn place_is_forgotten<M: Policy>()
    ensures { (first : M) (rest : List M) (room : ℕ)
        → undrained M.is_skipped (room + 1) (record { place = Option.Some first; rest = rest })
        ≡ undrained M.is_skipped room (record { place = Option.None; rest = rest }) }
{}

/// What goes and what waits on is, message for message, what waited: none is lost, doubled or moved.
pub fn order_is_kept<M: Policy>()
    ensures { (waiting : Waiting M) (room : ℕ) → drained M.is_skipped room waiting
        ++ in_turn M.is_skipped (undrained M.is_skipped room waiting)
        ≡ in_turn M.is_skipped waiting }
{}

/// Messages that were put in a mailbox one by one make of it what the definition says of all of them.
pub fn posted_are_enqueued<M: Policy>()
    ensures { (before : Mail M) (messages : List M) (after : Mail M)
        → Posted ⟦<Mailbox<M> as Post<M>>⟧.puts before messages after
        → after ≡ all_enqueued M.handle before messages }
{}

/// Messages that were held back one by one stand behind those that were before.
pub fn posted_are_held<M: Drop>()
    ensures { (before : List M) (messages : List M) (after : List M)
        → Posted ⟦<Held<M> as Post<M>>⟧.puts before messages after → after ≡ before ++ messages }
{}
