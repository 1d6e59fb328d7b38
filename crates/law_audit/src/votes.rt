//! What votes rest on, and what a step of a voter does, told by what it took.
ghost use Rattle.law_audit.specs.Taken.{Takes, SameForAlike};
ghost use Rattle.law_member.specs.Learned.{facts_of_step};
ghost use Rattle.law_member.specs.VoterVotes.{votes_by_rule};
ghost use Rattle.model_audit.specs.Alike.{AreAlike, own_votes};
ghost use Rattle.model_audit.specs.Taking.{Taking, acted, votes_due};
ghost use Rattle.model_rules.specs.Calls.{takes_verdict};
ghost use Rattle.model_rules.specs.Known.{Made, Fact};
ghost use Rattle.model_rules.specs.Slot.{records_proposal, records_answer};
ghost use Rattle.model_rules.specs.Views.{current_of, least_active, admits_certificate};
ghost use Rattle.model_rules.specs.Votes.{notarize_at, finalize_at};
ghost use Rattle.model_steps.specs.Desk.{Doing};
ghost use Rattle.model_steps.specs.Voter.{Standing, stepped};
ghost use Rattle.simplex_messages.specs.declared.voter.VoterInput.{VoterInput};
ghost use Rattle.simplex_wire.specs.declared.certificate.Certificate.{Certificate};
ghost use Rattle.std.specs.Prelude.{ℕ, ◌≡◌, List, ◌++◌, Some};

/// Where two members know the same certificates, verdicts, own votes and proposals, they are in the same view, vote alike,
/// record the same proposals and answers, take the same verdicts, and keep the same views.
pub fn votes_rest_on_few_facts()
    ensures current { (made : Made) (a b : List Fact) → AreAlike a b
        → current_of made a ≡ current_of made b }
    ensures notarize { SameForAlike notarize_at }
    ensures finalize { SameForAlike finalize_at }
    ensures proposal { SameForAlike records_proposal }
    ensures answer { SameForAlike records_answer }
    ensures certificate { SameForAlike admits_certificate }
    ensures verdict { (a b : List Fact) (view : ℕ) → AreAlike a b
        → takes_verdict a view ≡ takes_verdict b view }
    ensures active { (made : Made) (a b : List Fact) → AreAlike a b
        → least_active made a ≡ least_active made b }
{}

/// Where two know alike, the same votes are due to what they take, and they know alike behind it.
pub fn votes_are_due_alike()
    ensures due { (made : Made) (a b : List Fact) (now : ℕ) (added : List Certificate) (taking : Taking) → AreAlike a b
        → votes_due made now a added taking ≡ votes_due made now b added taking }
    ensures known { (made : Made) (a b : List Fact) (now : ℕ) (added : List Certificate) (taking : Taking)
        → AreAlike a b
        → AreAlike (acted made now a added taking) (acted made now b added taking) }
{}

/// What a voter's step does is read from what it took: what is known behind it is alike to what the taking tells, with the
/// certificates that it added and the own votes that it appended; and the votes that are due are those of the rules.
pub fn steps_are_read()
    ensures known { (made : Made) (now : ℕ) (input : VoterInput) (standing : Standing) (doing : Doing) (taking : Taking)
        → Takes standing input taking
        → stepped made now standing input ≡ Some doing
        → AreAlike (own_votes (facts_of_step now doing.calls)
        ++ acted made now standing.desk.known doing.added taking) doing.desk.known }
    ensures votes { (made : Made) (now : ℕ) (input : VoterInput) (standing : Standing) (doing : Doing) (taking : Taking)
        → Takes standing input taking
        → stepped made now standing input ≡ Some doing
        → votes_due made now standing.desk.known doing.added taking
        ≡ votes_by_rule made now standing input }
{}
