//! What follows from the definitions alone.
ghost use Rattle.std.specs.Prelude.{◌≡◌, ◌≤◌, ◌<◌, ℕ, length};
ghost use Rattle.simplex_values.specs.declared.feedback.Feedback.{Feedback};
ghost use Rattle.simplex_values.specs.declared.feedback.Feedback.TheVariants as feedback;
ghost use Rattle.simplex_wire.specs.declared.vote.Vote.{Vote};
ghost use Rattle.simplex_wire.specs.declared.certificate.Certificate.{Certificate};
ghost use Rattle.simplex_wire.specs.declared.resolver.ResolverBody.TheVariants.{Request, Response, Error};
ghost use Rattle.simplex_wire.specs.Fields.{certificate_signatures};
ghost use Rattle.simplex_wire.specs.Fits.{FitsVote, FitsCertificate};
ghost use Rattle.simplex_wire.specs.Message.{vote, certificate};
ghost use Rattle.simplex_wire.specs.ResolverMessage.{resolver_message};
ghost use Rattle.simplex_report.specs.Combined.{worse};
ghost use Rattle.simplex_report.specs.Limit.{longest_payload};

/// The worse of several answers is the same in every order and in every grouping. `Ok` changes no other answer,
/// behind `Closed` nothing is worse, and an answer beside itself stays.
#[tactic(auto, unfolding(crate::specs::Combined::worse))]
pub fn order_of_answers_does_not_matter()
    ensures order { (a b : Feedback) → worse a b ≡ worse b a }
    ensures grouping { (a b c : Feedback) → worse (worse a b) c ≡ worse a (worse b c) }
    ensures same { (a : Feedback) → worse a a ≡ a }
    ensures least { (a : Feedback) → worse feedback.Ok a ≡ a }
    ensures greatest { (a : Feedback) → worse feedback.Closed a ≡ feedback.Closed }
{}

/// Among n members, at least one and at most 1,024, no vote is longer than the limit, no certificate of at
/// most n attestations, no request and no error, and no response that carries such a certificate.
#[tactic(auto, using(crate::proofs::Lengths::vote_within))]
pub fn no_payload_is_longer()
    ensures votes { (n : ℕ) (v : Vote) → 0 < n → FitsVote v
        → length (vote.spelling v) ≤ longest_payload n }
    ensures certificates { (n : ℕ) (c : Certificate) → n ≤ 1024 → length (certificate_signatures c) ≤ n
        → FitsCertificate c → length (certificate.spelling c) ≤ longest_payload n }
    ensures requests { (n id view : ℕ)
        → length (resolver_message.spelling
        (record { id = id; body = Request view })) ≤ longest_payload n }
    ensures errors { (n id : ℕ)
        → length (resolver_message.spelling
        (record { id = id; body = Error })) ≤ longest_payload n }
    ensures responses { (n id : ℕ) (c : Certificate) → n ≤ 1024 → length (certificate_signatures c) ≤ n
        → FitsCertificate c
        → length (resolver_message.spelling
        (record { id = id; body = Response (certificate.spelling c) }))
        ≤ longest_payload n }
{}
