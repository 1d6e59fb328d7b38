//! A round: one view's votes, evidence and certificates.
#![tactic(auto, unfolding(crate::specs::Stands::StandsFor, crate::specs::Calls::known_after, crate::specs::Calls::after_call))]

ghost use Rattle.std.specs.Prelude.{◌≡◌, ◌++◌, [], OnOk, OnErr, IfOk, None, Some, true, false, nat_lt, ◌||◌};
ghost use Rattle.simplex_round.specs.Votes.{vote_kind, vote_signer};
ghost use Rattle.simplex_round.specs.Known.{ballot_of, side_of, with_side, nothing_known};
ghost use Rattle.simplex_round.specs.Acceptance.{with_accepted, accused, heard, heard_from, has_nullify};
ghost use Rattle.simplex_round.specs.Forwarding.{is_held, after_certificate, leader_proposal, proposal_of, gives_proposal, forwarded_to_voter, is_missing_voter, missing_voters};
ghost use Rattle.simplex_round.specs.Assembly.{scheme_by, batch_of, work_of, work_if_any, after_work, after_assembly, constructed, subject_of};
ghost use Rattle.simplex_round.specs.Ballots.{marked};
ghost use Rattle.std.specs.Option.{option_map, is_some};
ghost use Rattle.simplex_round.specs.Calls.{AddNetwork, AcceptVote, SetLeader, RecordCertificate, TryConstruct, TryForward};
ghost use Rattle.simplex_round.specs.Stands.{StandsFor, Takes, Stays, Answers, AddsReports, AddsBlocks, AddsInPart, AddsAllOrNothing};

use crate::accused::Accused;
use crate::assembly::assemble;
use crate::ballots::Ballots;
use crate::batch::{Batch, RoundOut};
use crate::evidence::Evidence;
use crate::votes::{self, activity_of, is_another, is_same_subject};
use simplex_types::BlockCause;
use simplex_values::{Keep, Participant, Proposal, Round as ViewRound, Subject};
use simplex_wire::{
    Certificate, CertificateKind, Finalization, Notarization, Nullification, Scheme, Vote,
};
use std::alloc::{AllocError, Global};
use std::marker::Model;

/// The votes of one view, the evidence that they give and the certificates that they make.
#[derive(Debug, Drop)]
pub struct Round {
    pub(crate) round: ViewRound,
    pub(crate) members: u32,
    pub(crate) quorum: u32,
    pub(crate) is_skipped: bool,
    pub(crate) leader: Option<Participant>,
    pub(crate) notarizes: Ballots,
    pub(crate) others: Ballots,
    pub(crate) accused: Accused,
    pub(crate) notarization: Option<Notarization>,
    pub(crate) nullification: Option<Nullification>,
    pub(crate) finalization: Option<Finalization>,
    pub(crate) was_forwarded: bool,
}

impl Model for Round {
    ghost use Rattle.simplex_round.specs.Known.{Standing};

    ghost Value = { Standing };

    ghost view = { λ r. record {
      made = record { round = r.round; members = r.members; quorum = r.quorum; skipped = r.is_skipped };
      known = record {
        notarizes = r.notarizes;
        others = r.others;
        given = r.accused;
        notarization = r.notarization;
        nullification = r.nullification;
        finalization = r.finalization;
        leader = r.leader;
        forwarded = r.was_forwarded;
      };
    } };
}

impl Round {
    /// A round of `n` members, of whom `q` make a quorum. It answers the same whether votes are tracked.
    pub fn new(
        alloc: Global,
        round: ViewRound,
        n: u32,
        q: u32,
        _track: bool,
    ) -> Result<Round, AllocError>
        ensures { IfOk result (λ made. StandsFor made
            (record { round = round; members = n; quorum = q; skipped = false }) []) }
    {
        Ok(Round::empty(alloc, round, n, q, false))
    }

    /// A round of `n` members that never assembles a certificate. [skipped-rounds]
    pub fn skipped(alloc: Global, round: ViewRound, n: u32) -> Result<Round, AllocError>
        ensures { IfOk result (λ made. StandsFor made
            (record { round = round; members = n; quorum = 0; skipped = true }) []) }
    {
        Ok(Round::empty(alloc, round, n, 0, true))
    }

    fn empty(alloc: Global, round: ViewRound, n: u32, q: u32, is_skipped: bool) -> Round
        ensures { result ≡ record {
          made = record { round = round; members = n; quorum = q; skipped = is_skipped };
          known = nothing_known;
        } }
    {
        Round {
            round,
            members: n,
            quorum: q,
            is_skipped,
            leader: None,
            notarizes: Ballots::new(alloc),
            others: Ballots::new(alloc),
            accused: Accused::new(alloc),
            notarization: None,
            nullification: None,
            finalization: None,
            was_forwarded: false,
        }
    }

    /// Takes a vote from the network: whether it is accepted. A sender that is not its signer is blocked. For
    /// want of memory the round stays as it was, and `out` may have what was to be reported or blocked.
    #[tactic(auto, unfolding(crate::specs::Stands::StandsFor, crate::specs::Calls::known_after, crate::specs::Calls::after_call, crate::specs::Acceptance::heard_from))]
    pub fn add_network(
        &mut self,
        sender: Participant,
        vote: Vote,
        out: &mut RoundOut,
    ) -> Result<bool, AllocError>
        ensures stands { OnOk result (Takes self.old self.new (AddNetwork sender vote)) }
        ensures answer { IfOk result (Answers self.old
            (λ made known. (heard_from known sender vote).accepted)) }
        ensures reports { OnOk result (AddsReports self.old out.old out.new
            (λ known. heard_from known sender vote)) }
        ensures blocks { OnOk result (AddsBlocks self.old out.old out.new
            (λ known. heard_from known sender vote)) }
        ensures in_part { OnErr result (AddsInPart self.old out.old out.new
            (λ known. heard_from known sender vote)) }
        ensures err { OnErr result (Stays self.old self.new) }
    {
        if vote.signer() != sender {
            out.blocks.push((sender, BlockCause::WrongSender))?;
            return Ok(false);
        }
        self.hear(vote, out)
    }

    /// Takes an own vote, which has no sender. For want of memory the round stays as it was, and `out` may have
    /// what was to be reported or blocked. [round-stays]
    pub fn accept_vote(&mut self, vote: Vote, out: &mut RoundOut) -> Result<(), AllocError>
        ensures stands { OnOk result (Takes self.old self.new (AcceptVote vote)) }
        ensures reports { OnOk result (AddsReports self.old out.old out.new
            (λ known. heard known vote)) }
        ensures blocks { OnOk result (AddsBlocks self.old out.old out.new
            (λ known. heard known vote)) }
        ensures in_part { OnErr result (AddsInPart self.old out.old out.new
            (λ known. heard known vote)) }
        ensures err { OnErr result (Stays self.old self.new) }
    {
        let _accepted = self.hear(vote, out)?;
        Ok(())
    }

    /// Takes the leader of the view.
    pub fn set_leader(&mut self, leader: Participant)
        ensures { Takes self.old self.new (SetLeader leader) }
    {
        self.leader = Some(leader);
    }

    /// Whether a certificate of the kind is held.
    pub fn has_certificate(&self, kind: CertificateKind) -> bool
        ensures { Answers self.now (λ made known. is_held known kind) result }
    {
        self.holds(kind)
    }

    /// Whether a nullify of the member was accepted.
    #[tactic(auto, unfolding(crate::specs::Stands::StandsFor, crate::specs::Acceptance::has_nullify))]
    pub fn has_nullify(&self, member: Participant) -> bool
        ensures { Answers self.now (λ made known. has_nullify known member) result }
    {
        match self.others.get(member) {
            None => false,
            Some(ballot) => ballot.vote.kind() == CertificateKind::Nullification,
        }
    }

    pub(crate) fn holds(&self, kind: CertificateKind) -> bool
        ensures { result ≡ is_held self.now.known kind }
    {
        match kind {
            CertificateKind::Notarization => self.notarization.is_some(),
            CertificateKind::Nullification => self.nullification.is_some(),
            CertificateKind::Finalization => self.finalization.is_some(),
        }
    }

    /// The accepted votes among which a member has one at most.
    pub(crate) fn side(&self, kind: CertificateKind) -> &Ballots
        ensures { result.now ≡ side_of self.now.known kind }
    {
        match kind {
            CertificateKind::Notarization => &self.notarizes,
            CertificateKind::Nullification | CertificateKind::Finalization => &self.others,
        }
    }

    /// Takes a vote whose sender is its signer, or that is an own one.
    #[tactic(auto, unfolding(crate::specs::Acceptance::heard, crate::specs::Acceptance::heard_beside, crate::specs::Acceptance::accused))]
    fn hear(&mut self, vote: Vote, out: &mut RoundOut) -> Result<bool, AllocError>
        ensures known { OnOk result (self.new
            ≡ record self.old { known = (heard self.old.known vote).known }) }
        ensures answer { IfOk result (λ accepted. accepted ≡ (heard self.old.known vote).accepted) }
        ensures reports { OnOk result (out.new.reports
            ≡ out.old.reports ++ (heard self.old.known vote).reports) }
        ensures blocks { OnOk result (out.new.blocks
            ≡ out.old.blocks ++ (heard self.old.known vote).blocks) }
        ensures some_reports { OnErr result
            (AddsAllOrNothing (heard self.old.known vote).reports out.old.reports out.new.reports) }
        ensures some_blocks { OnErr result
            (AddsAllOrNothing (heard self.old.known vote).blocks out.old.blocks out.new.blocks) }
        ensures err { OnErr result (self.new ≡ self.old) }
    {
        let Some(accepted) = self.side(vote.kind()).get(vote.signer()) else {
            out.reports.push(activity_of(&vote))?;
            self.accept(vote)?;
            return Ok(true);
        };
        if let Some(evidence) = Evidence::of(&accepted.vote, &vote) {
            self.accuse(vote.signer(), evidence, out)?;
        }
        Ok(false)
    }

    /// Puts a vote to those that are accepted. Its signer has none there.
    #[tactic(auto, unfolding(crate::specs::Acceptance::with_accepted))]
    fn accept(&mut self, vote: Vote) -> Result<(), AllocError>
        requires { ballot_of (side_of self.old.known (vote_kind vote)) (vote_signer vote) ≡ None }
        ensures known { OnOk result (self.new
            ≡ record self.old { known = with_accepted self.old.known vote }) }
        ensures err { OnErr result (self.new ≡ self.old) }
    {
        match vote.kind() {
            CertificateKind::Notarization => self.notarizes.accept(vote),
            CertificateKind::Nullification | CertificateKind::Finalization => {
                self.others.accept(vote)
            }
        }
    }

    /// Gives evidence against the signer and blocks it, once for each kind. [evidence-once-a-round]
    #[tactic(auto, unfolding(crate::specs::Acceptance::accused))]
    fn accuse(
        &mut self,
        signer: Participant,
        evidence: Evidence,
        out: &mut RoundOut,
    ) -> Result<(), AllocError>
        ensures known { OnOk result (self.new
            ≡ record self.old { known = (accused self.old.known signer (Some evidence)).known }) }
        ensures reports { OnOk result (out.new.reports
            ≡ out.old.reports ++ (accused self.old.known signer (Some evidence)).reports) }
        ensures blocks { OnOk result (out.new.blocks
            ≡ out.old.blocks ++ (accused self.old.known signer (Some evidence)).blocks) }
        ensures some_reports { OnErr result
            (AddsAllOrNothing
            (accused self.old.known signer
            (Some evidence)).reports out.old.reports out.new.reports) }
        ensures some_blocks { OnErr result
            (AddsAllOrNothing
            (accused self.old.known signer (Some evidence)).blocks out.old.blocks out.new.blocks) }
        ensures err { OnErr result (self.new ≡ self.old) }
    {
        if self.accused.has(&evidence) {
            return Ok(());
        }
        out.reports.push(evidence.activity())?;
        out.blocks.push((signer, evidence.cause()))?;
        self.accused.add(&evidence)
    }

    // ---- certificates and the proposal

    /// Takes a certificate: whether it gives the round its first proposal, or another than before. Where one of
    /// its kind is held nothing changes. [held-certificate-stays]
    #[tactic(auto, unfolding(crate::specs::Stands::StandsFor, crate::specs::Calls::known_after, crate::specs::Calls::after_call, crate::specs::Forwarding::gives_proposal))]
    pub fn record_certificate(
        &mut self,
        alloc: Global,
        certificate: &Certificate,
    ) -> Result<bool, AllocError>
        ensures stands { OnOk result (Takes self.old self.new (RecordCertificate certificate.now)) }
        ensures answer { IfOk result (Answers self.old
            (λ made known. gives_proposal known certificate.now)) }
        ensures err { OnErr result (Stays self.old self.new) }
    {
        let before = self.proposal();
        self.hold(certificate.keep(alloc)?);
        Ok(is_another(before, self.proposal()))
    }

    /// Holds the certificate, unless one of its kind is held.
    fn hold(&mut self, certificate: Certificate)
        ensures { self.new ≡ record self.old { known = after_certificate self.old.known certificate } }
    {
        match certificate {
            Certificate::Notarization(it) => {
                if self.notarization.is_none() {
                    self.notarization = Some(it);
                }
            }
            Certificate::Nullification(it) => {
                if self.nullification.is_none() {
                    self.nullification = Some(it);
                }
            }
            Certificate::Finalization(it) => {
                if self.finalization.is_none() {
                    self.finalization = Some(it);
                }
            }
        }
    }

    /// The round's proposal.
    #[tactic(auto, unfolding(crate::specs::Forwarding::proposal_of))]
    fn proposal(&self) -> Option<Proposal>
        ensures { result ≡ proposal_of self.now.known }
    {
        if let Some(it) = &self.notarization {
            return Some(it.proposal);
        }
        if let Some(it) = &self.finalization {
            return Some(it.proposal);
        }
        self.leader_proposal()
    }

    /// The proposal of the leader's notarize.
    #[tactic(auto, unfolding(crate::specs::Forwarding::leader_proposal))]
    fn leader_proposal(&self) -> Option<Proposal>
        ensures { result ≡ leader_proposal self.now.known }
    {
        let ballot = self.notarizes.get(self.leader?)?;
        votes::proposal_of(&ballot.vote)
    }

    // ---- checking and assembling

    /// Checks the votes of the first kind for which there is something to do, and assembles their certificate
    /// if they make one: the round holds it then.
    #[tactic(auto, unfolding(crate::specs::Opened::calls))]
    pub fn try_construct<S: Scheme>(
        &mut self,
        alloc: Global,
        scheme: &S,
    ) -> Result<Option<Batch>, AllocError>
        ensures stands { OnOk result (Takes self.old self.new
            (TryConstruct (scheme_by S.verifies S.recovers S.members scheme.now))) }
        ensures answer { IfOk result (Answers self.old
            (λ made known. constructed made
            (scheme_by S.verifies S.recovers S.members scheme.now) known)) }
        ensures err { OnErr result (Stays self.old self.new) }
    {
        if let Some(batch) = self.construct(alloc, scheme, CertificateKind::Notarization)? {
            return Ok(Some(batch));
        }
        if let Some(batch) = self.construct(alloc, scheme, CertificateKind::Nullification)? {
            return Ok(Some(batch));
        }
        self.construct(alloc, scheme, CertificateKind::Finalization)
    }

    /// Checks the votes of a kind, and assembles their certificate.
    #[tactic(auto, unfolding(crate::specs::Assembly::work_of, crate::specs::Assembly::after_work))]
    fn construct<S: Scheme>(
        &mut self,
        alloc: Global,
        scheme: &S,
        kind: CertificateKind,
    ) -> Result<Option<Batch>, AllocError>
        ensures known { OnOk result (self.new ≡ record self.old {
          known = after_work self.old.known
              (work_of self.old.made
              (scheme_by S.verifies S.recovers S.members scheme.now) self.old.known kind);
        }) }
        ensures answer { IfOk result (λ batch. batch ≡ option_map batch_of
            (work_of self.old.made
            (scheme_by S.verifies S.recovers S.members scheme.now) self.old.known kind)) }
        ensures err { OnErr result (self.new ≡ self.old) }
    {
        if self.is_skipped || self.holds(kind) {
            return Ok(None);
        }
        let Some(subject) = self.subject(kind) else {
            return Ok(None);
        };
        self.construct_on(alloc, scheme, kind, &subject)
    }

    /// Checks the votes of a kind on its subject, and assembles their certificate.
    #[tactic(auto, unfolding(crate::specs::Opened::assembly), using(crate::proofs::Marks::marked_checked))]
    fn construct_on<S: Scheme>(
        &mut self,
        alloc: Global,
        scheme: &S,
        kind: CertificateKind,
        subject: &Subject,
    ) -> Result<Option<Batch>, AllocError>
        ensures known { OnOk result (self.new ≡ record self.old {
          known = after_work self.old.known
              (work_if_any self.old.made (scheme_by S.verifies S.recovers S.members scheme.now)
              kind (side_of self.old.known kind) subject.now);
        }) }
        ensures answer { IfOk result (λ batch. batch ≡ option_map batch_of
            (work_if_any self.old.made (scheme_by S.verifies S.recovers S.members scheme.now)
            kind (side_of self.old.known kind) subject.now)) }
        ensures err { OnErr result (self.new ≡ self.old) }
    {
        let quorum = self.quorum as usize;
        if !self.side(kind).has_candidates(quorum, subject) {
            return Ok(None);
        }
        let findings = self.side(kind).findings(alloc, scheme, subject)?;
        let certificate = assemble(alloc, scheme, subject, quorum, &findings.valid)?;
        let processed = findings.found.len() as u64;
        if !is_work(processed, &certificate) {
            return Ok(None);
        }
        let held = certificate.keep(alloc)?;
        self.note(kind, subject, &findings.found, held);
        Ok(Some(Batch {
            processed,
            invalid: findings.invalid,
            certificate,
        }))
    }

    /// Notes what was found of the votes of a kind, and holds their certificate.
    #[tactic(auto)]
    fn note(
        &mut self,
        kind: CertificateKind,
        subject: &Subject,
        found: &[bool],
        certificate: Option<Certificate>,
    )
        ensures { self.new ≡ record self.old {
          known = after_assembly
              (with_side self.old.known kind
              (marked subject.now (side_of self.old.known kind) found.now)) certificate;
        } }
    {
        self.mark(kind, subject, found);
        if let Some(it) = certificate {
            self.hold(it);
        }
    }

    /// What a certificate of the kind would be on.
    #[tactic(auto, unfolding(crate::specs::Assembly::subject_of))]
    fn subject(&self, kind: CertificateKind) -> Option<Subject>
        ensures { result ≡ subject_of self.now.made self.now.known kind }
    {
        match kind {
            CertificateKind::Notarization => Some(Subject::Notarize(self.proposal()?)),
            CertificateKind::Nullification => Some(Subject::Nullify(self.round)),
            CertificateKind::Finalization => Some(Subject::Finalize(self.proposal()?)),
        }
    }

    /// Notes what was found of the votes of a kind that were not checked.
    fn mark(&mut self, kind: CertificateKind, subject: &Subject, found: &[bool])
        ensures { self.new ≡ record self.old {
          known = with_side self.old.known kind
              (marked subject.now (side_of self.old.known kind) found.now);
        } }
    {
        match kind {
            CertificateKind::Notarization => self.notarizes.mark(subject, found),
            CertificateKind::Nullification | CertificateKind::Finalization => {
                self.others.mark(subject, found)
            }
        }
    }

    // ---- forwarding

    /// The proposal for the voter: once only, where a leader is set that is not this member.
    #[tactic(auto, unfolding(crate::specs::Stands::StandsFor, crate::specs::Calls::known_after, crate::specs::Calls::after_call, crate::specs::Forwarding::forwarded_to_voter))]
    pub fn try_forward_proposal(&mut self, me: Participant) -> Option<Proposal>
        ensures stands { Takes self.old self.new (TryForward me) }
        ensures answer { Answers self.old (λ made known. forwarded_to_voter known me) result }
    {
        if self.was_forwarded || self.leader? == me {
            return None;
        }
        let proposal = self.proposal()?;
        self.was_forwarded = true;
        Some(proposal)
    }

    /// Whether it is a member without an accepted notarize of the proposal.
    #[tactic(auto, unfolding(crate::specs::Stands::StandsFor, crate::specs::Forwarding::is_missing_voter))]
    pub fn is_missing_voter(&self, proposal: &Proposal, member: Participant) -> bool
        ensures { Answers self.now
            (λ made known. is_missing_voter made known proposal.now member) result }
    {
        self.lacks_notarize(proposal, member)
    }

    #[tactic(auto, unfolding(crate::specs::Forwarding::is_missing_voter))]
    fn lacks_notarize(&self, proposal: &Proposal, member: Participant) -> bool
        ensures { result ≡ is_missing_voter self.now.made self.now.known proposal.now member }
    {
        if member.0 >= self.members {
            return false;
        }
        match self.notarizes.get(member) {
            None => true,
            Some(ballot) => {
                !is_same_subject(&ballot.vote.subject(), &Subject::Notarize(*proposal))
            }
        }
    }

    /// The members without an accepted notarize of the proposal, in rising order.
    #[tactic(auto, unfolding(crate::specs::Stands::StandsFor))]
    pub fn missing_voters(
        &self,
        alloc: Global,
        proposal: &Proposal,
    ) -> Result<Vec<Participant>, AllocError>
        ensures { IfOk result (λ missing. Answers self.now
            (λ made known. missing_voters made known proposal.now) missing.items) }
    {
        self.lacking(alloc, proposal)
    }

    #[tactic(auto, unfolding(crate::specs::Forwarding::missing_voters), using(crate::proofs::Counts::filter_range_more))]
    fn lacking(&self, alloc: Global, proposal: &Proposal) -> Result<Vec<Participant>, AllocError>
        ensures { IfOk result (λ missing. missing.items
            ≡ missing_voters self.now.made self.now.known proposal.now) }
    {
        let mut missing = Vec::new(alloc);
        for member in 0..self.members {
            if self.lacks_notarize(proposal, Participant(member)) {
                missing.push(Participant(member))?;
            }
        }
        Ok(missing)
    }
}

/// Whether a vote was checked or a certificate made.
fn is_work(processed: u64, certificate: &Option<Certificate>) -> bool
    ensures { result ≡ (nat_lt 0 processed || is_some certificate.now) }
{
    processed > 0 || certificate.is_some()
}
