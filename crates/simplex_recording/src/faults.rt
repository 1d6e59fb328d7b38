//! The evidence that was recorded.
#![tactic(auto, unfolding(crate::specs::Recording::faults_of, crate::specs::Recording::has_faults))]

ghost use Rattle.std.specs.Prelude.{◌≡◌, ◌∷◌, [], ℕ, ◌==◌, ◌&&◌, List, Some, OnOk, OnErr, not, if◌then◌else◌};
ghost use Rattle.simplex_types.specs.declared.activity.Activity.{Activity};
ghost use Rattle.simplex_recording.specs.Kept.{evidence_in};
ghost use Rattle.simplex_recording.specs.Recording.{against, faults_of, has_faults, with_evidence};
ghost use Rattle.simplex_recording.specs.Stands.{FaultsOf};

use crate::evidence::is_known;
use simplex_types::{Activity, Participant, View};
use std::alloc::{AllocError, Global};
use std::collections::BTreeMap;

/// Evidence by view and member.
type Lists = BTreeMap<(u64, u32), Vec<Activity>>;

/// Evidence by view and member, each once, in order of report, and whether there is any.
#[derive(Debug, Drop)]
pub(crate) struct Faults {
    lists: Lists,
    any: bool,
}

/// Whom evidence is against. Other activities are against nobody.
pub(crate) fn against(activity: &Activity) -> Option<Participant>
    ensures { result ≡ against activity.now }
{
    match activity {
        Activity::ConflictingNotarize(it) => Some(it.first.attestation.signer),
        Activity::ConflictingFinalize(it) => Some(it.first.attestation.signer),
        Activity::NullifyFinalize(it) => Some(it.nullify.attestation.signer),
        _ => None,
    }
}

/// No evidence.
#[tactic(auto, unfolding(crate::specs::Kept::evidence_in))]
fn no_lists(alloc: Global) -> Lists
    ensures { (view member : ℕ) → evidence_in result view member ≡ [] }
{
    BTreeMap::new(alloc)
}

/// Puts the evidence last, unless it is there.
fn push_new(known: &mut Vec<Activity>, evidence: Activity) -> Result<(), AllocError>
    ensures ok { OnOk result (known.new.items ≡ with_evidence evidence known.old.items) }
    ensures err { OnErr result (known.new.items ≡ known.old.items) }
{
    if is_known(&evidence, known.as_slice()) {
        return Ok(());
    }
    known.push(evidence)?;
    Ok(())
}

/// Makes this all the evidence of the view and the member, where there is none.
#[tactic(auto, unfolding(crate::specs::Kept::evidence_in))]
fn put_first(
    alloc: Global,
    lists: &mut Lists,
    view: View,
    member: Participant,
    evidence: Activity,
) -> Result<(), AllocError>
    ensures ok { OnOk result ((v m : ℕ) → evidence_in lists.new v m
        ≡ (if view == v && member == m then evidence ∷ [] else evidence_in lists.old v m)) }
    ensures err { OnErr result ((v m : ℕ) → evidence_in lists.new v m ≡ evidence_in lists.old v m) }
{
    let mut known = Vec::new(alloc);
    known.push(evidence)?;
    lists.insert((view.0, member.0), known)?;
    Ok(())
}

/// Puts the evidence last in the list of the view and the member, unless it is there.
#[tactic(auto, unfolding(crate::specs::Kept::evidence_in))]
fn add_evidence(
    alloc: Global,
    lists: &mut Lists,
    view: View,
    member: Participant,
    evidence: Activity,
) -> Result<(), AllocError>
    ensures ok { OnOk result ((v m : ℕ) → evidence_in lists.new v m
        ≡ (if view == v && member == m then with_evidence evidence (evidence_in lists.old v m)
        else evidence_in lists.old v m)) }
    ensures err { OnErr result ((v m : ℕ) → evidence_in lists.new v m ≡ evidence_in lists.old v m) }
{
    match lists.get_mut(&(view.0, member.0)) {
        Some(known) => push_new(known, evidence),
        None => put_first(alloc, lists, view, member, evidence),
    }
}

/// The evidence of the view and the member.
#[tactic(auto, unfolding(crate::specs::Kept::evidence_in))]
fn known_in(lists: &Lists, view: View, member: Participant) -> &[Activity]
    ensures { result.now ≡ evidence_in lists.now view member }
{
    match lists.get(&(view.0, member.0)) {
        None => &[],
        Some(known) => known.as_slice(),
    }
}

impl Faults {
    /// No evidence.
    pub(crate) fn new(alloc: Global) -> Faults
        ensures { FaultsOf result [] }
    {
        Faults {
            lists: no_lists(alloc),
            any: false,
        }
    }

    /// The evidence against the member was recorded.
    pub(crate) fn enter(
        &mut self,
        alloc: Global,
        member: Participant,
        evidence: Activity,
    ) -> Result<(), AllocError>
        requires { against evidence ≡ Some member }
        ensures ok { OnOk result ((all : List Activity) → FaultsOf self.old all
            → FaultsOf self.new (evidence ∷ all)) }
        ensures err { OnErr result ((all : List Activity) → FaultsOf self.old all
            → FaultsOf self.new all) }
    {
        let view = evidence.view();
        add_evidence(alloc, &mut self.lists, view, member, evidence)?;
        self.any = true;
        Ok(())
    }

    /// The evidence against the member in the view.
    pub(crate) fn of(&self, member: Participant, view: View) -> &[Activity]
        ensures { (all : List Activity) → FaultsOf self.now all
            → result.now ≡ faults_of all member view }
    {
        known_in(&self.lists, view, member)
    }

    /// Whether there is no evidence.
    pub(crate) fn is_empty(&self) -> bool
        ensures { (all : List Activity) → FaultsOf self.now all → result ≡ not (has_faults all) }
    {
        !self.any
    }
}
