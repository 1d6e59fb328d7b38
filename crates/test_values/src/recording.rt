//! Scripts about a reporter that keeps what it is told of one member's votes and certificates.
use crate::signed::{
    BASE, OTHER_BASE, block, finalization, keyed, notarization, nullification, round,
};
use simplex_recording::{Config, Reporter};
use simplex_types::elector::Config as Electing;
use simplex_types::{
    Activity, ConflictingNotarize, Digest, Finalize, Keyed, Monitor, Notarize, Nullify,
    Participant, Reporter as Reporting, RoundRobin, RoundRobinElector, Scheme, TermLength, Terms,
    View,
};
use std::alloc::{AllocError, Global};
use test_support::{Part, Script, Told, number, payload, payload_text, play};

/// A reporter of one member's network, with terms of three views.
#[derive(Drop)]
struct Desk {
    alloc: Global,
    reporter: Reporter<Keyed, RoundRobinElector>,
}

/// Plays a script whose first line is `recording`.
pub(crate) fn run(script: &Script, told: &mut Told) -> Result<(), AllocError> {
    let alloc = told.alloc();
    let Some(length) = TermLength::new(3) else {
        return Ok(());
    };
    let terms = Terms {
        length,
        lookahead: 0,
        stall_timeout: None,
    };
    let scheme = keyed(alloc, BASE)?;
    let participants = scheme.participants();
    let config = Config {
        participants,
        scheme,
        elector: RoundRobin::new(terms).build(1),
    };
    let mut desk = Desk {
        alloc,
        reporter: Reporter::new(alloc, config),
    };
    play(&mut desk, script, told)
}

/// The member's vote for view 1 by keys of this base.
fn notarize(alloc: Global, base: u64, payload: Digest) -> Result<Option<Notarize>, AllocError> {
    let scheme = keyed(alloc, base)?;
    Ok(Notarize::sign(&scheme, block(1, 0, payload)))
}

/// A vote of the member for view 1.
fn vote_of(alloc: Global, words: &[&str]) -> Result<Option<Activity>, AllocError> {
    let scheme = keyed(alloc, BASE)?;
    let (base, word) = match words {
        ["notarize", word] => (BASE, *word),
        ["notarize", word, "by", "other", "keys"] => (OTHER_BASE, *word),
        ["nullify"] => return Ok(Nullify::sign(&scheme, round(1)).map(|it| Activity::Nullify(it))),
        ["finalize", word] => {
            let Some(payload) = payload(word) else {
                return Ok(None);
            };
            let vote = Finalize::sign(&scheme, block(1, 0, payload));
            return Ok(vote.map(|it| Activity::Finalize(it)));
        }
        _ => return Ok(None),
    };
    match payload(word) {
        Some(payload) => Ok(notarize(alloc, base, payload)?.map(|it| Activity::Notarize(it))),
        None => Ok(None),
    }
}

/// Two notarizes of the member for view 1.
fn conflict_of(alloc: Global, words: &[&str]) -> Result<Option<Activity>, AllocError> {
    let ["conflict", first, second] = words else {
        return Ok(None);
    };
    let (Some(first), Some(second)) = (payload(first), payload(second)) else {
        return Ok(None);
    };
    match (
        notarize(alloc, BASE, first)?,
        notarize(alloc, BASE, second)?,
    ) {
        (Some(first), Some(second)) => {
            let conflict = ConflictingNotarize { first, second };
            Ok(Some(Activity::ConflictingNotarize(conflict)))
        }
        _ => Ok(None),
    }
}

/// A certificate of one view.
fn certificate_of(
    alloc: Global,
    kind: &str,
    base: u64,
    view: u64,
    payload: Digest,
) -> Result<Option<Activity>, AllocError> {
    let proposal = block(view, 0, payload);
    Ok(Some(match kind {
        "finalization" => Activity::Finalization(finalization(alloc, base, proposal)?),
        "nullification" => Activity::Nullification(nullification(alloc, base, view)?),
        "certification" => Activity::Certification(notarization(alloc, base, proposal)?),
        _ => return Ok(None),
    }))
}

/// What is told, if the words tell something: `KIND VIEW`, with a payload or by other keys, or a vote.
fn activity_of(alloc: Global, words: &[&str]) -> Result<Option<Activity>, AllocError> {
    let usual = Digest([17; 32]);
    let (kind, base, view, payload) = match words {
        ["conflict", ..] => return conflict_of(alloc, words),
        ["notarize", ..] | ["nullify"] | ["finalize", _] => return vote_of(alloc, words),
        [kind, view] => (*kind, BASE, number(view), Some(usual)),
        [kind, view, "by", "other", "keys"] => (*kind, OTHER_BASE, number(view), Some(usual)),
        [kind, view, name] => (*kind, BASE, number(view), payload(name)),
        _ => return Ok(None),
    };
    match (view, payload) {
        (Some(view), Some(payload)) => certificate_of(alloc, kind, base, view, payload),
        _ => Ok(None),
    }
}

/// Members, each behind a comma.
fn members_text(alloc: Global, members: &[Participant]) -> Result<String, AllocError> {
    let mut text = String::new(alloc);
    for member in members {
        if !text.is_empty() {
            text.push_str(", ")?;
        }
        text.push_str(format!(in alloc; "{member}")?.as_str())?;
    }
    if text.is_empty() {
        text.push_str("nobody")?;
    }
    Ok(text)
}

/// Views, each behind a comma.
fn views_text(alloc: Global, views: &[View]) -> Result<String, AllocError> {
    let mut text = String::new(alloc);
    for view in views {
        if !text.is_empty() {
            text.push_str(", ")?;
        }
        text.push_str(format!(in alloc; "{view}")?.as_str())?;
    }
    if text.is_empty() {
        text.push_str("none")?;
    }
    Ok(text)
}

/// How far a monitor tells that a member is.
fn watched<M: Monitor>(monitor: &M) -> View {
    monitor.latest()
}

impl Desk {
    /// Which certificates of the view are kept.
    fn view_text(&self, view: View) -> Result<String, AllocError> {
        let alloc = self.alloc;
        let mut text = String::new(alloc);
        if let Some(it) = self.reporter.notarization(view) {
            let payload = payload_text(alloc, &it.proposal.payload)?;
            text.push_str(format!(in alloc; "notarization {}, ", payload.as_str())?.as_str())?;
        }
        if let Some(it) = self.reporter.certification(view) {
            let payload = payload_text(alloc, &it.proposal.payload)?;
            text.push_str(format!(in alloc; "certification {}, ", payload.as_str())?.as_str())?;
        }
        if self.reporter.nullification(view).is_some() {
            text.push_str("nullification, ")?;
        }
        if let Some((_, count)) = self.reporter.finalization(view) {
            text.push_str(format!(in alloc; "finalization {count} times, ")?.as_str())?;
        }
        text.push_str(if self.reporter.certified(view) {
            "so there is a certificate"
        } else {
            "so there is none"
        })?;
        Ok(text)
    }

    /// Who voted for a payload in a view, and who gave the view up.
    fn votes_text(&self, view: View, payload: &Digest) -> Result<String, AllocError> {
        let alloc = self.alloc;
        let notarizes = self.reporter.notarizes(alloc, view, payload)?;
        let notarizes = members_text(alloc, &notarizes)?;
        let finalizes = self.reporter.finalizes(alloc, view, payload)?;
        let finalizes = members_text(alloc, &finalizes)?;
        let nullifies = self.reporter.nullifies(alloc, view)?;
        let nullifies = members_text(alloc, &nullifies)?;
        format!(in alloc;
            "notarized by {}, finalized by {}, given up by {}",
            notarizes.as_str(),
            finalizes.as_str(),
            nullifies.as_str()
        )
    }

    /// What did not verify, and whether there is evidence.
    fn state_text(&self) -> Result<String, AllocError> {
        let (votes, certificates) = (
            self.reporter.invalid_votes(),
            self.reporter.invalid_certificates(),
        );
        let verified = if self.reporter.assert_no_invalid() {
            "all verified"
        } else {
            "not all verified"
        };
        let evidence = if self.reporter.assert_no_faults() {
            "no evidence"
        } else {
            "evidence"
        };
        format!(in self.alloc;
            "{verified}: {votes} votes and {certificates} certificates did not; {evidence}"
        )
    }

    /// How much evidence there is against the member in the view.
    fn faults_text(&self, view: View) -> Result<String, AllocError> {
        let faults = self.reporter.faults(Participant(0), view);
        let count = faults.len();
        let kinds = faults
            .iter()
            .all(|it| matches!(it, Activity::ConflictingNotarize(_)));
        let kinds = if kinds {
            ""
        } else {
            " and not all of two notarizes"
        };
        format!(in self.alloc; "evidence of two notarizes: {count}{kinds}")
    }

    fn leader_text(&self, view: View) -> Result<String, AllocError> {
        match self.reporter.leader(view) {
            Some(member) => format!(in self.alloc; "{member} leads"),
            None => String::from_str(self.alloc, "not known yet"),
        }
    }

    fn latest_text(&self) -> Result<String, AllocError> {
        let (latest, watched) = (self.reporter.latest(), watched(&self.reporter));
        format!(in self.alloc; "final last: {latest}, to a monitor: {watched}")
    }

    fn answer(&self, question: Question) -> Result<String, AllocError> {
        match question {
            Question::Latest => self.latest_text(),
            Question::State => self.state_text(),
            Question::Leader(view) => self.leader_text(View(view)),
            Question::View(view) => self.view_text(View(view)),
            Question::Evidence(view) => self.faults_text(View(view)),
            Question::Votes(view, payload) => self.votes_text(View(view), &payload),
            Question::Seen(place) => views_text(self.alloc, self.reporter.seen_from(place)),
        }
    }
}

/// What the reporter is asked.
#[derive(Clone, Copy)]
enum Question {
    /// Which view was final last.
    Latest,
    /// What did not verify, and whether there is evidence.
    State,
    /// Who leads the view, if that is known.
    Leader(u64),
    /// Which certificates of the view are kept.
    View(u64),
    /// How much evidence there is of the view.
    Evidence(u64),
    /// Who voted for the payload in the view.
    Votes(u64, Digest),
    /// Which views were final, from this place on.
    Seen(u64),
}

fn question_of(words: &[&str]) -> Option<Question> {
    match words {
        ["latest"] => Some(Question::Latest),
        ["state"] => Some(Question::State),
        ["leader", view] => Some(Question::Leader(number(view)?)),
        ["view", view] => Some(Question::View(number(view)?)),
        ["evidence", view] => Some(Question::Evidence(number(view)?)),
        ["votes", view, name] => Some(Question::Votes(number(view)?, payload(name)?)),
        ["seen", "from", place] => Some(Question::Seen(number(place)?)),
        _ => None,
    }
}

impl Part for Desk {
    fn take(&mut self, words: &[&str], told: &mut Told) -> Result<(), AllocError> {
        if let Some(question) = question_of(words) {
            return told.says(self.answer(question)?.as_str());
        }
        match activity_of(self.alloc, words)? {
            Some(activity) => {
                let answer = self.reporter.report(activity)?;
                told.says(format!(in self.alloc; "{answer:?}")?.as_str())
            }
            None => told.says("not a command"),
        }
    }
}
