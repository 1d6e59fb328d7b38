//! Messages of a voter to its resolver.
use crate::mail::spelled::{Spelled, certificate_text, proposal};
use crate::mail::voter::certificate_of;
use simplex_mailbox::Post;
use simplex_messages::resolver;
use simplex_messages::resolver::MailboxMessage;
use simplex_types::{Feedback, Kind, Notarization, Participant, Signatures, View};
use std::alloc::{AllocError, Global};
use test_support::{member, number};

fn certified(alloc: Global, view: u64, success: bool) -> MailboxMessage {
    MailboxMessage::Certified {
        notarization: Notarization {
            proposal: proposal(view),
            certificate: Signatures::new(Vec::new(alloc)),
        },
        success,
    }
}

/// A certificate of this kind of the view is missing for the proposal of view 10.
fn missing(kind: Kind, view: u64, target: Option<Participant>) -> MailboxMessage {
    MailboxMessage::Resolve {
        proposal: View(10),
        view: View(view),
        kind,
        target,
    }
}

/// What is missing: the notarization of a view, `3`, or its nullification, `nullification 3`; behind it may stand of whom it is asked, `of 2`.
fn missing_of(words: &[&str]) -> Option<MailboxMessage> {
    let (kind, words) = match words {
        ["nullification", words @ ..] => (Kind::Nullification, words),
        words => (Kind::Notarization, words),
    };
    match words {
        [view] => Some(missing(kind, number(view)?, None)),
        [view, "of", target] => {
            Some(missing(kind, number(view)?, Some(Participant(member(target)?))))
        }
        _ => None,
    }
}

impl Spelled for MailboxMessage {
    fn of(alloc: Global, words: &[&str]) -> Option<MailboxMessage> {
        match words {
            ["replayed"] => Some(MailboxMessage::Replayed),
            ["certified", view] => Some(certified(alloc, number(view)?, true)),
            ["failed", view] => Some(certified(alloc, number(view)?, false)),
            ["missing", words @ ..] => missing_of(words),
            [kind, view] => Some(MailboxMessage::Updated {
                certificate: certificate_of(alloc, kind, number(view)?)?,
            }),
            _ => None,
        }
    }

    fn text(&self, alloc: Global) -> Result<String, AllocError> {
        match self {
            MailboxMessage::Updated { certificate } => certificate_text(alloc, certificate),
            MailboxMessage::Certified {
                notarization,
                success,
            } => {
                let view = notarization.proposal.round.view;
                let verdict = if *success { "certified" } else { "failed" };
                format!(in alloc; "{verdict} {view}")
            }
            MailboxMessage::Resolve {
                view,
                kind,
                target,
                ..
            } => {
                let kind = match kind {
                    Kind::Notarization => "",
                    Kind::Nullification => "nullification ",
                };
                match target {
                    None => format!(in alloc; "missing {kind}{view}"),
                    Some(member) => format!(in alloc; "missing {kind}{view} of {member}"),
                }
            }
            MailboxMessage::Replayed => String::from_str(alloc, "replayed"),
        }
    }

    fn put_into<P: Post<MailboxMessage> + Drop>(
        self,
        post: P,
    ) -> Result<(P, Feedback), AllocError> {
        let mut post = resolver::Mailbox::new(post);
        let feedback = match self {
            MailboxMessage::Updated { certificate } => post.updated(certificate)?,
            MailboxMessage::Certified {
                notarization,
                success,
            } => post.certified(notarization, success)?,
            MailboxMessage::Resolve {
                proposal,
                view,
                kind,
                target,
            } => post.resolve(proposal, view, kind, target)?,
            MailboxMessage::Replayed => post.replayed()?,
        };
        Ok((post.into_post(), feedback))
    }
}
