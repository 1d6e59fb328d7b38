//! What a member did, as lines.
use model_rules::Asked;
use simplex_messages::{Call, StepOut};
use simplex_names::channel_word;
use simplex_types::{
    Activity, BlockCause, Bytes, Certificate, Context, Digest, Finalization, Keep, Participant,
    Plan, Recipients, Round,
};
use std::alloc::{AllocError, Global};

fn push_number(
    alloc: Global,
    text: &mut String,
    before: &str,
    number: u64,
) -> Result<(), AllocError> {
    let word = format!(in alloc; "{before}{number}")?;
    text.push_str(word.as_str())
}

fn push_hex(alloc: Global, text: &mut String, bytes: &[u8]) -> Result<(), AllocError> {
    let word = hex::encode(alloc, bytes)?;
    text.push_str(" ")?;
    text.push_str(word.as_str())
}

fn push_digest(alloc: Global, text: &mut String, digest: &Digest) -> Result<(), AllocError> {
    push_hex(alloc, text, digest.0.as_slice())
}

fn push_members(
    alloc: Global,
    text: &mut String,
    members: &[Participant],
) -> Result<(), AllocError> {
    let mut before = " ";
    for member in members {
        push_number(alloc, text, before, u64::from(member.0))?;
        before = ",";
    }
    Ok(())
}

fn push_recipients(
    alloc: Global,
    text: &mut String,
    recipients: &Recipients,
) -> Result<(), AllocError> {
    match recipients {
        Recipients::All => text.push_str(" all"),
        Recipients::One(member) => push_number(alloc, text, " ", u64::from(member.0)),
        Recipients::Some(members) => push_members(alloc, text, members.as_slice()),
    }
}

fn push_send(
    alloc: Global,
    text: &mut String,
    channel: &str,
    recipients: &Recipients,
    bytes: &Bytes,
) -> Result<(), AllocError> {
    text.push_str("send ")?;
    text.push_str(channel)?;
    push_recipients(alloc, text, recipients)?;
    push_hex(alloc, text, bytes.as_slice())?;
    text.push_str("\n")
}

fn push_final(alloc: Global, text: &mut String, it: &Finalization) -> Result<(), AllocError> {
    push_number(alloc, text, "final ", it.proposal.round.view.0)?;
    push_digest(alloc, text, &it.proposal.payload)?;
    let bytes = Certificate::Finalization(it.keep(alloc)?).encode(alloc)?;
    push_hex(alloc, text, bytes.as_slice())?;
    text.push_str("\n")
}

fn push_evidence(
    alloc: Global,
    text: &mut String,
    kind: &str,
    signer: u64,
    view: u64,
) -> Result<(), AllocError> {
    text.push_str("evidence ")?;
    text.push_str(kind)?;
    push_number(alloc, text, " ", signer)?;
    push_number(alloc, text, " ", view)?;
    text.push_str("\n")
}

fn push_report(alloc: Global, text: &mut String, report: &Activity) -> Result<(), AllocError> {
    match report {
        Activity::Finalization(it) => push_final(alloc, text, it),
        Activity::ConflictingNotarize(it) => push_evidence(
            alloc,
            text,
            "ConflictingNotarize",
            u64::from(it.signer().0),
            it.view().0,
        ),
        Activity::ConflictingFinalize(it) => push_evidence(
            alloc,
            text,
            "ConflictingFinalize",
            u64::from(it.signer().0),
            it.view().0,
        ),
        Activity::NullifyFinalize(it) => push_evidence(
            alloc,
            text,
            "NullifyFinalize",
            u64::from(it.signer().0),
            it.view().0,
        ),
        Activity::Notarize(_)
        | Activity::Notarization(_)
        | Activity::Certification(_)
        | Activity::Nullify(_)
        | Activity::Nullification(_)
        | Activity::Finalize(_) => Ok(()),
    }
}

fn push_plan(alloc: Global, text: &mut String, round: &Round, how: &str) -> Result<(), AllocError> {
    push_number(alloc, text, " ", round.view.0)?;
    text.push_str(" ")?;
    text.push_str(how)
}

fn push_relay(
    alloc: Global,
    text: &mut String,
    payload: &Digest,
    plan: &Plan,
) -> Result<(), AllocError> {
    text.push_str("relay")?;
    push_digest(alloc, text, payload)?;
    match plan {
        Plan::Prepare { round } => push_plan(alloc, text, round, "prepare")?,
        Plan::Propose { round } => push_plan(alloc, text, round, "propose")?,
        Plan::Forward { round, recipients } => {
            push_plan(alloc, text, round, "forward")?;
            push_recipients(alloc, text, recipients)?;
        }
    }
    text.push_str("\n")
}

fn cause_word(cause: BlockCause) -> &'static str {
    match cause {
        BlockCause::Undecodable => "undecodable",
        BlockCause::WrongEpoch => "wrong-epoch",
        BlockCause::InvalidCertificate => "invalid-certificate",
        BlockCause::WrongSender => "wrong-sender",
        BlockCause::ConflictingVotes => "conflicting-votes",
        BlockCause::NullifyAndFinalize => "nullify-and-finalize",
        BlockCause::InvalidSignature => "invalid-signature",
        BlockCause::LeaderConflict => "leader-conflict",
        BlockCause::InvalidResponse => "invalid-response",
    }
}

fn push_block(
    alloc: Global,
    text: &mut String,
    member: Participant,
    cause: BlockCause,
) -> Result<(), AllocError> {
    push_number(alloc, text, "block ", u64::from(member.0))?;
    text.push_str(" ")?;
    text.push_str(cause_word(cause))?;
    text.push_str("\n")
}

fn push_call(alloc: Global, text: &mut String, call: &Call) -> Result<(), AllocError> {
    match call {
        // The journal is the member's own.
        Call::Append(..) | Call::Sync(_) | Call::Prune(_) => Ok(()),
        Call::Send {
            channel,
            recipients,
            bytes,
        } => push_send(alloc, text, channel_word(*channel), recipients, bytes),
        Call::Report(report) => push_report(alloc, text, report),
        Call::Relay { payload, plan } => push_relay(alloc, text, payload, plan),
        Call::Block(member, cause) => push_block(alloc, text, *member, *cause),
    }
}

fn push_context(alloc: Global, text: &mut String, context: &Context) -> Result<(), AllocError> {
    push_number(alloc, text, " ", context.round.view.0)?;
    push_number(alloc, text, " ", u64::from(context.leader.0))?;
    push_number(alloc, text, " ", context.parent.view.0)?;
    push_digest(alloc, text, &context.parent.payload)
}

fn push_asked(alloc: Global, text: &mut String, asked: &Asked) -> Result<(), AllocError> {
    match asked {
        Asked::Prepare(context) => {
            text.push_str(" prepare")?;
            push_context(alloc, text, context)
        }
        Asked::Propose(context) => {
            text.push_str(" propose")?;
            push_context(alloc, text, context)
        }
        Asked::Verify(context, payload) => {
            text.push_str(" verify")?;
            push_context(alloc, text, context)?;
            push_digest(alloc, text, payload)
        }
        Asked::Certify(round, payload) => {
            push_number(alloc, text, " certify ", round.view.0)?;
            push_digest(alloc, text, payload)
        }
    }
}

/// Adds a line for each thing that the member did for which its host has to do something, in order: the requests that it drops, its calls
/// outside, and its requests to the application, which are numbered from `asked` on. Returns the number of the next request.
///
/// ```text
/// drop REQUEST
/// send vote|certificate|resolver all|MEMBER,MEMBER.. HEX
/// relay PAYLOAD VIEW prepare|propose|forward MEMBER,MEMBER..
/// final VIEW PAYLOAD CERTIFICATE
/// evidence ConflictingNotarize|ConflictingFinalize|NullifyFinalize SIGNER VIEW
/// block MEMBER CAUSE
/// ask REQUEST prepare|propose VIEW LEADER PARENT-VIEW PARENT-PAYLOAD
/// ask REQUEST verify VIEW LEADER PARENT-VIEW PARENT-PAYLOAD PAYLOAD
/// ask REQUEST certify VIEW PAYLOAD
/// ```
pub fn push_lines(
    alloc: Global,
    text: &mut String,
    out: &StepOut,
    asked: u64,
) -> Result<u64, AllocError> {
    for number in out.dropped.as_slice() {
        push_number(alloc, text, "drop ", *number)?;
        text.push_str("\n")?;
    }
    for call in out.calls.as_slice() {
        push_call(alloc, text, call)?;
    }
    let mut number = asked;
    for request in out.asked.as_slice() {
        push_number(alloc, text, "ask ", number)?;
        push_asked(alloc, text, request)?;
        text.push_str("\n")?;
        number = number.saturating_add(1);
    }
    Ok(number)
}
