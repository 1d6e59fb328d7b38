//! A small history, call by call.
ghost use Rattle.std.specs.Prelude.{◌≡◌, ◌<◌};

use simplex_mailbox::Policy;
use simplex_messages::voter::Message;
use simplex_shared::{MailError, Op, Pass, RecordedMailbox};
use simplex_types::{Digest, Epoch, Feedback, Keep, Proposal, Round, View};
use std::alloc::Global;
use std::fmt::Debug;
use std::process::Abort;
use std::test::Fail;

/// The test ends here where the two differ, and says in which case.
pub fn same<T: PartialEq + Debug>(rt: &impl Abort, case: &str, got: &T, wanted: &T) {
    assert_eq!(rt; got, wanted, "{case}");
}

fn proposed(view: u64) -> Message {
    Message::Proposal {
        proposal: Proposal {
            round: Round {
                epoch: Epoch(0),
                view: View(view),
            },
            parent: View(0),
            payload: Digest([7; 32]),
        },
    }
}

/// A mailbox, and its two passes.
pub fn pair<M: Policy + Keep>(
    rt: &impl Abort,
    alloc: Global,
    capacity: u32,
) -> (RecordedMailbox<M>, Pass<M>, Pass<M>)
    requires { 0 < capacity }
    ensures { (result.1.mailbox ≡ result.0) × (result.2.mailbox ≡ result.0) }
{
    let (mailbox, mut passes) = RecordedMailbox::new(alloc, capacity, 2).expect(rt, "a mailbox");
    let second = passes.pop().expect(rt, "the second pass");
    let first = passes.pop().expect(rt, "the first pass");
    (mailbox, first, second)
}

#[test]
fn a_shut_mailbox_names_the_front(rt: HostRuntime) -> Result<(), Fail> {
    let alloc = rt.alloc();
    let (mailbox, mut first, mut second) = pair(&rt, alloc, 1);
    let put = mailbox.enqueue(&rt, &mut first, proposed(2));
    same(&rt, "there is room for the first", &put, &Ok(Feedback::Ok));
    let put = mailbox.enqueue(&rt, &mut first, proposed(4));
    same(
        &rt,
        "there is no room for the second",
        &put,
        &Ok(Feedback::Backoff),
    );
    let got = mailbox.recv(&rt, &mut second)?;
    same(&rt, "the first is taken", &got, &Some(proposed(2)));
    mailbox.shut(&rt, &mut second)?;
    same(
        &rt,
        "the first pass saw its puts",
        &(first.number(), first.seen()),
        &(0, 2),
    );
    same(
        &rt,
        "the second pass saw all",
        &(second.number(), second.seen()),
        &(1, 4),
    );
    let put = mailbox.enqueue(&rt, &mut first, proposed(6));
    let closed = Err(MailError::Closed {
        front: 4,
        message: proposed(6),
    });
    same(&rt, "the mailbox is shut", &put, &closed);
    same(&rt, "the first pass saw that it is shut", &first.seen(), &4);
    let log = mailbox.finish(&rt, vec![in alloc; first, second]?);
    let wanted = [
        Op::Put {
            caller: 0,
            message: proposed(2),
            feedback: Feedback::Ok,
        },
        Op::Put {
            caller: 0,
            message: proposed(4),
            feedback: Feedback::Backoff,
        },
        Op::Took {
            caller: 1,
            got: Some(proposed(2)),
        },
        Op::Shut { caller: 1 },
    ];
    assert!(rt; log.calls() == wanted.as_slice());
    Ok(())
}

#[test]
fn a_pass_meets_one_that_saw_more(rt: HostRuntime) -> Result<(), Fail> {
    let alloc = rt.alloc();
    let (mailbox, mut first, mut second) = pair(&rt, alloc, 4);
    let put = mailbox.enqueue(&rt, &mut first, proposed(2));
    same(&rt, "there is room for the first", &put, &Ok(Feedback::Ok));
    let put = mailbox.enqueue(&rt, &mut first, proposed(4));
    same(&rt, "and for the second", &put, &Ok(Feedback::Ok));
    same(&rt, "the second pass saw no call", &second.seen(), &0);
    mailbox.meet(&mut second, &mut first);
    same(
        &rt,
        "the second pass saw the puts of the first",
        &(second.number(), second.seen()),
        &(1, 2),
    );
    same(
        &rt,
        "the first pass is as it was",
        &(first.number(), first.seen()),
        &(0, 2),
    );
    let log = mailbox.finish(&rt, vec![in alloc; first, second]?);
    same(&rt, "a meeting is no call", &log.calls().len(), &2);
    Ok(())
}
