//! That threads may share a mailbox, whatever its messages, if these may go to another thread.
ghost use Rattle.std.specs.Prelude.{◌≡◌};

use crate::shared::calls::{pair, same};
use simplex_mailbox::Policy;
use simplex_shared::{Log, Pass, RecordedMailbox};
use simplex_values::Keep;
use std::test::Fail;
use test_support::Letter;

/// What threads may share.
fn lend<T: Sync>(_shared: &T) {}

/// What may go to another thread.
fn send<T: Send>(value: T) -> T
    ensures { result ≡ value }
{
    value
}

/// Threads may share a mailbox, and take its passes with them, where its messages may go to another thread.
fn lend_to_threads<M: Policy + Keep + Send>(mailbox: &RecordedMailbox<M>, pass: Pass<M>) -> Pass<M>
where
    M::Overflow: Send,
    ensures { result ≡ pass }
{
    lend(mailbox);
    send(pass)
}

/// A whole history may go to another thread where its messages may.
fn send_history<M: Send>(log: Log<M>) -> Log<M>
    ensures { result ≡ log }
{
    send(log)
}

#[test]
fn a_mailbox_and_its_history_may_go_to_threads(rt: HostRuntime) -> Result<(), Fail> {
    let alloc = rt.alloc();
    let (mailbox, first, second) = pair::<Letter>(&rt, alloc, 1);
    let first = lend_to_threads(&mailbox, first);
    let log = send_history(mailbox.finish(&rt, vec![in alloc; first, second]?));
    same(&rt, "no call was made", &log.calls().len(), &0);
    Ok(())
}
