//! What a history is to be: one thread makes it again, and each pass made its calls in its order.
ghost use Rattle.std.specs.Prelude.{◌<◌};

use simplex_mailbox::Mailbox;
use simplex_shared::{Log, Op};
use std::alloc::Global;
use std::process::Abort;
use test_support::Letter;

/// The test ends here where the mailbox of one thread answers a call otherwise.
pub fn replay(rt: &impl Abort, alloc: Global, log: &Log<Letter>, capacity: u32)
    requires { 0 < capacity }
{
    let mut mailbox = Mailbox::new(alloc, capacity).expect(rt, "a mailbox");
    for call in log.calls() {
        let is_right = match call {
            Op::Put {
                message,
                feedback,
                ..
            } => mailbox.enqueue(*message) == Ok(*feedback),
            Op::Took { got, .. } => mailbox.recv() == *got,
            Op::Shut { .. } => {
                mailbox.close();
                true
            }
        };
        assert!(rt; is_right, "one thread is answered otherwise");
    }
}

/// The pass made just so many calls, and its letters stand in their order.
pub fn assert_calls(rt: &impl Abort, log: &Log<Letter>, number: u32, count: u64) {
    let mut made = 0u64;
    for call in log.calls() {
        let is_next = match call {
            Op::Put {
                caller,
                message,
                ..
            } if *caller == number => message.writer == number && message.number == made,
            Op::Took { caller, .. } if *caller == number => true,
            Op::Shut { caller } if *caller == number => false,
            _ => continue,
        };
        assert!(rt; is_next, "a call that the pass did not make there");
        made = made.saturating_add(1);
    }
    assert!(rt; made == count, "a call is missing");
}
