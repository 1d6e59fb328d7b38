//! Two engines by hand: what one sends is delivered to the other, an application answers, a deadline passes, and a member starts again over its
//! journal. A member of one's own does the same with sockets, a clock, and a journal in files (docs/ENGINE.md).
#![tactic(auto)]

mod member;
mod packet;

use crate::member::Member;
use crate::packet::Packet;
use anyhow::{Result, bail};
use simplex::types::Participant;
use std::collections::VecDeque;
use std::io::Print;

/// How many turns there are at most.
const TURNS: u64 = 200;

/// After this turn member 1 crashes, and starts again over its journal.
const CRASH: u64 = 60;

/// Two members, the packets on their way between them, and the clock in milliseconds.
#[derive(Drop)]
struct Table {
    first: Member,
    second: Member,
    packets: VecDeque<Packet>,
    now: u64,
}

impl Table {
    /// Delivers a packet, or steps a member that holds something, or lets time pass. A packet may be lost, doubled or late: here it comes at
    /// once.
    fn turn(&mut self, rt: &impl Print) -> Result<()> {
        let now = self.now;
        if let Some(packet) = self.packets.pop_front() {
            return if packet.from == Participant(0) {
                self.second.hear(rt, packet, now, &mut self.packets)
            } else {
                self.first.hear(rt, packet, now, &mut self.packets)
            };
        }
        if self.first.work(rt, now, &mut self.packets)? {
            return Ok(());
        }
        if self.second.work(rt, now, &mut self.packets)? {
            return Ok(());
        }
        let (Some(first), Some(second)) = (self.first.next_deadline(), self.second.next_deadline())
        else {
            bail!("an engine stopped");
        };
        let next = first.min(second);
        println!(rt; "{next} ms")?;
        self.now = next;
        Ok(())
    }
}

fn main(rt: HostRuntime) -> Result<()> {
    let alloc = rt.alloc();
    let mut table = Table {
        first: Member::new(alloc, Participant(0))?,
        second: Member::new(alloc, Participant(1))?,
        packets: VecDeque::new(alloc),
        now: 0,
    };
    table.first.start(&rt, 0, &mut table.packets)?;
    table.second.start(&rt, 0, &mut table.packets)?;
    for turn in 0..TURNS {
        if turn == CRASH {
            println!(rt; "member 1 crashes, and starts again")?;
            let now = table.now;
            table.second.restart(&rt, now, &mut table.packets)?;
        }
        table.turn(&rt)?;
    }
    Ok(())
}
