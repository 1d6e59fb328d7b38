//! Every script of a few members.
use crate::twins::rounds::round_text;
use simplex_twins::{RoundScenario, Scenario, Scenarios};
use std::alloc::{AllocError, Global};
use test_support::Told;

/// So many scripts are told one by one.
const FEW: u64 = 3;

/// The rounds of a script, each behind a comma.
fn script_text(alloc: Global, scenario: &Scenario) -> Result<String, AllocError> {
    let mut text = String::new(alloc);
    for round in scenario.rounds() {
        if !text.is_empty() {
            text.push_str(", ")?;
        }
        text.push_str(round_text(alloc, round)?.as_str())?;
    }
    if text.is_empty() {
        text.push_str("no round")?;
    }
    Ok(text)
}

fn numbers_of(round: &RoundScenario) -> (u32, u64, u64) {
    (round.leader(), round.primary(), round.secondary())
}

/// Whether the numbers of a script's rounds are above those of another.
fn is_above(scenario: &Scenario, other: &Scenario) -> bool {
    for (round, before) in scenario.rounds().iter().zip(other.rounds()) {
        let (numbers, before) = (numbers_of(round), numbers_of(before));
        if numbers != before {
            return numbers > before;
        }
    }
    false
}

/// What is known of scripts as they come.
#[derive(Drop)]
struct Seen {
    count: u64,
    rising: bool,
    last: Option<Scenario>,
}

impl Seen {
    fn take(&mut self, scenario: Scenario, told: &mut Told) -> Result<(), AllocError> {
        if self.count < FEW {
            told.says(script_text(told.alloc(), &scenario)?.as_str())?;
        }
        if let Some(last) = &self.last {
            self.rising = self.rising && is_above(&scenario, last);
        }
        self.count = self.count.saturating_add(1);
        self.last = Some(scenario);
        Ok(())
    }

    fn tell(&self, told: &mut Told) -> Result<(), AllocError> {
        let alloc = told.alloc();
        let (count, rising) = (self.count, self.rising);
        told.says(format!(in alloc; "{count}, each above the one before: {rising}")?.as_str())?;
        match &self.last {
            Some(last) => {
                let last = script_text(alloc, last)?;
                told.says(format!(in alloc; "the last: {}", last.as_str())?.as_str())
            }
            None => told.says("there is none"),
        }
    }
}

/// Tells how many scripts are left, which is none.
fn tell_rest(scenarios: &mut Scenarios, told: &mut Told) -> Result<(), AllocError> {
    if scenarios.next_scenario(told.alloc())?.is_some() {
        told.says("and then another")?;
    }
    Ok(())
}

/// Tells of the scripts of so many rounds among so many members, at most so many: the first, how many, and the last.
pub(super) fn tell_scenarios(
    n: u32,
    rounds: usize,
    limit: u64,
    told: &mut Told,
) -> Result<(), AllocError> {
    let alloc = told.alloc();
    if n == 0 || n > 64 {
        return told.says("not allowed: there are 1 to 64 members");
    }
    let mut scenarios = Scenario::all(alloc, n, rounds, limit)?;
    let mut seen = Seen {
        count: 0,
        rising: true,
        last: None,
    };
    for _ in 0..limit {
        let Some(scenario) = scenarios.next_scenario(alloc)? else {
            break;
        };
        seen.take(scenario, told)?;
    }
    seen.tell(told)?;
    tell_rest(&mut scenarios, told)
}
