//! Scripts about scripted rounds, in which a faulty member runs two engines: with whom each half talks, and who leads.
ghost use Rattle.std.specs.Prelude.{◌<◌};

mod every;
mod rounds;

use crate::twins::every::tell_scenarios;
use crate::twins::rounds::{mask_of, members_text, target_word};
use simplex_twins::{
    Elector, ElectorState, RoundScenario, Scenario, TwinsError, view_partitions, view_route,
};
use simplex_types::elector::{Config, Elector as Elects};
use simplex_types::{
    Epoch, Keep, Participant, Round, RoundRobin, RoundRobinElector, TermLength, Terms, View,
};
use std::alloc::{AllocError, Global};
use test_support::{Part, Script, Told, member, number, play_made};

/// Members, how many views a term has, and the rounds of a script.
#[derive(Drop)]
struct Desk {
    alloc: Global,
    members: Vec<Participant>,
    length: TermLength,
    scenario: Scenario,
}

fn length_of(word: &str) -> Option<TermLength> {
    TermLength::new(number(word)?)
}

/// `VIEWS of MEMBER..`: how many views a term has, and the members in the order of their places.
fn desk_of(alloc: Global, words: &[&str]) -> Result<Option<Desk>, AllocError> {
    let ["terms", "of", length, "members", words @ ..] = words else {
        return Ok(None);
    };
    let mut members = Vec::new(alloc);
    for word in words {
        let Some(member) = member(word) else {
            return Ok(None);
        };
        members.push(Participant(member))?;
    }
    let Some(length) = length_of(length) else {
        return Ok(None);
    };
    Ok(Some(Desk {
        alloc,
        members,
        length,
        scenario: Scenario::from_rounds(Vec::new(alloc)),
    }))
}

/// Plays a script whose first line is `twins`, and these words.
pub(crate) fn run(words: &[&str], script: &Script, told: &mut Told) -> Result<(), AllocError> {
    play_made(desk_of(told.alloc(), words)?, script, told)
}

/// Who leads where members take turns, in terms of this length.
fn turns_of(length: TermLength) -> RoundRobin {
    RoundRobin::new(Terms {
        length,
        lookahead: 1,
        stall_timeout: None,
    })
}

/// The elector of so many members where nothing is scripted.
fn unscripted(alloc: Global, length: TermLength, n: u32) -> ElectorState<RoundRobinElector>
    requires { 0 < n }
{
    let turns = turns_of(length);
    Elector::unscripted(alloc, turns).build(n)
}

/// The elector of so many members by the script.
fn scripted(
    alloc: Global,
    length: TermLength,
    scenario: &Scenario,
    n: u32,
) -> Result<ElectorState<RoundRobinElector>, TwinsError>
    requires { 0 < n }
{
    let turns = turns_of(length);
    match Elector::new(alloc, turns, scenario, n) {
        Ok(elector) => Ok(elector.build(n)),
        Err(error) => Err(error),
    }
}

/// The leader of the view in this epoch.
fn leader_at(elector: &impl Elects, epoch: u64, view: u64) -> Participant {
    elector.elect(Round {
        epoch: Epoch(epoch),
        view: View(view),
    })
}

/// The text of why a script is refused.
fn refusal_text(alloc: Global, error: TwinsError) -> Result<String, AllocError> {
    match error {
        TwinsError::Memory => Err(AllocError),
        error => format!(in alloc; "refused: {error}"),
    }
}

/// Who leads by the elector of the script, by its copy, and by none.
fn leaders_text<E: Elects + Keep + Drop, F: Elects>(
    alloc: Global,
    scripted: &E,
    plain: &F,
    epoch: u64,
    view: u64,
) -> Result<String, AllocError> {
    let copy = scripted.keep(alloc)?;
    let leader = leader_at(scripted, epoch, view);
    let copied = leader_at(&copy, epoch, view);
    let unscripted = leader_at(plain, epoch, view);
    let length = scripted.terms().length.get();
    format!(in alloc;
        "{leader} leads, by a copy {copied}, by no script {unscripted}; terms of {length}"
    )
}

impl Desk {
    fn add(&mut self, round: RoundScenario) -> Result<(), AllocError> {
        let mut rounds = Vec::from_slice(self.alloc, self.scenario.rounds())?;
        rounds.push(round)?;
        self.scenario = Scenario::from_rounds(rounds);
        Ok(())
    }

    /// Adds a round, or tells why it is refused.
    fn round(
        &mut self,
        leader: u32,
        first: u64,
        second: u64,
        told: &mut Told,
    ) -> Result<(), AllocError> {
        let count = u32::try_from(self.members.len()).unwrap_or(u32::MAX);
        match RoundScenario::new(leader, first, second, count) {
            Ok(round) => {
                self.add(round)?;
                let leader = round.leader();
                told.says(format!(in self.alloc; "led by {leader}")?.as_str())
            }
            Err(error) => told.says(refusal_text(self.alloc, error)?.as_str()),
        }
    }

    /// With whom each half talks at the view, by the script.
    fn halves(&self, view: u64) -> Result<String, AllocError> {
        let (first, second) = self
            .scenario
            .partitions(self.alloc, View(view), self.length, &self.members)?;
        members_text(self.alloc, &first, &second)
    }

    /// The same by the views alone.
    fn cut(&self, view: u64) -> Result<String, AllocError> {
        if self.members.is_empty() {
            return String::from_str(self.alloc, "not allowed: there is no member");
        }
        let (first, second) = view_partitions(self.alloc, View(view), self.length, &self.members)?;
        members_text(self.alloc, &first, &second)
    }

    /// Whom a message of the member reaches at the view, by the views alone.
    fn cut_route(&self, who: u32, view: u64) -> &'static str {
        if self.members.is_empty() {
            return "not allowed: there is no member";
        }
        target_word(view_route(View(view), self.length, Participant(who), &self.members))
    }

    fn route(&self, who: u32, view: u64) -> &'static str {
        let who = Participant(who);
        target_word(
            self.scenario
                .route(View(view), self.length, who, &self.members),
        )
    }

    /// Who leads the view where there are so many members.
    fn leader(&self, n: u32, epoch: u64, view: u64) -> Result<String, AllocError> {
        if n == 0 {
            return String::from_str(self.alloc, "not allowed: there is no member");
        }
        let plain = unscripted(self.alloc, self.length, n);
        match scripted(self.alloc, self.length, &self.scenario, n) {
            Ok(scripted) => leaders_text(self.alloc, &scripted, &plain, epoch, view),
            Err(error) => refusal_text(self.alloc, error),
        }
    }

    fn answer(&self, question: Question) -> Result<String, AllocError> {
        match question {
            Question::Halves(view) => self.halves(view),
            Question::Cut(view) => self.cut(view),
            Question::Route(who, view) => String::from_str(self.alloc, self.route(who, view)),
            Question::CutRoute(who, view) => {
                String::from_str(self.alloc, self.cut_route(who, view))
            }
            Question::Leader(epoch, view, n) => self.leader(n, epoch, view),
        }
    }

    fn run(&mut self, command: Command, told: &mut Told) -> Result<(), AllocError> {
        match command {
            Command::Ask(question) => told.says(self.answer(question)?.as_str()),
            Command::Round(leader, first, second) => self.round(leader, first, second, told),
            Command::All(n, rounds, limit) => tell_scenarios(n, rounds as usize, limit, told),
        }
    }
}

/// A question about a view.
#[derive(Clone, Copy)]
enum Question {
    /// With whom each half talks, by the script.
    Halves(u64),
    /// The same by the views alone.
    Cut(u64),
    /// Whom a message of the member reaches, by the script.
    Route(u32, u64),
    /// The same by the views alone.
    CutRoute(u32, u64),
    /// Who leads in the epoch, where there are so many members.
    Leader(u64, u64, u32),
}

/// What a line of a script wants.
#[derive(Clone, Copy)]
enum Command {
    Ask(Question),
    /// A round is added: its leader, and its masks.
    Round(u32, u64, u64),
    /// All scripts among so many members of so many rounds, at most so many.
    All(u32, u64, u64),
}

fn question_of(words: &[&str]) -> Option<Question> {
    match words {
        ["halves", "at", view] => Some(Question::Halves(number(view)?)),
        ["cut", "at", view] => Some(Question::Cut(number(view)?)),
        ["route", who, "at", view] => Some(Question::Route(member(who)?, number(view)?)),
        ["cut", "route", who, "at", view] => {
            Some(Question::CutRoute(member(who)?, number(view)?))
        }
        ["leader", epoch, view, "of", n] => {
            Some(Question::Leader(number(epoch)?, number(view)?, member(n)?))
        }
        _ => None,
    }
}

fn command_of(words: &[&str]) -> Option<Command> {
    match words {
        ["round", leader, first, second] => Some(Command::Round(
            member(leader)?,
            mask_of(first)?,
            mask_of(second)?,
        )),
        [
            "all",
            "of",
            n,
            "members",
            rounds,
            "rounds",
            "at",
            "most",
            limit,
        ] => { Some(Command::All(member(n)?, number(rounds)?, number(limit)?)) }
        _ => Some(Command::Ask(question_of(words)?)),
    }
}

impl Part for Desk {
    fn take(&mut self, words: &[&str], told: &mut Told) -> Result<(), AllocError> {
        match command_of(words) {
            Some(command) => self.run(command, told),
            None => told.says("not a command"),
        }
    }
}
