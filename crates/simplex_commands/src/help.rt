//! What there is to say on the commands.
use crate::command::Command;

/// What the program is, and its version.
pub const VERSION: &str = "letsvaku 1.0.0\n";

const ALL: &str = "letsvaku: Byzantine consensus (Simplex), run event by event

letsvaku COMMAND .. [FILE]   FILE is read in place of standard input

  run [FILE]                 runs the events of an input, and prints what became final, evidence, and stops
  par WORKERS [FILE]         the same, with so many threads
  gen SEED STEPS             runs events that the number makes, and sums the run up in a line
  trace [FILE]               prints what each event did; of a refused run also why, and what was open then
  script [--events] [FILE]   plays a text of commands, and prints it with what came out below each line
  simulate SEED STEPS ..     makes events for a setup without events, and prints what came out
  shrink LINE [FILE]         leaves events out while the run still makes the line, and prints the input that is left
  logs [FILE]                prints the finalized log of each honest node
  balances [FILE]            prints the balances that finalized blocks make of accounts
  chain [FILE]               runs one network after another, and prints each member's chain through all of them
  record [FILE]              prints the record of a run
  check [FILE]               judges a record
  view [FILE]                prints a page for a browser that shows the run event by event
  help [COMMAND]             prints this, or what there is to say on a command; so do --help and -h anywhere
  version                    prints the program's version; so does --version anywhere

Status: 0 done, 1 the run is refused, 2 the words are wrong, 3 the input is not of the form, 4 it is too long, 5 it
cannot be read, 6 the output cannot be written, 7 out of memory, 8 and above what the command says, 20 FILE cannot be opened.
";

const RUN: &str = "letsvaku run [FILE]

Runs the events of an input (docs/INPUT.md), and prints a line for each finalization, piece of evidence and stop.
";

const PAR: &str = "letsvaku par WORKERS [FILE]

Runs the events of an input with so many threads, and prints what run prints.

  WORKERS   1 to 64
";

const GEN: &str = "letsvaku gen SEED STEPS

Runs events that the number makes, and sums the run up in a line. It reads nothing.

  SEED      0 to 18446744073709551615
  STEPS     0 to 1048576 events
";

const TRACE: &str = "letsvaku trace [FILE]

Prints what each event of an input did. Of a refused run it prints also why, and what was open then (docs/INPUT.md).
";

const SCRIPT: &str = "letsvaku script [--events] [FILE]

Plays a script, a text of commands (docs/SCRIPTS.md), and prints it with what came out below each line.

  --events  prints the input that has its events instead
";

const SIMULATE: &str =
    "letsvaku simulate SEED STEPS [--drop P] [--delay P] [--repeat P] [--crash P] [--events] [FILE]

Makes events for an input whose list of events is empty, and prints what run prints of them.

  SEED      0 to 18446744073709551615: what is drawn is drawn from it
  STEPS     0 to 1048576 choices, of which each makes one event or none
  --drop P  of 100 packets so many are lost: 0 to 100
  --delay P so many are delivered after all that waits
  --repeat P
            so many are delivered twice
  --crash P of 100 steps so many are crashes, after which the node starts again
  --events  prints the input that was made instead
";

const SHRINK: &str = "letsvaku shrink LINE [FILE]

Leaves events out while the run of the input still makes the line, and prints the input that is left.

  LINE      what a line of run says after its event, or its last words, in quotes:
            'node 0.0 stopped crash', or 'refused NoPacket'
Status 9: the run of the input does not make the line.
";

const LOGS: &str = "letsvaku logs [FILE]

Runs the events of an input, and prints the finalized log of each honest node. All of them are of one chain.
";

const BALANCES: &str = "letsvaku balances [FILE]

Runs an input with accounts and blocks (docs/INPUT.md), and prints the balances of each honest node.
";

const CHAIN: &str = "letsvaku chain [FILE]

Runs the epochs of an input (docs/INPUT.md) one after another, and prints the chain of each member that is honest in all of them.
Status 8: an epoch's number is not the next one; 9: its run is refused; 10: it was not closed.
";

const RECORD: &str = "letsvaku record [FILE]

Runs the events of an input, and prints the record of what came of them, which check judges and the viewer opens.
";

const CHECK: &str = "letsvaku check [FILE]

Judges a record, whoever wrote it, by definitions that need no engine: prints sound, or the first fault.
";

const VIEW: &str = "letsvaku view [--page FOLDER] [FILE]

Prints a page with the record of the run inside, for a browser: letsvaku view my.json > my.html
Of a refused run it shows the events before the refused one, and why that one was refused.

  --page FOLDER
            where the page's files index.html and viewer.js are, in place of viewer
Status 21: the files of the page cannot be read.
";

const HELP: &str = "letsvaku help [COMMAND]

Prints all commands, or what there is to say on one.
";

const ABOUT_VERSION: &str = "letsvaku version

Prints the program's version.
";

/// The form of a command, behind the program's name.
pub fn form_of(command: Command) -> &'static str {
    match command {
        Command::Run => "run [FILE]",
        Command::Par => "par WORKERS [FILE]",
        Command::Gen => "gen SEED STEPS",
        Command::Trace => "trace [FILE]",
        Command::Script => "script [--events] [FILE]",
        Command::Simulate => {
            "simulate SEED STEPS [--drop P] [--delay P] [--repeat P] [--crash P] [--events] [FILE]"
        }
        Command::Shrink => "shrink 'LINE' [FILE]",
        Command::Logs => "logs [FILE]",
        Command::Balances => "balances [FILE]",
        Command::Chain => "chain [FILE]",
        Command::Record => "record [FILE]",
        Command::Check => "check [FILE]",
        Command::View => "view [--page FOLDER] [FILE]",
        Command::Help => "help [COMMAND]",
        Command::Version => "version",
    }
}

/// What there is to say on a command, or on all of them.
pub fn help_text(command: Option<Command>) -> &'static str {
    let Some(command) = command else {
        return ALL;
    };
    match command {
        Command::Run => RUN,
        Command::Par => PAR,
        Command::Gen => GEN,
        Command::Trace => TRACE,
        Command::Script => SCRIPT,
        Command::Simulate => SIMULATE,
        Command::Shrink => SHRINK,
        Command::Logs => LOGS,
        Command::Balances => BALANCES,
        Command::Chain => CHAIN,
        Command::Record => RECORD,
        Command::Check => CHECK,
        Command::View => VIEW,
        Command::Help => HELP,
        Command::Version => ABOUT_VERSION,
    }
}
