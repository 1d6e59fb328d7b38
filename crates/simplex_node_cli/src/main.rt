//! A member as a process: commands come in as lines, and what the member does goes out as lines (docs/NODE.md).
//!
//! ```text
//! simplex_node_cli init ME FOLDER < setup.json    # once
//! simplex_node_cli run ME FOLDER                  # the setup as the first line, then `start MS`, then commands
//! ```
#![tactic(auto)]

mod end;
mod life;
mod making;

use crate::end::End;
use simplex_front::words_of;
use std::alloc::AllocError;
use std::io;
use std::process::ExitCode;

const USAGE: &str = "usage: simplex_node_cli init ME FOLDER, or run ME FOLDER";

fn main(rt: HostRuntime) -> ExitCode {
    let done = match words_of(&rt) {
        Err(AllocError) => Err(End::Memory),
        Ok(words) => match words.as_slice() {
            [word, me, folder] if word.as_str() == "init" => {
                life::init(&rt, me, folder, rt.reader())
            }
            [word, me, folder] if word.as_str() == "run" => {
                life::run(&rt, me, folder, rt.reader(), io::writer(&rt))
            }
            _ => Err(End::BadWords),
        },
    };
    match done {
        Ok(()) => ExitCode::SUCCESS,
        Err(end) => {
            let _shown = match &end {
                End::BadWords => eprintln!(rt; "{USAGE}"),
                _ => eprintln!(rt; "simplex_node_cli: {end}"),
            };
            ExitCode::from(end.status())
        }
    }
}
