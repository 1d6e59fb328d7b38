//! The name that is nearest to a word.
ghost use Rattle.std.specs.Prelude.{◌≡◌, ℕ, List, IfOk, IfSome, IfNone};
ghost use Rattle.simplex_commands.specs.Commands as said;
ghost use Rattle.simplex_commands.specs.Nearest.{AreFar, IsNearest};

use crate::command::{Command, command_word};
use crate::flag::{Flag, flag_word};
use std::alloc::{AllocError, Global};
use strsim::levenshtein;

/// How many edits a name is away from a word at most, so that it may have been meant.
pub const MOST_EDITS: usize = 2;

/// What has a name.
pub trait Named: Copy {
    /// Its name.
    ghost name_of: { Self → List ℕ };

    /// Its name.
    fn name(self) -> &'static str
        ensures { result.now ≡ name_of self };
}

impl Named for Command {
    ghost name_of = { said.command_word };

    fn name(self) -> &'static str {
        command_word(self)
    }
}

impl Named for Flag {
    ghost name_of = { said.flag_word };

    fn name(self) -> &'static str {
        flag_word(self)
    }
}

/// The one of these whose name is nearest to the word, if it is at most two edits away. An edit puts a character in, leaves one out, or
/// puts another one in its place. Of several that are equally near it is the first.
pub fn nearest<N: Named>(alloc: Global, word: &str, among: &[N]) -> Result<Option<N>, AllocError>
    ensures some { IfOk result (λ found. IfSome found (IsNearest N.name_of word.now among.now)) }
    ensures none { IfOk result (λ found. IfNone found (AreFar N.name_of word.now among.now)) }
{
    let mut found = None;
    let mut least = MOST_EDITS + 1;
    for one in among {
        let away = levenshtein(alloc, word, one.name())?;
        if away < least {
            least = away;
            found = Some(*one);
        }
    }
    Ok(found)
}
