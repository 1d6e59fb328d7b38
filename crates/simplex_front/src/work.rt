//! What a program makes of its words and of an input.
ghost use Rattle.std.specs.Prelude.{◌≡◌, ℕ, List, Option, IfOk, String};
ghost use Rattle.std.specs.declared.alloc.Global.{Global};
ghost use Rattle.simplex_front.specs.Answer.{IsAnswer};

use crate::answer::Answer;
use std::alloc::{AllocError, Global};

/// What a program makes of its words and of the bytes of an input. Its words ask for an `A`, whole work makes a `D`, and what is
/// refused is so for an `R`.
pub trait Work<A: Drop, D: Drop, R: Drop> {
    /// What words ask for, if the program takes them.
    ghost asked: { Self → List (String Global) → Option A };

    /// What is said of words that are not taken.
    ghost usage_line: { Self → List ℕ };

    /// What was asked and the bytes lead to this, which is told by this text.
    ghost does: { Self → A → List ℕ → D → List ℕ → Type 0 };

    /// They lead to this reason, which is told by this text.
    ghost refuses: { Self → A → List ℕ → R → List ℕ → Type 0 };

    /// The bytes are not of the form: this is the first place.
    ghost misreads: { Self → A → List ℕ → ℕ → Type 0 };

    /// What the words ask for, if they are taken. An error is want of memory.
    fn ask(&self, alloc: Global, words: &[String]) -> Result<Option<A>, AllocError>
        ensures { IfOk result (λ ask. ask ≡ asked self.now words.now) };

    /// The line on words that are not taken.
    fn usage(&self) -> &str
        ensures { result.now ≡ usage_line self.now };

    /// Does what was asked with the bytes of an input. An error is want of memory.
    fn work(&self, alloc: Global, ask: A, bytes: Vec<u8>) -> Result<Answer<D, R>, AllocError>
        ensures { IfOk result (λ answer. IsAnswer (does self.now ask bytes.items) (refuses self.now ask bytes.items)
            (misreads self.now ask bytes.items) answer) };
}
