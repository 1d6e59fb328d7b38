//! What each word forbids, and when the premises are met.
ghost use Rattle.std.specs.Prelude.{◌≡◌, List, [], ◌∷◌, Ok};
ghost use Rattle.simplex_transcript.specs.declared.entry.Entry.{Entry};
ghost use Rattle.model_run.specs.Run.{Run};
ghost use Rattle.model_run.specs.Samples.{alone, at, starts};
ghost use Rattle.model_run.specs.Setting.{at_epoch_genesis};
ghost use Rattle.law_run.specs.Sayings.{Each};
ghost use Rattle.law_run.specs.Fitting.{IsTyped};
ghost use Rattle.law_run.specs.Late.{late};
ghost use Rattle.law_run.specs.MostlyHonest.{IsMostlyHonest};
ghost use Rattle.law_run.specs.BackingSamples.{sample, with_silent, after_noise};
ghost use Rattle.law_run.specs.WellSent.{EachWellSent, AllWellSent};
ghost use Rattle.law_run.specs.Words.{Word, AllBut};

use crate::computed::a_start_is_quiet;

/// That no two certificates conflict follows from other words (`agreement_follows`). None of the rest follows: of each there
/// are entries which all others let pass, and in which no two conflict.
pub fn each_word_is_needed()
    ensures { (word : Word) → AllBut (at_epoch_genesis alone) (sample word) word }
{}

/// That a certificate comes some time is not enough: of a finalize whose notarization comes behind it the votes are in order
/// over all entries, and not behind each.
pub fn late_certificates_do_not_count()
    ensures whole { EachWellSent alone late }
    ensures refused { ¬ (AllWellSent alone late) }
{}

/// The premises are met where nothing happened yet, where a faulty member sends bytes, and where a member starts.
pub fn premises_can_be_met()
    ensures nothing { IsMostlyHonest (at_epoch_genesis alone) [] }
    ensures noise { IsMostlyHonest (at_epoch_genesis with_silent) after_noise }
    ensures start { (entries : List Entry) × (Run alone (starts at ∷ []) ≡ Ok entries)
        × Each IsTyped entries }
{
    a_start_is_quiet();
}
