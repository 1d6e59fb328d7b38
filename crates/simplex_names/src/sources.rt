//! The words for what a step takes from.
ghost use Rattle.std.specs.Prelude.{◌≡◌};
ghost use Rattle.simplex_names.specs.Names as said;

use simplex_transcript::StepSource;

/// The word for what a step takes from.
pub fn source_word(source: StepSource) -> &'static str
    ensures { result.now ≡ said.source_word source }
{
    match source {
        StepSource::Batcher => "batcher",
        StepSource::Voter => "voter",
        StepSource::Timer => "timer",
        StepSource::Propose => "propose",
        StepSource::Verify => "verify",
        StepSource::Certify => "certify",
        StepSource::Resolver => "resolver",
        StepSource::Handler => "handler",
        StepSource::Fetch => "fetch",
    }
}

/// What a step takes from that a word names, if there is such a source.
pub fn source_of(word: &str) -> Option<StepSource>
    ensures { result ≡ said.source_of word.now }
{
    match word {
        "batcher" => Some(StepSource::Batcher),
        "voter" => Some(StepSource::Voter),
        "timer" => Some(StepSource::Timer),
        "propose" => Some(StepSource::Propose),
        "verify" => Some(StepSource::Verify),
        "certify" => Some(StepSource::Certify),
        "resolver" => Some(StepSource::Resolver),
        "handler" => Some(StepSource::Handler),
        "fetch" => Some(StepSource::Fetch),
        _ => None,
    }
}
