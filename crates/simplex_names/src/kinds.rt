//! The words for kinds of members.
ghost use Rattle.std.specs.Prelude.{◌≡◌};
ghost use Rattle.simplex_names.specs.Names as said;

use simplex_transcript::MemberKind;

/// The kind of members that a word names, if there is one; an outdated member has none, since it is told with its views.
pub fn named_kind_of(word: &str) -> Option<MemberKind>
    ensures { result ≡ said.named_kind_of word.now }
{
    match word {
        "honest" => Some(MemberKind::Honest),
        "silent" => Some(MemberKind::Silent),
        "conflicter" => Some(MemberKind::Conflicter),
        "equivocator" => Some(MemberKind::Equivocator),
        "impersonator" => Some(MemberKind::Impersonator),
        "nuller" => Some(MemberKind::Nuller),
        "nullify_only" => Some(MemberKind::NullifyOnly),
        "reconfigurer" => Some(MemberKind::Reconfigurer),
        "corrupt" => Some(MemberKind::Corrupt),
        "unrecovering" => Some(MemberKind::Unrecovering),
        "twin" => Some(MemberKind::Twin),
        _ => None,
    }
}
