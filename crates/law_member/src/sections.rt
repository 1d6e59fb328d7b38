//! Which section of the journal a step writes to.
ghost use Rattle.std.specs.Prelude.{All};
ghost use Rattle.model_steps.specs.Voter.{OfStep};
ghost use Rattle.law_member.specs.Sections.{touched_view, IsOfSection};

/// Each record that a step appends is of the view that the step touches, and goes to that view's section, and the
/// step syncs no other section. A step that touches no view appends nothing and syncs nothing.
pub fn steps_write_to_one_section()
    ensures { OfStep (λ made now input standing doing.
        All (IsOfSection (touched_view made now standing input)) doing.calls) }
{}
