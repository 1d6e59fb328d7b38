//! The words for what has a name.
ghost use Rattle.std.specs.Prelude.{◌≡◌};
ghost use Rattle.simplex_writer.specs.Names as names;

use simplex_types::ForwardPolicy;

pub(crate) fn forward_name(forward: ForwardPolicy) -> &'static str
    ensures { result.now ≡ names.forward_name forward }
{
    match forward {
        ForwardPolicy::Disabled => "disabled",
        ForwardPolicy::SilentVoters => "voters",
        ForwardPolicy::SilentLeader => "leader",
    }
}

pub(crate) fn flag_name(flag: bool) -> &'static str
    ensures { result.now ≡ names.flag_name flag }
{
    if flag { "true" } else { "false" }
}
