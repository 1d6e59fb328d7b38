//! The time of a call.
ghost use Rattle.std.specs.Prelude.{◌<◌, ◌^◌};

/// A time that an engine was told, in milliseconds. [clocks-are-given]
#[derive(Clone, Copy)]
pub(crate) struct Clock {
    pub(crate) ms: u64,
    ghost in_time: { ms < 2 ^ 63 },
}
