//! Whether all of several tests hold, each of which is made.
ghost use Rattle.std.specs.Prelude.{◌≡◌, ◌&&◌};

pub(crate) fn both(first: bool, second: bool) -> bool
    ensures { result ≡ (first && second) }
{
    first && second
}

pub(crate) fn three(first: bool, second: bool, third: bool) -> bool
    ensures { result ≡ (first && second && third) }
{
    first && second && third
}

pub(crate) fn four(first: bool, second: bool, third: bool, fourth: bool) -> bool
    ensures { result ≡ (first && second && third && fourth) }
{
    first && second && third && fourth
}

pub(crate) fn five(first: bool, second: bool, third: bool, fourth: bool, fifth: bool) -> bool
    ensures { result ≡ (first && second && third && fourth && fifth) }
{
    first && second && third && fourth && fifth
}
