//! A program says on standard error what is wrong with its input.
use crate::faults::explain;
use crate::kept::KeptSource;
use simplex_io::Source;

/// Says what is wrong with the input, of which this place is not of the form, behind the program's name. Where nothing of the input
/// was kept, memory is short, or standard error fails, nothing is said.
pub fn say_why<S: Source + Drop>(
    rt: &(impl Eprint + AllocGlobal),
    name: &str,
    place: u64,
    source: &KeptSource<S>,
) {
    let Some(bytes) = source.bytes() else {
        return;
    };
    if let Ok(why) = explain(rt.alloc(), bytes, place) {
        let _said = eprintln!(rt; "{name}: {why}");
    }
}
