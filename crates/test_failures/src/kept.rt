//! A source that keeps what it gives, as long as there is not too much of it.
use simplex_diagnosis::KeptSource;
use simplex_io::{MemorySource, read_bytes};
use std::test::Fail;

#[test]
fn what_is_read_is_kept(rt: HostRuntime) -> Result<(), Fail> {
    let alloc = rt.alloc();
    let bytes = vec![in alloc; 7u8; 10_000]?;
    let mut source = KeptSource::new(alloc, MemorySource::new(bytes, Vec::new(alloc)));
    let read = read_bytes(alloc, &mut source).ok().ok_or("bytes")?;
    assert!(rt; source.bytes() == Some(read.as_slice()));
    let bytes = vec![in alloc; 7u8; 5_000_000]?;
    let mut source = KeptSource::new(alloc, MemorySource::new(bytes, Vec::new(alloc)));
    let read = read_bytes(alloc, &mut source).ok().ok_or("bytes")?;
    assert_eq!(rt; read.len(), 5_000_000);
    assert!(rt; source.bytes().is_none());
    Ok(())
}
