//! Bytes where there may be too little room for them.
ghost use Rattle.std.specs.Prelude.{◌≡◌};
ghost use Rattle.simplex_c.specs.Filled.{filled};

/// Writes the first of the bytes, as many as there is room for.
pub(crate) fn fill(room: &mut [u8], bytes: &[u8])
    ensures { room.new ≡ filled room.old bytes.now }
{
    let count = room.len().min(bytes.len());
    room[..count].copy_from_slice(&bytes[..count]);
}
