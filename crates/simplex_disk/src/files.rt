//! The files of a disk in memory, as they read.
ghost use Rattle.std.specs.Prelude.{◌≡◌, ◌≤◌, ◌<◌, None, Some, IfOk, OnOk, OnErr, length, [], ◌∷◌};
ghost use Rattle.simplex_disk.specs.Calls.{bytes_of, written, cut_to};
ghost use Rattle.simplex_disk.specs.Answers.{IsListing};
ghost use Rattle.simplex_disk.specs.Files.{kept_of, Rewrites};
ghost use Rattle.simplex_disk.specs.Memory.{file_in};

use std::alloc::{AllocError, Global};
use std::collections::BTreeMap;

/// The bytes of each file, by its number.
pub(crate) type Files = BTreeMap<u64, Vec<u8>>;

// Writes over what is there, and past the end.
fn write_over(file: &mut Vec<u8>, place: usize, bytes: &[u8]) -> Result<(), AllocError>
    requires { place ≤ length file.old.items }
    ensures ok { OnOk result (file.new.items ≡ written place bytes.now file.old.items) }
    ensures err { OnErr result (file.new.items ≡ file.old.items) }
{
    let over = bytes.len().min(file.len() - place);
    file.extend_from_slice(&bytes[over..])?;
    file[place..place + over].copy_from_slice(&bytes[..over]);
    Ok(())
}

fn copy_of(alloc: Global, bytes: &[u8]) -> Result<Vec<u8>, AllocError>
    ensures { IfOk result (λ copy. copy.items ≡ bytes.now) }
{
    let mut copy = Vec::new(alloc);
    copy.extend_from_slice(bytes)?;
    Ok(copy)
}

// Makes the file.
fn make_file(files: &mut Files, number: u64, bytes: Vec<u8>) -> Result<(), AllocError>
    ensures ok { OnOk result (Rewrites number files.old.entries files.new.entries
        (λ _. Some bytes.items)) }
    ensures err { OnErr result (kept_of files.new.entries ≡ kept_of files.old.entries) }
{
    files.insert(number, bytes)?;
    Ok(())
}

/// The bytes of the file, none where it is not there.
pub(crate) fn read_file(files: &Files, alloc: Global, number: u64) -> Result<Vec<u8>, AllocError>
    ensures { IfOk result (λ bytes. bytes.items
        ≡ bytes_of (file_in (kept_of files.now.entries) number)) }
{
    match files.get(&number) {
        Some(bytes) => copy_of(alloc, bytes),
        None => Ok(Vec::new(alloc)),
    }
}

/// The numbers of the files.
pub(crate) fn numbers_of(files: &Files, alloc: Global) -> Result<Vec<u64>, AllocError>
    ensures { IfOk result
        (λ numbers. IsListing (file_in (kept_of files.now.entries)) numbers.items) }
{
    let mut numbers = Vec::new(alloc);
    // The length is asked for its clause, which says that the numbers rise.
    let _ordered = files.len();
    for (number, _) in files {
        numbers.push(*number)?;
    }
    Ok(numbers)
}

/// Writes over what is there, and past the end, where the place is at most the length.
pub(crate) fn write_file(
    files: &mut Files,
    alloc: Global,
    number: u64,
    place: u64,
    bytes: &[u8],
) -> Result<(), AllocError>
    requires { place ≤ length (bytes_of (file_in (kept_of files.old.entries) number)) }
    ensures ok { OnOk result (Rewrites number files.old.entries files.new.entries
        (λ old. Some (written place bytes.now (bytes_of old)))) }
    ensures err { OnErr result (kept_of files.new.entries ≡ kept_of files.old.entries) }
{
    if let Some(file) = files.get_mut(&number) {
        return write_over(file, place as usize, bytes);
    }
    make_file(files, number, copy_of(alloc, bytes)?)
}

/// Cuts the file to a length, where it is there and longer.
pub(crate) fn cut_file(files: &mut Files, number: u64, len: u64)
    ensures { Rewrites number files.old.entries files.new.entries (cut_to len) }
{
    if let Some(file) = files.get_mut(&number) {
        file.truncate(len as usize);
    }
}

/// Removes the file, where it is there.
pub(crate) fn remove_file(files: &mut Files, number: u64)
    ensures { Rewrites number files.old.entries files.new.entries (λ _. None) }
{
    files.remove(&number);
}

/// Puts a byte at a place of the file.
pub(crate) fn put_byte(files: &mut Files, number: u64, place: u64, byte: u8)
    requires { place < length (bytes_of (file_in (kept_of files.old.entries) number)) }
    ensures { Rewrites number files.old.entries files.new.entries
        (λ old. Some (written place (byte ∷ []) (bytes_of old))) }
{
    if let Some(file) = files.get_mut(&number) {
        file[place as usize] = byte;
    }
}
