//! The file that says whose folder it is.
use crate::error::{InitError, OpenError};
use std::fs::{self, File, OpenOptions};
use std::io::{self, Write};
use std::rt::Files;

// Its name, and that of one which is not whole yet.
const MEMBER: &str = "member";

const UNFINISHED: &str = "member.new";

// The folder in which the folder of this path stands.
fn parent_of(path: &str) -> &str {
    let path = path.trim_end_matches('/');
    match path.rsplit_once('/') {
        None => ".",
        Some(("", _)) => "/",
        Some((parent, _)) => parent,
    }
}

/// Makes the folder of a member that never ran. Its file `member` has the text of the owner, by which [`crate::FileDisk::open`] knows it
/// again. When this returns, file, folder and their entries outlast a power loss.
pub fn init<R: Files<File = File> + AllocGlobal + Drop>(
    rt: &R,
    path: &str,
    owner: &str,
) -> Result<(), InitError> {
    let alloc = rt.alloc();
    let member = format!(in alloc; "{path}/{MEMBER}").map_err(io::Error::from)?;
    let unfinished = format!(in alloc; "{path}/{UNFINISHED}").map_err(io::Error::from)?;
    if !fs::exists(rt, path)? {
        fs::create_dir(rt, path)?;
    }
    if fs::exists(rt, member.as_str())? {
        return Err(InitError::IsMade);
    }
    write_whole(rt, unfinished.as_str(), owner)?;
    // A rename is whole or not at all: no crash leaves half a text under the name that counts.
    fs::rename(rt, unfinished.as_str(), member.as_str())?;
    sync_folder(rt, path)?;
    sync_folder(rt, parent_of(path))?;
    Ok(())
}

// Writes a file of this text alone, and syncs it.
fn write_whole<R: Files<File = File>>(rt: &R, path: &str, text: &str) -> io::Result<()> {
    let mut file = OpenOptions::new()
        .write(true)
        .create(true)
        .truncate(true)
        .open(rt, path)?;
    file.write_all(text.as_bytes())?;
    file.sync_all()
}

// Makes last which entries the folder has.
fn sync_folder<R: Files<File = File>>(rt: &R, path: &str) -> io::Result<()> {
    File::open(rt, path)?.sync_all()
}

/// Sees that the folder was made for this owner.
pub(crate) fn check_owner<R: Files<File = File> + AllocGlobal + Drop>(
    rt: &R,
    path: &str,
    owner: &str,
) -> Result<(), OpenError> {
    let alloc = rt.alloc();
    let member = format!(in alloc; "{path}/{MEMBER}").map_err(io::Error::from)?;
    if !fs::exists(rt, member.as_str())? {
        return Err(OpenError::IsMissing);
    }
    let text = fs::read(rt, member.as_str())?;
    if text.as_slice() != owner.as_bytes() {
        return Err(OpenError::IsForeign);
    }
    Ok(())
}
