//! The files of a folder, of which few are held open.
use crate::error::OpenError;
use crate::member::check_owner;
use simplex_disk::{Disk, MemoryDisk};
use std::alloc::Global;
use std::collections::BTreeMap;
use std::fs::{self, File, OpenOptions, TryLockError};
use std::io;
use std::os::unix::fs::FileExt;
use std::rt::Files;

// How many files are held open, whatever the number of views that are kept: a journal writes to the newest few.
const MOST_OPEN: usize = 8;

/// Whether a file has bytes that no sync made last.
#[derive(Clone, Copy, Debug, PartialEq, Eq)]
enum Dirt {
    Clean,
    Dirty,
}

/// The files of a folder, named `NUMBER.section`. Files of other names are left alone.
#[derive(Drop)]
pub(crate) struct Folder<R: Files<File = File> + Drop> {
    rt: R,
    alloc: Global,
    path: String,
    // holds the lock while it is open
    handle: File,
    files: BTreeMap<u64, Dirt>,
    open: BTreeMap<u64, File>,
    // an entry was made or removed since the last sync of the folder
    has_new_entries: bool,
    syncs: u64,
}

// The number that the name of a file says.
fn number_of(name: &str) -> Option<u64> {
    let digits = name.strip_suffix(".section")?;
    let number = digits.parse::<u64>().ok()?;
    if digits.starts_with('+') || (digits.starts_with('0') && digits.len() > 1) {
        return None;
    }
    Some(number)
}

impl<R: Files<File = File> + AllocGlobal + Clone + Drop> Folder<R> {
    /// The folder of this owner, locked.
    pub(crate) fn open(rt: &R, path: &str, owner: &str) -> Result<Folder<R>, OpenError> {
        let alloc = rt.alloc();
        if !fs::exists(rt, path)? {
            return Err(OpenError::IsMissing);
        }
        let handle = File::open(rt, path)?;
        match handle.try_lock() {
            Ok(()) => {}
            Err(TryLockError::WouldBlock) => return Err(OpenError::IsLocked),
            Err(TryLockError::Error(error)) => return Err(OpenError::System(error)),
        }
        check_owner(rt, path, owner)?;
        Ok(Folder {
            rt: rt.clone().map_err(io::Error::from)?,
            alloc,
            path: String::from_str(alloc, path).map_err(io::Error::from)?,
            handle,
            files: BTreeMap::new(alloc),
            open: BTreeMap::new(alloc),
            has_new_entries: false,
            syncs: 0,
        })
    }

    /// What the files hold. Each is synced, since a process that was killed leaves bytes that no disk has.
    pub(crate) fn load(&mut self, rt: &R) -> io::Result<MemoryDisk> {
        let mut copy = MemoryDisk::new(self.alloc, Vec::new(self.alloc));
        for entry in fs::read_dir(rt, self.path.as_str())? {
            let entry = entry?;
            let Some(number) = number_of(entry.file_name()) else {
                continue;
            };
            let bytes = fs::read(rt, entry.path())?;
            self.files.insert(number, Dirt::Dirty)?;
            self.sync_file(number)?;
            if copy.write_at(number, 0, &bytes).is_err() {
                return Err(io::Error::from(io::ErrorKind::OutOfMemory));
            }
        }
        self.handle.sync_all()?;
        Ok(copy)
    }
}

impl<R: Files<File = File> + Drop> Folder<R> {
    fn path_of(&self, number: u64) -> io::Result<String> {
        let path = self.path.as_str();
        Ok(format!(in self.alloc; "{path}/{number}.section")?)
    }

    // Opens the file, which is made where it is not there.
    fn open_file(&mut self, number: u64) -> io::Result<()> {
        if self.open.contains_key(&number) {
            return Ok(());
        }
        if self.open.len() >= MOST_OPEN {
            // The least number is the oldest view's. Its bytes may still be dirty: a sync opens it again.
            let _oldest = self.open.pop_first();
        }
        let path = self.path_of(number)?;
        let file = OpenOptions::new()
            .read(true)
            .write(true)
            .create(true)
            .open(&self.rt, path.as_str())?;
        if !self.files.contains_key(&number) {
            self.has_new_entries = true;
        }
        self.open.insert(number, file)?;
        Ok(())
    }

    /// Writes over what is there, and past the end. The file is made where it is not there.
    pub(crate) fn write_at(&mut self, number: u64, place: u64, bytes: &[u8]) -> io::Result<()> {
        self.open_file(number)?;
        self.files.insert(number, Dirt::Dirty)?;
        match self.open.get(&number) {
            Some(file) => file.write_all_at(bytes, place),
            None => Ok(()),
        }
    }

    /// Cuts the file to a length, where it is there and longer.
    pub(crate) fn cut(&mut self, number: u64, len: u64) -> io::Result<()> {
        if !self.files.contains_key(&number) {
            return Ok(());
        }
        self.open_file(number)?;
        self.files.insert(number, Dirt::Dirty)?;
        let Some(file) = self.open.get(&number) else {
            return Ok(());
        };
        if file.metadata()?.len() > len {
            file.set_len(len)?;
        }
        Ok(())
    }

    // Makes last what the file reads, where it is there and has bytes that are not.
    fn sync_file(&mut self, number: u64) -> io::Result<()> {
        if self.files.get(&number) != Some(&Dirt::Dirty) {
            return Ok(());
        }
        self.open_file(number)?;
        if let Some(file) = self.open.get(&number) {
            file.sync_data()?;
            self.syncs = self.syncs.saturating_add(1);
        }
        self.files.insert(number, Dirt::Clean)?;
        Ok(())
    }

    /// Makes last what the file reads, and which files are there: of a removed one, that it is gone.
    pub(crate) fn sync(&mut self, number: u64) -> io::Result<()> {
        self.sync_file(number)?;
        if self.has_new_entries {
            self.handle.sync_all()?;
            self.syncs = self.syncs.saturating_add(1);
            self.has_new_entries = false;
        }
        Ok(())
    }

    /// Removes the file, where it is there.
    pub(crate) fn remove(&mut self, number: u64) -> io::Result<()> {
        if self.files.remove(&number).is_none() {
            return Ok(());
        }
        let _closed = self.open.remove(&number);
        let path = self.path_of(number)?;
        fs::remove_file(&self.rt, path.as_str())?;
        self.has_new_entries = true;
        Ok(())
    }

    /// How many syncs the system made, of files and of the folder.
    pub(crate) fn syncs(&self) -> u64 {
        self.syncs
    }
}
