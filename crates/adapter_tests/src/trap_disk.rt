//! A disk on which what has certain names fails.

use std::alloc::{AllocError, Allocator, Global};
use std::fs::{File, Metadata, OpenFile, OpenOptions};
use std::io::{ErrorKind, Read, Seek, SeekFrom, Write};
use std::rt::Files;
use std::{fs, io};

/// The system's disk, but that `closed` doesn't open, `full` takes two bytes and then none, `unreadable`
/// gives none, nothing is renamed to `taken`, and neither `trap` nor a directory that has one gets to
/// the disk.
#[derive(Drop)]
pub struct TrapDisk {
    rt: HostRuntime,
}

/// A file of such a disk, or a directory.
#[derive(Drop)]
pub struct TrapFile {
    rt: HostRuntime,
    file: File,
    path: String,
}

impl TrapDisk {
    /// The disk.
    pub fn new(rt: HostRuntime) -> TrapDisk {
        TrapDisk { rt }
    }
}

impl Clone for TrapDisk {
    fn clone(&self) -> Result<TrapDisk, AllocError> {
        Ok(TrapDisk { rt: self.rt })
    }
}

impl Alloc for TrapDisk {
    type A = Global;

    fn alloc(&self) -> Global {
        self.rt.alloc()
    }
}

// A failure where the path ends in this name.
fn fails_at(path: &str, name: &str) -> io::Result<()> {
    if path.ends_with(name) {
        return Err(io::Error::from(ErrorKind::PermissionDenied));
    }
    Ok(())
}

impl TrapFile {
    // Whether the directory has a trap.
    fn has_trap(&self) -> io::Result<bool> {
        let path = &self.path;
        let trap = format!(in self.rt.alloc(); "{path}/trap")?;
        Ok(fs::exists(&self.rt, trap).unwrap_or(false))
    }

    // How many more bytes the file takes.
    fn room(&self) -> io::Result<usize> {
        if !self.path.as_str().ends_with("/full") {
            return Ok(usize::MAX);
        }
        let size = self.file.metadata()?.len();
        Ok(2 - size.min(2) as usize)
    }
}

impl Read for TrapFile {
    fn read(&mut self, buf: &mut [u8]) -> io::Result<usize> {
        fails_at(self.path.as_str(), "/unreadable")?;
        self.file.read(buf)
    }
}

impl Write for TrapFile {
    fn write(&mut self, buf: &[u8]) -> io::Result<usize> {
        let room = self.room()?;
        self.file.write(&buf[..buf.len().min(room)])
    }

    fn flush(&mut self) -> io::Result<()> {
        self.file.flush()
    }
}

impl Seek for TrapFile {
    fn seek(&mut self, to: SeekFrom) -> io::Result<u64> {
        self.file.seek(to)
    }
}

impl OpenFile for TrapFile {
    fn metadata(&self) -> io::Result<Metadata> {
        self.file.metadata()
    }

    fn set_len(&self, size: u64) -> io::Result<()> {
        self.file.set_len(size)
    }

    fn sync_all(&self) -> io::Result<()> {
        fails_at(self.path.as_str(), "/trap")?;
        if self.has_trap()? {
            return Err(io::Error::from(ErrorKind::Other));
        }
        self.file.sync_all()
    }

    fn sync_data(&self) -> io::Result<()> {
        self.file.sync_data()
    }
}

impl Files for TrapDisk {
    type File = TrapFile;

    type Dir = <HostRuntime as Files>::Dir;

    fn open_file(&self, how: &OpenOptions, path: &str) -> io::Result<TrapFile> {
        fails_at(path, "/closed")?;
        let file = self.rt.open_file(how, path)?;
        let path = String::from_str(self.rt.alloc(), path)?;
        Ok(TrapFile {
            rt: self.rt,
            file,
            path,
        })
    }

    fn open_dir(&self, path: &str) -> io::Result<<HostRuntime as Files>::Dir> {
        self.rt.open_dir(path)
    }

    fn metadata(&self, path: &str) -> io::Result<Metadata> {
        self.rt.metadata(path)
    }

    fn symlink_metadata(&self, path: &str) -> io::Result<Metadata> {
        self.rt.symlink_metadata(path)
    }

    fn copy(&self, from: &str, to: &str) -> io::Result<u64> {
        self.rt.copy(from, to)
    }

    fn rename(&self, from: &str, to: &str) -> io::Result<()> {
        fails_at(to, "/taken")?;
        self.rt.rename(from, to)
    }

    fn remove_file(&self, path: &str) -> io::Result<()> {
        self.rt.remove_file(path)
    }

    fn create_dir(&self, path: &str) -> io::Result<()> {
        self.rt.create_dir(path)
    }

    fn create_dir_with_mode(&self, path: &str, mode: u32) -> io::Result<()> {
        self.rt.create_dir_with_mode(path, mode)
    }

    fn remove_dir(&self, path: &str) -> io::Result<()> {
        self.rt.remove_dir(path)
    }

    fn remove_dir_all<B: Allocator>(&self, alloc: B, path: &str) -> io::Result<()> {
        self.rt.remove_dir_all(alloc, path)
    }
}
