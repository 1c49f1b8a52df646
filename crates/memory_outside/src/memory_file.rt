//! A file in memory, and one that is read.
ghost use Rattle.std.specs.Prelude.{◌≡◌, ◌+◌, length, string_bytes, IfOk, OnOk, OnErr};
ghost use Rattle.link_traits.specs.Contents.{File, OpenFile};
ghost use Rattle.memory_outside.specs.Memory.{with_bytes, unread, place_after, TakesFront};

use plain_data::OutOfMemory;
use std::alloc::Global;
use std::marker::Model;

// A file in memory.
#[derive(Drop)]
pub(crate) struct MemoryFile {
    name: String,
    bytes: Vec<u8>,
}

impl Model for MemoryFile {
    ghost use Rattle.std.specs.Prelude.{string_bytes};
    ghost use Rattle.link_traits.specs.Contents.{File};

    ghost Value = { File };

    ghost view = { λ f. record { name = string_bytes f.name; bytes = f.bytes.items } };
}

impl MemoryFile {
    // A copy of name and bytes.
    pub(crate) fn of(alloc: Global, name: &str, bytes: &[u8]) -> Result<MemoryFile, OutOfMemory>
        ensures { IfOk result (λ made. made ≡ record { name = name.now; bytes = bytes.now }) }
    {
        Ok(MemoryFile {
            name: String::from_str(alloc, name)?,
            bytes: bytes.to_vec(alloc)?,
        })
    }

    // A copy of the file.
    pub(crate) fn copy(&self, alloc: Global) -> Result<MemoryFile, OutOfMemory>
        ensures { IfOk result (λ made. made ≡ self.now) }
    {
        MemoryFile::of(alloc, self.name(), self.bytes())
    }

    pub(crate) fn name(&self) -> &str
        ensures { result.now ≡ self.now.name }
    {
        self.name.as_str()
    }

    pub(crate) fn bytes(&self) -> &[u8]
        ensures { result.now ≡ self.now.bytes }
    {
        self.bytes.as_slice()
    }

    // Gives the file another name.
    pub(crate) fn set_name(&mut self, name: String)
        ensures { self.new ≡ record self.old { name = string_bytes name } }
    {
        self.name = name;
    }

    // Adds bytes at the end.
    pub(crate) fn extend(&mut self, bytes: &[u8]) -> Result<(), OutOfMemory>
        ensures ok { OnOk result (self.new ≡ with_bytes self.old bytes.now) }
        ensures err { OnErr result (self.new ≡ self.old) }
    {
        self.bytes.extend_from_slice(bytes)?;
        Ok(())
    }
}

// A file that is read: its bytes, and how many of them were read.
#[derive(Drop)]
pub(crate) struct FileReader {
    bytes: Vec<u8>,
    place: usize,
}

impl Model for FileReader {
    ghost use Rattle.std.specs.Prelude.{◌≤◌, take, drop, vec_len};
    ghost use Rattle.link_traits.specs.Contents.{OpenFile};

    ghost Value = { OpenFile };

    ghost view = { λ f. record {
      read = take f.place f.bytes.items;
      left = drop f.place f.bytes.items;
    } };

    ghost invariant = { λ f. f.place ≤ vec_len f.bytes };
}

impl FileReader {
    // A copy of the bytes, of which none was read.
    pub(crate) fn of(alloc: Global, bytes: &[u8]) -> Result<FileReader, OutOfMemory>
        ensures { IfOk result (λ made. made ≡ unread bytes.now) }
    {
        Ok(FileReader {
            bytes: bytes.to_vec(alloc)?,
            place: 0,
        })
    }

    // How many bytes were read once a read has filled so much room, or has come to the end.
    pub(crate) fn place_after(&self, room: usize) -> usize
        ensures { result ≡ place_after self.now room }
    {
        self.place + room.min(self.bytes.len() - self.place)
    }

    // Copies the next bytes to the front of the buffer, as many as are left and fit.
    pub(crate) fn take_front(&mut self, buffer: &mut [u8]) -> usize
        ensures front { TakesFront self.old buffer.new result self.new }
        ensures len { length buffer.new ≡ length buffer.old }
    {
        let left = &self.bytes[self.place..];
        let count = left.len().min(buffer.len());
        buffer[..count].copy_from_slice(&left[..count]);
        self.place += count;
        count
    }
}
