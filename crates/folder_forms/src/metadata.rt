//! What `metadata` says.
ghost use Rattle.std.specs.Prelude.{◌≡◌, IfOk};

use crate::file_name::FileName;
use plain_data::{OutOfMemory, Plain, PlainList};
use server_data::Position;

/// What `metadata` says of a file.
#[derive(Drop)]
pub struct FileLine {
    pub name: FileName,
    /// How many rows it holds; 0 for a file that holds an object's text.
    pub rows: u64,
    /// How many bytes it has.
    pub bytes: u64,
    /// The SHA-1 of its bytes.
    pub digest: [u8; 20],
}

impl FileLine {
    /// An equal line. It is refused only for want of memory.
    pub fn copy(&self) -> Result<FileLine, OutOfMemory>
        ensures { IfOk result (λ made. made ≡ self.now) }
    {
        Ok(FileLine {
            name: self.name.copy()?,
            rows: self.rows,
            bytes: self.bytes,
            digest: self.digest,
        })
    }
}

impl Plain for FileLine {
    fn duplicate(&self) -> Result<FileLine, OutOfMemory> {
        self.copy()
    }
}

/// Lines of files, in the order in which the files are loaded.
pub type FileLineList = PlainList<FileLine>;

/// What the file `metadata` of a dump says.
#[derive(Drop)]
pub struct Metadata {
    /// The version of its text: 1, or 2, which has lines of tables too.
    pub version: u32,
    /// When the dump was started, in seconds since 1970.
    pub started: u64,
    /// When it was finished, in seconds since 1970. It may be before `started`, as the clock may be set.
    pub finished: u64,
    /// The position of the binary log at which the server was dumped, where it told one.
    pub position: Option<Position>,
    pub files: FileLineList,
}
