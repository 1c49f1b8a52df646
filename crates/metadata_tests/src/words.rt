//! What comes of a text.
ghost use Rattle.folder_forms.specs.Metadata.{HasMetadata};

use folder_forms::Metadata;
use metadata_ini::{MetadataFault, read, write_into};
use plain_data::{Buffer, OutOfMemory};
use std::alloc::Global;

/// What a text says, or why it isn't read. It is refused only for want of memory.
pub fn read_words(alloc: Global, text: &[u8]) -> Result<String, OutOfMemory> {
    match read(alloc, text) {
        Ok(metadata) => written_words(alloc, &metadata, text),
        Err(MetadataFault::OutOfMemory) => Err(OutOfMemory),
        Err(fault) => Ok(format!(in alloc; "{fault}")?),
    }
}

// How many files a value has, and whether it is written as the text from which it was read.
fn written_words(alloc: Global, metadata: &Metadata, text: &[u8]) -> Result<String, OutOfMemory>
    requires { HasMetadata metadata.now }
{
    let mut out = Buffer::new(alloc);
    write_into(alloc, metadata, &mut out)?;
    let files = metadata.files.as_slice().len();
    if out.as_slice() == text {
        Ok(format!(in alloc; "{files} files")?)
    } else {
        Ok(format!(in alloc; "{files} files, written otherwise")?)
    }
}
