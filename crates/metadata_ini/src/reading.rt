//! `metadata`, read.
ghost use Rattle.std.specs.Prelude.{◌≡◌, ◌≤◌, length, IfErr, IfOk, IfSome, OnOk};
ghost use Rattle.folder_forms.specs.Metadata.{IsMetadataText};
ghost use Rattle.metadata_ini.specs.Fault.{IsMetadataFault};
ghost use Rattle.metadata_ini.specs.Reading.{ComparesLines, EndsMetadata, HasFiles, IsFaultAtEnd, front_lines};

use crate::cuts::cut;
use crate::fault::MetadataFault;
use crate::file_lines::read_file_line;
use crate::heads::{after_word, read_head};
use crate::orders::in_order;
use crate::positions::read_position;
use crate::spelling::is_same;
use crate::writing::append_tables;
use folder_forms::{FileLine, FileLineList, Metadata};
use plain_data::{Buffer, OutOfMemory};
use server_data::Position;
use std::alloc::Global;

// The files whose lines the text begins with, and what follows them.
fn read_files(alloc: Global, text: &[u8]) -> Result<(FileLineList, &[u8]), OutOfMemory>
    ensures { IfOk result (λ r. HasFiles text.now r.0 r.1.now) }
{
    let mut files = FileLineList::new(alloc);
    let mut rest = text;
    'lines: while rest.len() > 0 {
        let Some((line, after)) = cut(b'\n', rest) else {
            return Ok((files, rest));
        };
        let Some(file) = read_file_line(alloc, line)? else {
            return Ok((files, rest));
        };
        files.push(file)?;
        rest = after;
    }
    Ok((files, rest))
}

// How many lines of the wanted text the other one begins with, if it isn't the same.
fn other_line(wanted: &[u8], text: &[u8]) -> Option<usize>
    ensures lines { ComparesLines wanted.now text.now result }
    ensures low { IfSome result (λ count. count ≤ length wanted.now) }
{
    let mut left = wanted;
    let mut rest = text;
    let mut count: usize = 0;
    'lines: while left.len() > 0 {
        let Some((line, further)) = cut(b'\n', left) else {
            return Some(count);
        };
        let Some((found, after)) = cut(b'\n', rest) else {
            return Some(count);
        };
        if !is_same(found, line) {
            return Some(count);
        }
        left = further;
        rest = after;
        count += 1;
    }
    if rest.len() == 0 { None } else { Some(count) }
}

// How many lines stand before those of files.
fn lines_before(position: &Option<Position>) -> usize
    ensures { result ≡ length (front_lines position.now) }
{
    match position {
        Some(_) => 9,
        None => 5,
    }
}

// What follows the lines of files: nothing, and in version 2 the lines of their tables. So many lines
// stand before those of files.
fn read_end(
    alloc: Global,
    version: u32,
    before: usize,
    files: &[FileLine],
    rest: &[u8],
) -> Result<(), MetadataFault>
    requires { before ≤ 9 }
    ensures ok { OnOk result (EndsMetadata version files.now rest.now) }
    ensures err { IfErr result (IsFaultAtEnd version before files.now rest.now) }
{
    let ordered = in_order(alloc, files)?;
    if ordered < files.len() {
        return Err(MetadataFault::BadLine((before + ordered + 1) as u64));
    }
    let lines = before + files.len();
    if version == 1 {
        return if rest.len() == 0 {
            Ok(())
        } else {
            Err(MetadataFault::BadLine((lines + 1) as u64))
        };
    }
    let Some(rest) = after_word(b"[tables]\n", rest) else {
        return Err(MetadataFault::BadLine((lines + 1) as u64));
    };
    let mut wanted = Buffer::new(alloc);
    append_tables(alloc, files, &mut wanted)?;
    match other_line(wanted.as_slice(), rest) {
        None => Ok(()),
        Some(count) => Err(MetadataFault::BadLine((lines + count + 2) as u64)),
    }
}

/// What the text of `metadata` says. `WrongVersion` comes exactly where its first line is `[dump]` and
/// its second gives a version that is a number below 2^32 other than 1 and 2. `BadLine` comes exactly
/// where that isn't so and the text is no `metadata`, with the number of the first line, from 1, with
/// which none goes on: one past the last ended line where the text ends too early or within a line.
/// `OutOfMemory` is the other refusal.
pub fn read(alloc: Global, text: &[u8]) -> Result<Metadata, MetadataFault>
    ensures ok { IfOk result (IsMetadataText text.now) }
    ensures err { IfErr result (IsMetadataFault text.now) }
{
    let (head, rest) = read_head(text)?;
    let (position, rest) = read_position(alloc, rest)?;
    let (files, rest) = read_files(alloc, rest)?;
    let before = lines_before(&position);
    if let Err(fault) = read_end(alloc, head.version, before, files.as_slice(), rest) {
        return Err(fault);
    }
    Ok(Metadata {
        version: head.version,
        started: head.started,
        finished: head.finished,
        position,
        files,
    })
}
