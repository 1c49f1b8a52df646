//! Lines of files, written and read.
ghost use Rattle.std.specs.Prelude.{◌≡◌, ◌≢◌, ◌<◌, ◌++◌, true, false, List, ℕ, length, IfOk, OnOk, MatchOption};
ghost use Rattle.hex.specs.Hex.{IsBytes, encode_lower};
ghost use Rattle.folder_forms.specs.Metadata.{ended, file_line, kind_word};
ghost use Rattle.metadata_ini.specs.Line.{IsFileOf, SpellsDigest, SpellsNoDigest, MayHaveRows};

use crate::cuts::fields_of;
use crate::decimals::{append_decimal, read_decimal};
use crate::fault::NameFault;
use crate::file_name::FileNameText;
use crate::spelling::{append, is_same};
use folder_forms::{FileKind, FileLine, FileName};
use object_forms::Kind;
use plain_data::{Buffer, OutOfMemory};
use std::alloc::Global;

// The word of a kind.
fn kind_word(kind: FileKind) -> &'static [u8]
    ensures { result.now ≡ kind_word kind }
{
    match kind {
        FileKind::Object(Kind::Schema) => b"schema",
        FileKind::Object(Kind::Table) => b"table",
        FileKind::Rows => b"data",
        FileKind::Object(Kind::Procedure) => b"procedure",
        FileKind::Object(Kind::Function) => b"function",
        FileKind::Object(Kind::View) => b"view",
        FileKind::Object(Kind::Trigger) => b"trigger",
        FileKind::Object(Kind::Event) => b"event",
    }
}

// Writes a digest in hexadecimal digits.
fn spell_digest(digest: &[u8], text: &mut [u8])
    requires room { length text.old ≡ 40 }
    requires digest { length digest.now ≡ 20 }
    ensures { text.new ≡ encode_lower digest.now }
{
    match hex::encode_to_slice(digest, text) {
        Ok(()) => {}
        Err(_) => unreachable!(),
    }
}

// Appends a digest in hexadecimal digits.
fn append_digest(digest: &[u8; 20], out: &mut Buffer) -> Result<(), OutOfMemory>
    ensures { OnOk result (out.new.bytes ≡ out.old.bytes ++ encode_lower digest.now) }
{
    let mut text = [0u8; 40];
    spell_digest(digest, &mut text);
    append(&text, out)
}

/// Appends the line of a file, with its line feed.
pub(crate) fn append_file_line(file: &FileLine, out: &mut Buffer) -> Result<(), OutOfMemory>
    ensures { OnOk result (out.new.bytes ≡ out.old.bytes ++ ended (file_line file.now)) }
{
    append(kind_word(file.name.kind()), out)?;
    append(b" ", out)?;
    append_decimal(file.rows, out)?;
    append(b" ", out)?;
    append_decimal(file.bytes, out)?;
    append(b" ", out)?;
    append_digest(&file.digest, out)?;
    append(b" ", out)?;
    append(file.name.text().as_bytes(), out)?;
    append(b"\n", out)
}

// Reads what may be a digest, and says whether its length and its digits are such.
fn decode(text: &[u8], digest: &mut [u8]) -> bool
    requires { length digest.old ≡ 20 }
    ensures bytes { IsBytes digest.new }
    ensures no { result ≡ false → (d : List ℕ) → ¬ SpellsDigest text.now d }
    ensures yes { result ≡ true → (d : List ℕ) → SpellsDigest text.now d → d ≡ digest.new }
{
    hex::decode_to_slice(text, digest).is_ok()
}

// The digest that is spelled so, in lower case.
fn read_digest(text: &[u8]) -> Option<[u8; 20]>
    ensures { MatchOption result (SpellsNoDigest text.now) (SpellsDigest text.now) }
{
    let mut digest = [0u8; 20];
    if !decode(text, &mut digest) {
        return None;
    }
    let mut spelled = [0u8; 40];
    spell_digest(&digest, &mut spelled);
    if is_same(text, &spelled) {
        Some(digest)
    } else {
        None
    }
}

// Whether files of a kind can have so many rows.
fn may_have_rows(kind: FileKind, rows: u64) -> bool
    ensures yes { result ≡ true → MayHaveRows kind rows }
    ensures no { result ≡ false → ¬ MayHaveRows kind rows }
{
    match kind {
        FileKind::Rows => 0 < rows,
        FileKind::Object(_) => rows == 0,
    }
}

/// The file whose line this is, if it is one's.
pub(crate) fn read_file_line(alloc: Global, text: &[u8]) -> Result<Option<FileLine>, OutOfMemory>
    ensures { IfOk result (IsFileOf text.now) }
{
    let Some(fields) = fields_of(text) else {
        return Ok(None);
    };
    let Some(rows) = read_decimal(fields.rows) else {
        return Ok(None);
    };
    let Some(bytes) = read_decimal(fields.bytes) else {
        return Ok(None);
    };
    let Some(digest) = read_digest(fields.digest) else {
        return Ok(None);
    };
    let name = match FileName::read(alloc, fields.name) {
        Ok(name) => name,
        Err(NameFault::NotAName) => return Ok(None),
        Err(NameFault::OutOfMemory) => return Err(OutOfMemory),
    };
    let kind = name.kind();
    if !is_same(fields.kind, kind_word(kind)) {
        return Ok(None);
    }
    if !may_have_rows(kind, rows) {
        return Ok(None);
    }
    Ok(Some(FileLine {
        name,
        rows,
        bytes,
        digest,
    }))
}
