//! `metadata`, written.
ghost use Rattle.std.specs.Prelude.{◌≡◌, ◌≢◌, ◌<◌, ◌⊎◌, ◌++◌, codes, IfOk, OnOk, OnErr, map};
ghost use Rattle.std.specs.List.{flat_map};
ghost use Rattle.folder_forms.specs.Metadata.{HasMetadata, IsMetadataText, ended, file_line, position_lines, table_line, year_9999};
ghost use Rattle.metadata_ini.specs.Writing.{AppendsEnd, AppendsHead, AppendsMetadata, AppendsTables};

use crate::decimals::append_decimal;
use crate::file_lines::append_file_line;
use crate::spelling::{append, append_name};
use crate::tables::tables_of;
use crate::times::append_time;
use folder_forms::{FileLine, Metadata};
use plain_data::{Buffer, OutOfMemory};
use server_data::Position;
use std::alloc::Global;

// Appends the lines up to the times.
fn append_head(metadata: &Metadata, out: &mut Buffer) -> Result<(), OutOfMemory>
    requires started { metadata.now.started < year_9999 }
    requires finished { metadata.now.finished < year_9999 }
    ensures { OnOk result (AppendsHead out.old.bytes out.new.bytes metadata.now) }
{
    append(b"[dump]\nversion=", out)?;
    append_decimal(metadata.version as u64, out)?;
    append(b"\nstarted=", out)?;
    append_time(metadata.started, out)?;
    append(b"\nfinished=", out)?;
    append_time(metadata.finished, out)?;
    append(b"\n", out)?;
    Ok(())
}

// Appends the lines of a position.
fn append_position(position: &Option<Position>, out: &mut Buffer) -> Result<(), OutOfMemory>
    ensures { OnOk result (out.new.bytes
        ≡ out.old.bytes ++ flat_map ended (position_lines position.now)) }
{
    match position {
        None => Ok(()),
        Some(position) => {
            append(b"[position]\nfile=", out)?;
            append(position.file.as_slice(), out)?;
            append(b"\noffset=", out)?;
            append_decimal(position.offset, out)?;
            append(b"\ngtid=", out)?;
            append(position.gtid.as_slice(), out)?;
            append(b"\n", out)?;
            Ok(())
        }
    }
}

// Appends the lines of files.
fn append_files(files: &[FileLine], out: &mut Buffer) -> Result<(), OutOfMemory>
    ensures { OnOk result (out.new.bytes
        ≡ out.old.bytes ++ flat_map ended (map file_line files.now)) }
{
    for file in files {
        append_file_line(file, out)?;
    }
    Ok(())
}

// Appends the line of a table.
fn append_table(schema: &str, name: &str, rows: u64, out: &mut Buffer) -> Result<(), OutOfMemory>
    ensures { OnOk result (out.new.bytes
        ≡ out.old.bytes ++ ended (table_line ((schema.now, name.now), rows))) }
{
    append_decimal(rows, out)?;
    append(b" ", out)?;
    append_name(schema.as_bytes(), out)?;
    append(b".", out)?;
    append_name(name.as_bytes(), out)?;
    append(b"\n", out)
}

/// Appends the lines of the tables of files.
pub(crate) fn append_tables(
    alloc: Global,
    files: &[FileLine],
    out: &mut Buffer,
) -> Result<(), OutOfMemory>
    ensures { OnOk result (AppendsTables out.old.bytes out.new.bytes files.now) }
{
    let tables = tables_of(alloc, files)?;
    for ((schema, name), rows) in &tables {
        append_table(schema, name, *rows, out)?;
    }
    Ok(())
}

// Appends what follows the lines of files: in version 2 the lines of their tables.
fn append_end(
    alloc: Global,
    version: u32,
    files: &[FileLine],
    out: &mut Buffer,
) -> Result<(), OutOfMemory>
    ensures { OnOk result (AppendsEnd out.old.bytes out.new.bytes version files.now) }
{
    if version != 2 {
        return Ok(());
    }
    append(b"[tables]\n", out)?;
    append_tables(alloc, files, out)
}

// The text of a `metadata`.
fn metadata_text(alloc: Global, metadata: &Metadata) -> Result<Buffer, OutOfMemory>
    requires { HasMetadata metadata.now }
    ensures { IfOk result (λ made. IsMetadataText made.bytes metadata.now) }
{
    let mut out = Buffer::new(alloc);
    append_head(metadata, &mut out)?;
    append_position(&metadata.position, &mut out)?;
    append(b"[files]\n", &mut out)?;
    append_files(metadata.files.as_slice(), &mut out)?;
    append_end(alloc, metadata.version, metadata.files.as_slice(), &mut out)?;
    Ok(out)
}

/// Appends the text of `metadata`. The value has a text: its version is 1 or 2, its times are before the
/// year 9999, a position has a file and is of printable bytes, each file can have a line, and the
/// files stand in the order of their kinds, those of one table's rows with rising numbers and none
/// twice. It is refused only for want of memory, and leaves `out` as it was then.
pub fn write_into(alloc: Global, metadata: &Metadata, out: &mut Buffer) -> Result<(), OutOfMemory>
    requires { HasMetadata metadata.now }
    ensures ok { OnOk result (AppendsMetadata out.old.bytes out.new.bytes metadata.now) }
    ensures err { OnErr result (out.new ≡ out.old) }
{
    let text = metadata_text(alloc, metadata)?;
    out.reserve(text.len())?;
    out.push(text.as_slice());
    Ok(())
}
