//! Readers of converted texts.
ghost use Rattle.grammar.specs.Language.{Reads};
ghost use Rattle.sql_cells.specs.Spelling.{OpenedConverted, Converted};

use crate::reading::text::read_text;
use grammar::{after, read_fixed};

fn read_opened(bytes: &[u8]) -> Result<usize, usize>
    ensures { Reads OpenedConverted bytes.now result }
{
    let open = read_fixed(bytes, b"CONVERT(")?;
    after(open, read_text(&bytes[open..]))
}

pub(crate) fn read_converted(bytes: &[u8]) -> Result<usize, usize>
    ensures { Reads Converted bytes.now result }
{
    let opened = read_opened(bytes)?;
    after(opened, read_fixed(&bytes[opened..], b" USING utf8mb4)"))
}
