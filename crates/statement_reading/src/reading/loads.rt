//! The commands that make a database and fill it, and the texts of each.
ghost use Rattle.statement_reading.specs.Kinds.{load_kind_row};
ghost use Rattle.statement_reading.specs.Readings.{IsRead, InRow};

use crate::fault::StatementFault;
use crate::reading::forms::{digest_form, fixed_form, name_form, text_form};
use crate::reading::wholes::{create_form, insert_form};
use statement_forms::{Command, Statement};
use std::alloc::Global;

/// Which command of a load it is.
#[derive(Clone, Copy)]
pub(crate) enum LoadKind {
    Use,
    Create,
    CreateProgress,
    CreateProgressFiles,
    CreateProgressDump,
    Insert,
    InsertProgressFile,
    InsertProgressDump,
}

/// Reads the text of a command of a load of this kind.
pub(crate) fn read_load<'a>(
    alloc: Global,
    text: &'a [u8],
    kind: LoadKind,
) -> Result<Statement<'a>, StatementFault>
    ensures { IsRead (InRow (load_kind_row kind)) text.now result }
{
    match kind {
        LoadKind::Use => {
            let schema = name_form(alloc, text, b"USE ")?;
            Ok(Statement::Command(Command::Use(schema)))
        }
        LoadKind::Create => {
            let whole = create_form(text)?;
            Ok(Statement::Command(Command::Create(whole)))
        }
        LoadKind::CreateProgress => {
            fixed_form(text, b"CREATE DATABASE `myloader_progress`")?;
            Ok(Statement::Command(Command::CreateProgress))
        }
        LoadKind::CreateProgressFiles => {
            fixed_form(
                text,
                b"CREATE TABLE `myloader_progress`.`files` (`name` varbinary(255) NOT NULL, PRIMARY KEY (`name`)) ENGINE=InnoDB",
            )?;
            Ok(Statement::Command(Command::CreateProgressFiles))
        }
        LoadKind::CreateProgressDump => {
            fixed_form(
                text,
                b"CREATE TABLE `myloader_progress`.`dump` (`digest` char(40) NOT NULL) ENGINE=InnoDB",
            )?;
            Ok(Statement::Command(Command::CreateProgressDump))
        }
        LoadKind::Insert => {
            let whole = insert_form(text)?;
            Ok(Statement::Command(Command::Insert(whole)))
        }
        LoadKind::InsertProgressFile => {
            let value = text_form(
                alloc,
                text,
                b"INSERT INTO `myloader_progress`.`files` (`name`) VALUES (",
                b")",
            )?;
            Ok(Statement::Command(Command::InsertProgressFile(value)))
        }
        LoadKind::InsertProgressDump => {
            let digest = digest_form(
                text,
                b"INSERT INTO `myloader_progress`.`dump` (`digest`) VALUES ('",
                b"')",
            )?;
            Ok(Statement::Command(Command::InsertProgressDump(digest)))
        }
    }
}
