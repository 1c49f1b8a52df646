//! The commands that set up a session, and the texts of each.
ghost use Rattle.statement_reading.specs.Kinds.{setting_kind_row};
ghost use Rattle.statement_reading.specs.Readings.{IsRead, InRow};

use crate::fault::StatementFault;
use crate::reading::forms::{fixed_form, text_form};
use statement_forms::{Command, Statement};
use std::alloc::Global;

/// Which setting it is.
#[derive(Clone, Copy)]
pub(crate) enum SettingKind {
    SetUp,
    NamesUtf8mb4,
    NamesBinary,
    ForeignKeyChecksOff,
    TimeZoneUtc,
    BinaryLogOff,
    SqlMode,
    CharacterSetClient,
    CollationConnection,
    RepeatableRead,
    TimeZone,
}

/// Reads the text of a setting of this kind.
pub(crate) fn read_setting<'a>(
    alloc: Global,
    text: &'a [u8],
    kind: SettingKind,
) -> Result<Statement<'a>, StatementFault>
    ensures { IsRead (InRow (setting_kind_row kind)) text.now result }
{
    match kind {
        SettingKind::SetUp => {
            fixed_form(
                text,
                b"SET SESSION autocommit=1,sql_mode='NO_AUTO_VALUE_ON_ZERO',time_zone='+00:00',wait_timeout=2147483,sql_quote_show_create=1,foreign_key_checks=0",
            )?;
            Ok(Statement::Command(Command::SetUp))
        }
        SettingKind::NamesUtf8mb4 => {
            fixed_form(text, b"SET NAMES utf8mb4")?;
            Ok(Statement::Command(Command::NamesUtf8mb4))
        }
        SettingKind::NamesBinary => {
            fixed_form(text, b"SET NAMES binary")?;
            Ok(Statement::Command(Command::NamesBinary))
        }
        SettingKind::ForeignKeyChecksOff => {
            fixed_form(text, b"SET FOREIGN_KEY_CHECKS=0")?;
            Ok(Statement::Command(Command::ForeignKeyChecksOff))
        }
        SettingKind::TimeZoneUtc => {
            fixed_form(text, b"SET TIME_ZONE='+00:00'")?;
            Ok(Statement::Command(Command::TimeZoneUtc))
        }
        SettingKind::BinaryLogOff => {
            fixed_form(text, b"SET SESSION sql_log_bin=0")?;
            Ok(Statement::Command(Command::BinaryLogOff))
        }
        SettingKind::SqlMode => {
            let value = text_form(alloc, text, b"SET SESSION sql_mode=", b"")?;
            Ok(Statement::Command(Command::SqlMode(value)))
        }
        SettingKind::CharacterSetClient => {
            let value = text_form(alloc, text, b"SET SESSION character_set_client=", b"")?;
            Ok(Statement::Command(Command::CharacterSetClient(value)))
        }
        SettingKind::CollationConnection => {
            let value = text_form(alloc, text, b"SET SESSION collation_connection=", b"")?;
            Ok(Statement::Command(Command::CollationConnection(value)))
        }
        SettingKind::RepeatableRead => {
            fixed_form(
                text,
                b"SET SESSION TRANSACTION ISOLATION LEVEL REPEATABLE READ",
            )?;
            Ok(Statement::Command(Command::RepeatableRead))
        }
        SettingKind::TimeZone => {
            let value = text_form(alloc, text, b"SET TIME_ZONE=", b"")?;
            Ok(Statement::Command(Command::TimeZone(value)))
        }
    }
}
