//! The statements that are answered by OK or ERR.
ghost use Rattle.std.specs.Prelude.{◌≡◌};

use crate::form::Form;
use crate::part::{Part, WholeText};

/// A statement that is answered by OK or ERR, one variant for each text.
#[derive(Drop)]
pub enum Command<'a> {
    /// The statement that sets a session up: `SET SESSION autocommit=1,sql_mode=..`.
    SetUp,
    /// `SET NAMES utf8mb4`
    NamesUtf8mb4,
    /// `SET NAMES binary`
    NamesBinary,
    /// `SET FOREIGN_KEY_CHECKS=0`
    ForeignKeyChecksOff,
    /// `SET TIME_ZONE='+00:00'`
    TimeZoneUtc,
    /// `SET SESSION sql_log_bin=0`
    BinaryLogOff,
    /// `SET SESSION sql_mode='..'`
    SqlMode(Part<'a>),
    /// `SET SESSION character_set_client='..'`
    CharacterSetClient(Part<'a>),
    /// `SET SESSION collation_connection='..'`
    CollationConnection(Part<'a>),
    /// `SET SESSION TRANSACTION ISOLATION LEVEL REPEATABLE READ`
    RepeatableRead,
    /// `SET TIME_ZONE='..'`
    TimeZone(Part<'a>),
    /// `LOCK INSTANCE FOR BACKUP`
    LockInstance,
    /// `FLUSH TABLES WITH READ LOCK`
    FlushTables,
    /// `UNLOCK TABLES`
    UnlockTables,
    /// `UNLOCK INSTANCE`
    UnlockInstance,
    /// `START TRANSACTION WITH CONSISTENT SNAPSHOT`
    StartSnapshot,
    /// `START TRANSACTION`
    Start,
    /// `COMMIT`
    Commit,
    /// `ROLLBACK`
    Rollback,
    /// `USE` and the schema
    Use(Part<'a>),
    /// An object's text, as SHOW CREATE gives it: it has a head.
    Create(WholeText<'a>),
    /// `CREATE DATABASE` of the progress schema
    CreateProgress,
    /// `CREATE TABLE` of the names of the loaded files
    CreateProgressFiles,
    /// `CREATE TABLE` of the dump's digest
    CreateProgressDump,
    /// The INSERT of a data file, whole.
    Insert(WholeText<'a>),
    /// The INSERT of the name of a loaded file.
    InsertProgressFile(Part<'a>),
    /// The INSERT of the dump's digest: 40 lower-case hexadecimal digits.
    InsertProgressDump(Part<'a>),
}

impl Command<'_> {
    ghost use Rattle.statement_forms.specs.Form.{command_form};

    /// The form of the command. Takes no memory.
    pub fn form(&self) -> Form
        ensures { result ≡ command_form self.now }
    {
        match self {
            Command::SetUp
            | Command::NamesUtf8mb4
            | Command::NamesBinary
            | Command::ForeignKeyChecksOff
            | Command::TimeZoneUtc
            | Command::BinaryLogOff
            | Command::SqlMode(_)
            | Command::CharacterSetClient(_)
            | Command::CollationConnection(_)
            | Command::RepeatableRead
            | Command::TimeZone(_) => Form::Set,
            Command::LockInstance => Form::LockInstance,
            Command::FlushTables => Form::Flush,
            Command::UnlockTables => Form::UnlockTables,
            Command::UnlockInstance => Form::UnlockInstance,
            Command::StartSnapshot | Command::Start => Form::Start,
            Command::Commit => Form::Commit,
            Command::Rollback => Form::Rollback,
            Command::Use(_) => Form::Use,
            Command::Create(_)
            | Command::CreateProgress
            | Command::CreateProgressFiles
            | Command::CreateProgressDump => Form::Create,
            Command::Insert(_) | Command::InsertProgressFile(_) | Command::InsertProgressDump(_) =>
                Form::Insert,
        }
    }
}
