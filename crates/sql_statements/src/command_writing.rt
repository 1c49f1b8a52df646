//! How commands are written.
ghost use Rattle.std.specs.Prelude.{◌≡◌, ◌++◌, OnOk, OnErr};
ghost use Rattle.sql_literals.specs.Room.{TakesRoom};
ghost use Rattle.sql_statements.specs.Piece.{pieces_text};
ghost use Rattle.statement_forms.specs.Statement.{CommandHasText};
ghost use Rattle.statement_forms.specs.Text.{command_text};

use crate::piece::Piece::{Name, Text, Whole, Word};
use crate::piece::{Piece, one_piece, pieces_into, three_pieces, two_pieces};
use plain_data::{Buffer, OutOfMemory};
use statement_forms::Command;

// The pieces of a command's text.
fn command_pieces<'a>(command: &'a Command<'_>) -> [Piece<'a>; 7]
    ensures { pieces_text result ≡ command_text command.now }
{
    match command {
        Command::SetUp => one_piece(Word(
            b"SET SESSION autocommit=1,sql_mode='NO_AUTO_VALUE_ON_ZERO',time_zone='+00:00',wait_timeout=2147483,sql_quote_show_create=1,foreign_key_checks=0",
        )),
        Command::NamesUtf8mb4 => one_piece(Word(b"SET NAMES utf8mb4")),
        Command::NamesBinary => one_piece(Word(b"SET NAMES binary")),
        Command::ForeignKeyChecksOff => one_piece(Word(b"SET FOREIGN_KEY_CHECKS=0")),
        Command::TimeZoneUtc => one_piece(Word(b"SET TIME_ZONE='+00:00'")),
        Command::BinaryLogOff => one_piece(Word(b"SET SESSION sql_log_bin=0")),
        Command::SqlMode(value) => two_pieces(Word(b"SET SESSION sql_mode="), Text(value)),
        Command::CharacterSetClient(value) => two_pieces(
            Word(b"SET SESSION character_set_client="),
            Text(value),
        ),
        Command::CollationConnection(value) => two_pieces(
            Word(b"SET SESSION collation_connection="),
            Text(value),
        ),
        Command::RepeatableRead => one_piece(Word(
            b"SET SESSION TRANSACTION ISOLATION LEVEL REPEATABLE READ",
        )),
        Command::TimeZone(value) => two_pieces(Word(b"SET TIME_ZONE="), Text(value)),
        Command::LockInstance => one_piece(Word(b"LOCK INSTANCE FOR BACKUP")),
        Command::FlushTables => one_piece(Word(b"FLUSH TABLES WITH READ LOCK")),
        Command::UnlockTables => one_piece(Word(b"UNLOCK TABLES")),
        Command::UnlockInstance => one_piece(Word(b"UNLOCK INSTANCE")),
        Command::StartSnapshot => one_piece(Word(b"START TRANSACTION WITH CONSISTENT SNAPSHOT")),
        Command::Start => one_piece(Word(b"START TRANSACTION")),
        Command::Commit => one_piece(Word(b"COMMIT")),
        Command::Rollback => one_piece(Word(b"ROLLBACK")),
        Command::Use(schema) => two_pieces(Word(b"USE "), Name(schema)),
        Command::Create(text) => one_piece(Whole(text)),
        Command::CreateProgress => one_piece(Word(b"CREATE DATABASE `myloader_progress`")),
        Command::CreateProgressFiles => one_piece(Word(
            b"CREATE TABLE `myloader_progress`.`files` (`name` varbinary(255) NOT NULL, PRIMARY KEY (`name`)) ENGINE=InnoDB",
        )),
        Command::CreateProgressDump => one_piece(Word(
            b"CREATE TABLE `myloader_progress`.`dump` (`digest` char(40) NOT NULL) ENGINE=InnoDB",
        )),
        Command::Insert(text) => one_piece(Whole(text)),
        Command::InsertProgressFile(name) => three_pieces(
            Word(b"INSERT INTO `myloader_progress`.`files` (`name`) VALUES ("),
            Text(name),
            Word(b")"),
        ),
        Command::InsertProgressDump(digest) => three_pieces(
            Word(b"INSERT INTO `myloader_progress`.`dump` (`digest`) VALUES ("),
            Text(digest),
            Word(b")"),
        ),
    }
}

/// Appends the text of a command. It is refused only for want of memory, and leaves the buffer as
/// it was then. Where the room is there it takes no memory.
pub fn command_into(command: &Command<'_>, out: &mut Buffer) -> Result<(), OutOfMemory>
    requires { CommandHasText command.now }
    ensures ok { OnOk result (out.new.bytes ≡ out.old.bytes ++ command_text command.now) }
    ensures err { OnErr result (out.new ≡ out.old) }
    ensures room { TakesRoom result out.old.spare out.new.spare (command_text command.now) }
{
    pieces_into(&command_pieces(command), out)
}
