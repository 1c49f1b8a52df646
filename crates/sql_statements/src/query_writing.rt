//! How queries are written.
ghost use Rattle.std.specs.Prelude.{◌≡◌, ◌++◌, OnOk, OnErr};
ghost use Rattle.sql_literals.specs.Room.{TakesRoom};
ghost use Rattle.sql_statements.specs.Piece.{pieces_text};
ghost use Rattle.statement_forms.specs.Statement.{QueryHasText};
ghost use Rattle.statement_forms.specs.Text.{query_text};

use crate::piece::Piece::{
    Above, ByKey, ByKeys, KeyFrom, Name, OneAfter, Path, RowsFrom, Signed, Text, WideAbove,
    WideUpTo, Word,
};
use crate::piece::{END, Piece, four_pieces, one_piece, pieces_into, three_pieces, two_pieces};
use plain_data::{Buffer, OutOfMemory};
use statement_forms::Query;

const AT_MOST: &[u8] = b" <= ";

// The pieces of a query's text.
fn query_pieces<'a>(query: &'a Query<'_>) -> [Piece<'a>; 7]
    ensures { pieces_text result ≡ query_text query.now }
{
    match query {
        Query::MasterStatus => one_piece(Word(b"SHOW MASTER STATUS")),
        Query::BinaryLogStatus => one_piece(Word(b"SHOW BINARY LOG STATUS")),
        Query::Schemas => one_piece(Word(b"SELECT SCHEMA_NAME FROM information_schema.SCHEMATA")),
        Query::Tables { schema } => two_pieces(
            Word(
                b"SELECT TABLE_NAME,TABLE_TYPE,ENGINE FROM information_schema.TABLES WHERE TABLE_SCHEMA=",
            ),
            Text(schema),
        ),
        Query::Columns { schema, table } => [
            Word(
                b"SELECT COLUMN_NAME,DATA_TYPE,COLUMN_TYPE,EXTRA FROM information_schema.COLUMNS WHERE TABLE_SCHEMA=",
            ),
            Text(schema),
            Word(b" AND TABLE_NAME="),
            Text(table),
            Word(b" ORDER BY ORDINAL_POSITION"),
            END,
            END,
        ],
        Query::PrimaryKey { schema, table } => [
            Word(b"SELECT COLUMN_NAME FROM information_schema.STATISTICS WHERE TABLE_SCHEMA="),
            Text(schema),
            Word(b" AND TABLE_NAME="),
            Text(table),
            Word(b" AND INDEX_NAME='PRIMARY' ORDER BY SEQ_IN_INDEX"),
            END,
            END,
        ],
        Query::Triggers { schema } => two_pieces(
            Word(
                b"SELECT TRIGGER_NAME,EVENT_OBJECT_TABLE,ACTION_ORDER FROM information_schema.TRIGGERS WHERE TRIGGER_SCHEMA=",
            ),
            Text(schema),
        ),
        Query::Routines { schema } => two_pieces(
            Word(
                b"SELECT ROUTINE_NAME,ROUTINE_TYPE FROM information_schema.ROUTINES WHERE ROUTINE_SCHEMA=",
            ),
            Text(schema),
        ),
        Query::ViewNeeds { schema } => two_pieces(
            Word(
                b"SELECT VIEW_NAME,TABLE_SCHEMA,TABLE_NAME FROM information_schema.VIEW_TABLE_USAGE WHERE VIEW_SCHEMA=",
            ),
            Text(schema),
        ),
        Query::Events { schema } => two_pieces(
            Word(b"SELECT EVENT_NAME FROM information_schema.EVENTS WHERE EVENT_SCHEMA="),
            Text(schema),
        ),
        Query::CreateDatabase { schema } => two_pieces(
            Word(b"SHOW CREATE DATABASE "),
            Name(schema),
        ),
        Query::CreateTable { schema, name } => two_pieces(
            Word(b"SHOW CREATE TABLE "),
            Path(schema, name),
        ),
        Query::CreateView { schema, name } => two_pieces(
            Word(b"SHOW CREATE VIEW "),
            Path(schema, name),
        ),
        Query::CreateProcedure { schema, name } => two_pieces(
            Word(b"SHOW CREATE PROCEDURE "),
            Path(schema, name),
        ),
        Query::CreateFunction { schema, name } => two_pieces(
            Word(b"SHOW CREATE FUNCTION "),
            Path(schema, name),
        ),
        Query::CreateTrigger { schema, name } => two_pieces(
            Word(b"SHOW CREATE TRIGGER "),
            Path(schema, name),
        ),
        Query::CreateEvent { schema, name } => two_pieces(
            Word(b"SHOW CREATE EVENT "),
            Path(schema, name),
        ),
        Query::Key {
            key,
            schema,
            table,
            skipped,
        } => three_pieces(KeyFrom(key, schema, table), ByKey(key), OneAfter(*skipped)),
        Query::KeyAbove {
            key,
            schema,
            table,
            above,
            skipped,
        } => four_pieces(
            KeyFrom(key, schema, table),
            Above(key, above),
            ByKey(key),
            OneAfter(*skipped),
        ),
        Query::Rows {
            columns,
            schema,
            table,
        } => one_piece(RowsFrom(columns, schema, table)),
        Query::RowsByKey {
            columns,
            schema,
            table,
            key,
        } => two_pieces(RowsFrom(columns, schema, table), ByKey(key)),
        Query::RowsAbove {
            columns,
            schema,
            table,
            key,
            above,
        } => three_pieces(
            RowsFrom(columns, schema, table),
            Above(key, above),
            ByKey(key),
        ),
        Query::RowsUpTo {
            columns,
            schema,
            table,
            key,
            up_to,
        } => [
            RowsFrom(columns, schema, table),
            Word(b" WHERE "),
            Name(key),
            Word(AT_MOST),
            Signed(up_to),
            ByKey(key),
            END,
        ],
        Query::RowsBetween {
            columns,
            schema,
            table,
            key,
            above,
            up_to,
        } => [
            RowsFrom(columns, schema, table),
            Above(key, above),
            Word(b" AND "),
            Name(key),
            Word(AT_MOST),
            Signed(up_to),
            ByKey(key),
        ],
        Query::WideKey {
            keys,
            schema,
            table,
            skipped,
        } => three_pieces(
            RowsFrom(keys, schema, table),
            ByKeys(keys),
            OneAfter(*skipped),
        ),
        Query::WideKeyAbove {
            keys,
            schema,
            table,
            above,
            skipped,
        } => [
            RowsFrom(keys, schema, table),
            Word(b" WHERE "),
            WideAbove(keys, above),
            ByKeys(keys),
            OneAfter(*skipped),
            END,
            END,
        ],
        Query::RowsByWideKey {
            columns,
            schema,
            table,
            keys,
        } => two_pieces(RowsFrom(columns, schema, table), ByKeys(keys)),
        Query::RowsAboveWide {
            columns,
            schema,
            table,
            keys,
            above,
        } => four_pieces(
            RowsFrom(columns, schema, table),
            Word(b" WHERE "),
            WideAbove(keys, above),
            ByKeys(keys),
        ),
        Query::RowsUpToWide {
            columns,
            schema,
            table,
            keys,
            up_to,
        } => four_pieces(
            RowsFrom(columns, schema, table),
            Word(b" WHERE "),
            WideUpTo(keys, up_to),
            ByKeys(keys),
        ),
        Query::RowsBetweenWide {
            columns,
            schema,
            table,
            keys,
            above,
            up_to,
        } => [
            RowsFrom(columns, schema, table),
            Word(b" WHERE "),
            WideAbove(keys, above),
            Word(b" AND "),
            WideUpTo(keys, up_to),
            ByKeys(keys),
            END,
        ],
        Query::ProgressDump => one_piece(Word(b"SELECT `digest` FROM `myloader_progress`.`dump`")),
        Query::ProgressFiles => one_piece(Word(b"SELECT `name` FROM `myloader_progress`.`files`")),
    }
}

/// Appends the text of a query. It is refused only for want of memory, and leaves the buffer as it
/// was then. Where the room is there it takes no memory.
pub fn query_into(query: &Query<'_>, out: &mut Buffer) -> Result<(), OutOfMemory>
    requires { QueryHasText query.now }
    ensures ok { OnOk result (out.new.bytes ≡ out.old.bytes ++ query_text query.now) }
    ensures err { OnErr result (out.new ≡ out.old) }
    ensures room { TakesRoom result out.old.spare out.new.spare (query_text query.now) }
{
    pieces_into(&query_pieces(query), out)
}
