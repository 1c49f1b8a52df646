//! Reading texts as statements.
ghost use Rattle.std.specs.Prelude.{◌≡◌, ℕ, IfOk};
ghost use Rattle.grammar.specs.Language.{Refused};
ghost use Rattle.statement_reading.specs.Kinds.{kind_row};
ghost use Rattle.statement_reading.specs.Readings.{IsRead, InRow};
ghost use Rattle.statement_forms.specs.Statement.{IsReadAs, Statements};

use crate::fault::StatementFault;
use crate::reading::catalogue::{CatalogueKind, read_catalogue_query};
use crate::reading::loads::{LoadKind, read_load};
use crate::reading::progress::{ProgressKind, read_progress_query};
use crate::reading::row_queries::{RowQueryKind, read_row_query};
use crate::reading::settings::{SettingKind, read_setting};
use crate::reading::show_create::{ShowCreateKind, read_show_create};
use crate::reading::stored::{StoredKind, read_stored_query};
use crate::reading::transactions::{TransactionKind, read_transaction};
use statement_forms::Statement;
use std::alloc::Global;

/// Which statement it is.
#[derive(Clone, Copy)]
enum StatementKind {
    Setting(SettingKind),
    Transaction(TransactionKind),
    Load(LoadKind),
    Catalogue(CatalogueKind),
    Stored(StoredKind),
    ShowCreate(ShowCreateKind),
    RowQuery(RowQueryKind),
    Progress(ProgressKind),
}

// All kinds, from the last row to the first: where a text is that of two, the later row counts.
const KINDS: [StatementKind; 59] = [
    StatementKind::Progress(ProgressKind::ProgressFiles),
    StatementKind::Progress(ProgressKind::ProgressDump),
    StatementKind::RowQuery(RowQueryKind::RowsBetweenWide),
    StatementKind::RowQuery(RowQueryKind::RowsUpToWide),
    StatementKind::RowQuery(RowQueryKind::RowsAboveWide),
    StatementKind::RowQuery(RowQueryKind::RowsByWideKey),
    StatementKind::RowQuery(RowQueryKind::WideKeyAbove),
    StatementKind::RowQuery(RowQueryKind::WideKey),
    StatementKind::RowQuery(RowQueryKind::RowsBetween),
    StatementKind::RowQuery(RowQueryKind::RowsUpTo),
    StatementKind::RowQuery(RowQueryKind::RowsAbove),
    StatementKind::RowQuery(RowQueryKind::RowsByKey),
    StatementKind::RowQuery(RowQueryKind::Rows),
    StatementKind::RowQuery(RowQueryKind::KeyAbove),
    StatementKind::RowQuery(RowQueryKind::Key),
    StatementKind::ShowCreate(ShowCreateKind::CreateEvent),
    StatementKind::ShowCreate(ShowCreateKind::CreateTrigger),
    StatementKind::ShowCreate(ShowCreateKind::CreateFunction),
    StatementKind::ShowCreate(ShowCreateKind::CreateProcedure),
    StatementKind::ShowCreate(ShowCreateKind::CreateView),
    StatementKind::ShowCreate(ShowCreateKind::CreateTable),
    StatementKind::ShowCreate(ShowCreateKind::CreateDatabase),
    StatementKind::Stored(StoredKind::Events),
    StatementKind::Stored(StoredKind::ViewNeeds),
    StatementKind::Stored(StoredKind::Routines),
    StatementKind::Stored(StoredKind::Triggers),
    StatementKind::Catalogue(CatalogueKind::PrimaryKey),
    StatementKind::Catalogue(CatalogueKind::Columns),
    StatementKind::Catalogue(CatalogueKind::Tables),
    StatementKind::Catalogue(CatalogueKind::Schemas),
    StatementKind::Catalogue(CatalogueKind::BinaryLogStatus),
    StatementKind::Catalogue(CatalogueKind::MasterStatus),
    StatementKind::Load(LoadKind::InsertProgressDump),
    StatementKind::Load(LoadKind::InsertProgressFile),
    StatementKind::Load(LoadKind::Insert),
    StatementKind::Load(LoadKind::CreateProgressDump),
    StatementKind::Load(LoadKind::CreateProgressFiles),
    StatementKind::Load(LoadKind::CreateProgress),
    StatementKind::Load(LoadKind::Create),
    StatementKind::Load(LoadKind::Use),
    StatementKind::Transaction(TransactionKind::Rollback),
    StatementKind::Transaction(TransactionKind::Commit),
    StatementKind::Transaction(TransactionKind::Start),
    StatementKind::Transaction(TransactionKind::StartSnapshot),
    StatementKind::Transaction(TransactionKind::UnlockInstance),
    StatementKind::Transaction(TransactionKind::UnlockTables),
    StatementKind::Transaction(TransactionKind::FlushTables),
    StatementKind::Transaction(TransactionKind::LockInstance),
    StatementKind::Setting(SettingKind::TimeZone),
    StatementKind::Setting(SettingKind::RepeatableRead),
    StatementKind::Setting(SettingKind::CollationConnection),
    StatementKind::Setting(SettingKind::CharacterSetClient),
    StatementKind::Setting(SettingKind::SqlMode),
    StatementKind::Setting(SettingKind::BinaryLogOff),
    StatementKind::Setting(SettingKind::TimeZoneUtc),
    StatementKind::Setting(SettingKind::ForeignKeyChecksOff),
    StatementKind::Setting(SettingKind::NamesBinary),
    StatementKind::Setting(SettingKind::NamesUtf8mb4),
    StatementKind::Setting(SettingKind::SetUp),
];

fn read_kind<'a>(
    alloc: Global,
    text: &'a [u8],
    kind: StatementKind,
) -> Result<Statement<'a>, StatementFault>
    ensures { IsRead (InRow (kind_row kind)) text.now result }
{
    match kind {
        StatementKind::Setting(kind) => read_setting(alloc, text, kind),
        StatementKind::Transaction(kind) => read_transaction(text, kind),
        StatementKind::Load(kind) => read_load(alloc, text, kind),
        StatementKind::Catalogue(kind) => read_catalogue_query(alloc, text, kind),
        StatementKind::Stored(kind) => read_stored_query(alloc, text, kind),
        StatementKind::ShowCreate(kind) => read_show_create(alloc, text, kind),
        StatementKind::RowQuery(kind) => read_row_query(alloc, text, kind),
        StatementKind::Progress(kind) => read_progress_query(text, kind),
    }
}

/// The statement that the text is: of two with one text, that of the later row. Names and values
/// are borrowed from the text, where nothing is escaped in them. Where the text is no statement's it
/// says the place at which it leaves the statements: the length of the longest prefix with which the text of one
/// begins. It is refused for want of memory only where the text is a statement's.
pub fn statement_read<'a>(alloc: Global, text: &'a [u8]) -> Result<Statement<'a>, StatementFault>
    ensures ok { IfOk result (λ statement. IsReadAs text.now statement) }
    ensures bad { (place : ℕ) → result ≡ Err (StatementFault.BadStatement place) →
        Refused Statements text.now place }
    ensures out_of_memory { result ≡ Err StatementFault.OutOfMemory → Statements text.now }
{
    let mut place = 0;
    for kind in &KINDS {
        match read_kind(alloc, text, *kind) {
            Ok(statement) => return Ok(statement),
            Err(StatementFault::BadStatement(refused)) => place = place.max(refused),
            Err(StatementFault::OutOfMemory) => return Err(StatementFault::OutOfMemory),
        }
    }
    Err(StatementFault::BadStatement(place))
}
