//! Why a run ended before its end.
use folder_forms::FileName;
use plain_data::{Bytes, Name, NameList};
use server_data::Need;
use statement_forms::Form;
use wire_forms::{Refusal, ShortText};

/// Why a run ended before its end.
#[derive(Drop)]
pub enum RunFault {
    /// The command line isn't read.
    CommandLine(CommandLineFault),
    /// A connection, a file or the clock failed, and has counted it.
    Outside(OutsideFault),
    /// The server answered a statement of this form by this ERR. The form of the exchange of a login is
    /// CONNECT, that of the set-up statement SET.
    Refused(Form, Refusal),
    /// The server doesn't say what it may say.
    Protocol(ProtocolFault),
    /// Something is longer, or more, than it may be.
    Limit(LimitFault),
    /// A name can't be used so.
    Name(NameFault),
    /// An object can't be dumped.
    Object(ObjectFault),
    /// A folder doesn't hold what it is to hold.
    Folder(FolderFault),
    /// The server that is loaded isn't as it is to be.
    Target(TargetFault),
    /// Memory ran out.
    OutOfMemory,
}

/// Why a command line isn't read.
#[derive(Drop)]
pub enum CommandLineFault {
    /// The words aren't those of the command, or a value is out of its form.
    NotRead,
    /// This entry of a list of databases or tables names none.
    BadEntry(Name),
    /// A new name is given for a database, and no database.
    NoSource,
}

/// What of the outside failed.
#[derive(Clone, Copy)]
pub enum OutsideFault {
    /// A connection, or the making of one.
    Link,
    /// The folder, or a file.
    File,
    /// The clock.
    Clock,
}

/// Where a server leaves the protocol, or what of it isn't supported.
#[derive(Clone, Copy)]
pub enum ProtocolFault {
    /// The server asks for the login by this plugin, of whose name 512 bytes are kept.
    PluginUnsupported(ShortText),
    /// The server's first message is of this version of the protocol.
    NotProtocol10(u8),
    /// A message or a row isn't of the form of its place. The number is that of the bytes of the session
    /// that came before it.
    Garbled(u64),
}

/// What passes its limit.
#[derive(Drop)]
pub enum LimitFault {
    /// A message, a statement or a file has so many bytes.
    TooLong(u64),
    /// 2^62 bytes were read on one session.
    StreamTooLong,
    /// With this table there are more than 1,000,000 files of rows.
    TooManyChunks(Need),
}

/// A name from which no file's name can be made.
#[derive(Drop)]
pub enum LongName {
    /// A schema's.
    Schema(Name),
    /// That of an object in a schema.
    Object(Need),
}

/// Which name can't be used.
#[derive(Drop)]
pub enum NameFault {
    /// The server has no such database to select.
    NoSuchDatabase(Name),
    /// The server has no such table or view to select.
    NoSuchTable(Need),
    /// The dump has no such database.
    NoSuchSource(Name),
    /// The names of files would be too long.
    TooLong(LongName),
    /// The dump names the schema in which progress is kept, or is to be loaded into it.
    Reserved,
    /// This file can't be loaded under another database's name.
    CannotRename(FileName),
}

/// Which object can't be dumped.
#[derive(Drop)]
pub enum ObjectFault {
    /// A column of this type isn't supported.
    ColumnUnsupported {
        table: Need,
        column: Name,
        data_type: Bytes,
    },
    /// A table of this engine isn't supported.
    EngineUnsupported {
        table: Need,
        engine: Bytes,
    },
    /// The server gives no text of this object.
    TextWithheld(Need),
    /// These views need each other, each the next one, and the last one the first.
    ViewCycle(NameList),
}

/// What is wrong with a folder.
#[derive(Drop)]
pub enum FolderFault {
    /// The folder for a dump lists this name, the least.
    NotEmpty(Name),
    /// The folder of a dump has no `metadata`.
    NoMetadata,
    /// This line of `metadata`, from 1 on, isn't of the form of its place.
    BadLine(u64),
    /// `metadata` is of this version.
    WrongVersion(u32),
    /// A file that `metadata` names isn't there.
    FileMissing(FileName),
    /// A file's SHA-1 isn't the one that `metadata` gives.
    FileDamaged {
        name: FileName,
        expected: [u8; 20],
        found: [u8; 20],
    },
    /// After so many bytes a file, whose SHA-1 is right, has a statement that it may not have, or holds
    /// something else than its line in `metadata` says.
    BadStatement {
        name: FileName,
        offset: u64,
    },
}

/// Why a server can't be loaded.
#[derive(Drop)]
pub enum TargetFault {
    /// It has this database of the dump.
    NotEmpty(Name),
    /// It has the progress of a load, which is to be resumed.
    ProgressFound,
    /// It has the progress of a load of another dump: the digest that is kept there, as it stands there,
    /// and that of this dump.
    OtherDump { kept: Bytes, found: [u8; 20] },
}
