//! Why a dump ended.
use my_session::SessionFault;
use plain_data::Name;

/// Why a dump ended before its end.
#[derive(Debug, Drop)]
pub enum DumpFault {
    /// The folder lists this name, the least.
    FolderNotEmpty(Name),
    /// The folder or its file failed, and has counted it.
    File,
    /// A call of the session didn't end well, or a row came that can't be dumped, which is `Garbled`
    /// with the row's place.
    Session(SessionFault),
}
