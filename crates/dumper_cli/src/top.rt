//! The top call.
ghost use Rattle.std.specs.Prelude.{◌≡◌, ◌≤◌, ◌↔◌, Some, None};
ghost use Rattle.link_traits.specs.Cause.{Rose};
ghost use Rattle.dumper_cli.specs.Outside.{Dumped, AimsAt, SaidAtMost};
ghost use Rattle.dumper_cli.specs.Outcomes.{IsExact};
ghost use Rattle.dumper_cli.specs.Status.{session_status, status_of, IsCaused, RefusesFull};
ghost use Rattle.dumper_cli.specs.Words.{asked_of};

use crate::dump::dump;
use crate::fault::DumpFault;
use crate::words::{Words, read_words};
use link_traits::{Clock, Folder, Sink, Site};
use my_session::SessionFault;
use plain_data::NameList;
use std::alloc::Global;
use std::thread::Threads;

// The exit status of a dump that a session ended.
fn session_status(fault: &SessionFault) -> u8
    ensures { result ≡ session_status fault.now }
{
    match fault {
        SessionFault::Link => 4,
        SessionFault::Refused(_, _) => 3,
        SessionFault::Garbled(_) => 1,
        SessionFault::NotProtocol10(_) => 1,
        SessionFault::PluginUnsupported(_) => 1,
        SessionFault::TooLong(_) => 1,
        SessionFault::StreamTooLong => 1,
        SessionFault::OutOfMemory => 5,
    }
}

// The exit status of a dump.
fn exit_status(ended: &Result<(), DumpFault>) -> u8
    ensures { result ≡ status_of ended.now }
{
    match ended {
        Ok(()) => 0,
        Err(DumpFault::FolderNotEmpty(_)) => 1,
        Err(DumpFault::File) => 4,
        Err(DumpFault::Session(fault)) => session_status(fault),
    }
}

/// Dumps one table: `words` are those of the command line after the program's name, exactly
/// `-u USER -B SCHEMA -T TABLE -o PATH`, or the same with `-p PASSWORD` after the user. The login is
/// by `mysql_native_password`. Answers the exit status: 0 where the table was dumped; 1 where the
/// folder isn't empty, a message of the server isn't read in its place, its protocol or its plugin
/// isn't supported, a message is too long, or a session has had 2^62 bytes; 2 where the words are
/// others; 3 where the server answered an ERR; 4 where the connection or a file failed; 5 for want
/// of memory. Its conditions are that no link and no shelf is out. `err` and `clock` aren't used.
pub fn mydumper<R: Threads + Sync, S: Site, F: Folder, O: Sink, C: Clock>(
    _rt: &R,
    alloc: Global,
    words: &NameList,
    site: &mut S,
    folder: &mut F,
    _err: &mut O,
    _clock: &mut C,
) -> u8
    requires no_link_out { (S.links site.old).out ≡ 0 }
    requires no_shelf_out { F.out folder.old ≡ 0 }

    ensures no_link_out { (S.links site.new).out ≡ 0 }
    ensures no_shelf_out { F.out folder.new ≡ 0 }
    ensures err { _err.new ≡ _err.old }
    ensures clock { _clock.new ≡ _clock.old }

    // The words.
    ensures words { result ≡ 2 ↔ asked_of words.now ≡ None }
    ensures untouched { result ≡ 2 → (site.new ≡ site.old) × (folder.new ≡ folder.old) }

    // A dump that ended: the messages sent, the replies read and the folder's contents together.
    ensures dumped { (asked : _) → asked_of words.now ≡ Some asked → result ≡ 0 →
        Dumped asked (S.tells site.old) (Rose (S.faults site.old) (S.faults site.new))
        (S.told site.old) (S.told site.new) (F.tells folder.old) (F.contents folder.old)
        (F.contents folder.new) }
    ensures aimed { (asked : _) → asked_of words.now ≡ Some asked → result ≡ 0 →
        AimsAt asked (S.aim_of site.new) (F.path_of folder.new) }

    // Any other status: its cause, and what stands after it.
    ensures causes { (asked : _) → asked_of words.now ≡ Some asked →
        IsCaused asked (S.tells site.old) (S.told site.old)
        (Rose (S.faults site.old) (S.faults site.new)) (F.tells folder.old)
        (F.contents folder.old) (Rose (F.faults folder.old) (F.faults folder.new)) result }
    // What the server sends into an empty folder has its status, but where the site or the folder
    // failed or memory ran out.
    ensures exact { (asked : _) → asked_of words.now ≡ Some asked →
        IsExact asked (S.tells site.old) (S.told site.old)
        (Rose (S.faults site.old) (S.faults site.new)) (F.tells folder.old)
        (F.contents folder.old) (Rose (F.faults folder.old) (F.faults folder.new)) result }
    ensures full { (asked : _) → asked_of words.now ≡ Some asked → RefusesFull (F.tells folder.old)
        (Rose (F.faults folder.old) (F.faults folder.new)) (F.contents folder.old) result }
    ensures said { (asked : _) → asked_of words.now ≡ Some asked → (result ≡ 0 → ⊥) →
        S.tells site.old → SaidAtMost asked (S.told site.old) (S.told site.new) }
    ensures unchanged { (result ≡ 0 → ⊥) → F.tells folder.old →
        F.contents folder.new ≡ F.contents folder.old }
{
    let Some(words) = read_words(words) else {
        return 2;
    };
    let ended = dump(alloc, &words, site, folder);
    exit_status(&ended)
}
