//! The dump of a table of a site into a folder.
ghost use Rattle.std.specs.Prelude.{◌≡◌, ◌<◌, ◌≤◌, ◌+◌, ◌^◌, ◌-◌, ◌↔◌, [], length, false, Some, IfErr, IfOk, OnOk, OnErr, MatchOption, min};
ghost use Rattle.link_traits.specs.Cause.{Rose};
ghost use Rattle.dumper_cli.specs.AskedBy.{asked_by};
ghost use Rattle.dumper_cli.specs.Outside.{Dumped, SiteTabled, SaidAtMost, SaidBefore, IsLeast, IsUnlisted, EndedBy, ComesLater, AimsAt};

use crate::conversation::{Ended, dump_over_link};
use crate::fault::DumpFault;
use crate::words::Words;
use link_traits::{Folder, ListFault, Shelf, Site};
use my_session::SessionFault;
use plain_data::Name;
use std::alloc::Global;

/// The server's name and port.
pub const HOST: &str = "127.0.0.1";

pub const PORT: u16 = 3306;

// The conversation on a link of the site, which comes back.
fn dump_over_site<T: Site, S: Shelf>(
    alloc: Global,
    site: &mut T,
    shelf: S,
    words: &Words<'_>,
) -> (S, Result<(), DumpFault>)
    requires none_out { (T.links site.old).out ≡ 0 }
    requires none_begun { S.is_begun shelf ≡ false }
    requires none_made { S.tells shelf → (S.told shelf).made ≡ [] }

    ensures none_out { (T.links site.new).out ≡ 0 }
    ensures site_tells { T.tells site.old ↔ T.tells site.new }
    ensures site_later { T.faults site.old ≤ T.faults site.new }
    ensures aim { T.aim_of site.new ≡ T.aim_of site.old }
    ensures tells { S.tells shelf ↔ S.tells result.0 }
    ensures later { S.faults shelf ≤ S.faults result.0 }
    ensures ok { OnOk result.1
        (SiteTabled (asked_by words.now) (T.tells site.old)
        (Rose (T.faults site.old) (T.faults site.new)) (T.told site.old) (T.told site.new)
        (S.tells shelf) (S.told result.0).made) }
    ensures err { IfErr result.1
        (λ fault. EndedBy (λ name. ⊥) (asked_by words.now) (T.tells site.old) (T.told site.old)
        (Rose (T.faults site.old) (T.faults site.new))
        (Rose (S.faults shelf) (S.faults result.0)) fault) }
    ensures said { OnErr result.1
        (T.tells site.old → SaidAtMost (asked_by words.now) (T.told site.old) (T.told site.new)) }
    ensures none_made { OnErr result.1 (S.tells shelf → (S.told result.0).made ≡ []) }
{
    let link = match site.connect_sole() {
        Ok(link) => link,
        Err(_) => return (shelf, Err(DumpFault::Session(SessionFault::Link))),
    };
    let Ended {
        link,
        shelf,
        result,
    } = dump_over_link(alloc, link, shelf, words);
    site.give_back(link);
    (shelf, result)
}

// The least name that the folder lists.
fn first_name<F: Folder>(folder: &mut F) -> Result<Option<Name>, DumpFault>
    ensures tells { F.tells folder.old ↔ F.tells folder.new }
    ensures contents { F.contents folder.new ≡ F.contents folder.old }
    ensures path { F.path_of folder.new ≡ F.path_of folder.old }
    ensures out { F.out folder.new ≡ F.out folder.old }
    ensures later { F.faults folder.old ≤ F.faults folder.new }
    ensures ok { IfOk result (λ found. F.tells folder.old → MatchOption found
        (F.contents folder.old ≡ []) (λ name. IsLeast name (F.contents folder.old))) }
    ensures err { IfErr result
        (λ fault. IsUnlisted (Rose (F.faults folder.old) (F.faults folder.new)) fault) }
{
    let names = match folder.list() {
        Ok(names) => names,
        Err(ListFault::Failed) => return Err(DumpFault::File),
        Err(ListFault::OutOfMemory) => {
            return Err(DumpFault::Session(SessionFault::OutOfMemory));
        }
    };
    let [first, ..] = names.as_slice() else {
        return Ok(None);
    };
    match first.copy() {
        Ok(name) => Ok(Some(name)),
        Err(_) => Err(DumpFault::Session(SessionFault::OutOfMemory)),
    }
}

// The dump into a folder that lists nothing.
fn dump_into_empty<T: Site, F: Folder>(
    alloc: Global,
    words: &Words<'_>,
    site: &mut T,
    folder: &mut F,
) -> Result<(), DumpFault>
    requires none_out { (T.links site.old).out ≡ 0 }
    requires empty { F.tells folder.old → F.contents folder.old ≡ [] }

    ensures none_out { (T.links site.new).out ≡ 0 }
    ensures site_later { T.faults site.old ≤ T.faults site.new }
    ensures aim { T.aim_of site.new ≡ T.aim_of site.old }
    ensures out { F.out folder.new ≡ F.out folder.old }
    ensures path { F.path_of folder.new ≡ F.path_of folder.old }
    ensures later { F.faults folder.old ≤ F.faults folder.new }
    ensures ok { OnOk result
        (Dumped (asked_by words.now) (T.tells site.old)
        (Rose (T.faults site.old) (T.faults site.new)) (T.told site.old) (T.told site.new)
        (F.tells folder.old) (F.contents folder.old) (F.contents folder.new)) }
    ensures err { IfErr result
        (λ fault. EndedBy (λ name. ⊥) (asked_by words.now) (T.tells site.old) (T.told site.old)
        (Rose (T.faults site.old) (T.faults site.new))
        (Rose (F.faults folder.old) (F.faults folder.new)) fault) }
    ensures said { OnErr result
        (T.tells site.old → SaidAtMost (asked_by words.now) (T.told site.old) (T.told site.new)) }
    ensures unchanged { OnErr result
        (F.tells folder.old → F.contents folder.new ≡ F.contents folder.old) }
{
    let shelf = match folder.shelf() {
        Ok(shelf) => shelf,
        Err(_) => return Err(DumpFault::File),
    };
    let (shelf, result) = dump_over_site(alloc, site, shelf, words);
    folder.take_back(shelf);
    result
}

/// Dumps one table into a folder that lists nothing: aims folder and site, lists the folder, and
/// reads the table over a sole link. After a fault the folder's contents are as they were.
pub fn dump<T: Site, F: Folder>(
    alloc: Global,
    words: &Words<'_>,
    site: &mut T,
    folder: &mut F,
) -> Result<(), DumpFault>
    requires none_out { (T.links site.old).out ≡ 0 }

    ensures none_out { (T.links site.new).out ≡ 0 }
    ensures site_later { T.faults site.old ≤ T.faults site.new }
    ensures out { F.out folder.new ≡ F.out folder.old }
    ensures later { F.faults folder.old ≤ F.faults folder.new }
    ensures aims { OnOk result
        (AimsAt (asked_by words.now) (T.aim_of site.new) (F.path_of folder.new)) }
    ensures ok { OnOk result
        (Dumped (asked_by words.now) (T.tells site.old)
        (Rose (T.faults site.old) (T.faults site.new)) (T.told site.old) (T.told site.new)
        (F.tells folder.old) (F.contents folder.old) (F.contents folder.new)) }
    ensures err { IfErr result
        (λ fault. EndedBy (λ name. F.tells folder.old → IsLeast name (F.contents folder.old))
        (asked_by words.now) (T.tells site.old) (T.told site.old)
        (Rose (T.faults site.old) (T.faults site.new))
        (Rose (F.faults folder.old) (F.faults folder.new)) fault) }
    ensures empty { IfErr result
        (λ fault. ComesLater (F.tells folder.old → F.contents folder.old ≡ []) fault) }
    ensures said { IfErr result (λ fault. T.tells site.old →
        SaidBefore (asked_by words.now) (T.told site.old) (T.told site.new) fault) }
    ensures unchanged { OnErr result
        (F.tells folder.old → F.contents folder.new ≡ F.contents folder.old) }
{
    let path = words.path;
    if folder.aim(path.as_str()).is_err() {
        return Err(DumpFault::Session(SessionFault::OutOfMemory));
    }
    if site.aim(HOST, PORT).is_err() {
        return Err(DumpFault::Session(SessionFault::OutOfMemory));
    }
    match first_name(folder) {
        Ok(None) => dump_into_empty(alloc, words, site, folder),
        Ok(Some(name)) => Err(DumpFault::FolderNotEmpty(name)),
        Err(fault) => Err(fault),
    }
}
