//! The server and the account that a command line names.
ghost use Rattle.command_words.specs.Meant.{IsAsMeant};
ghost use Rattle.command_words.specs.Login.{login_of};
ghost use Rattle.command_words.specs.Matches.{found_rows};

use crate::fault::WordsFault;
use crate::values::{number_or, text_or};
use clap::ArgMatches;
use plain_data::Name;
use std::alloc::Global;

/// The server and the account that a command line names.
#[derive(Drop)]
pub struct ServerLogin {
    pub host: Name,
    pub port: u16,
    pub user: Name,
    pub password: Name,
}

/// The login that the words ask for: 127.0.0.1, port 3306, `root` and no password where they don't say.
pub(crate) fn login(alloc: Global, found: &ArgMatches<'_>) -> Result<ServerLogin, WordsFault>
    ensures { IsAsMeant (login_of (found_rows found.now)) result }
{
    let port = number_or(found, "port", 1, 65535, 3306)?;
    Ok(ServerLogin {
        host: Name::of(alloc, text_or(found, "host", "127.0.0.1"))?,
        port: port as u16,
        user: Name::of(alloc, text_or(found, "user", "root"))?,
        password: Name::of(alloc, text_or(found, "password", ""))?,
    })
}
