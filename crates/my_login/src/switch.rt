//! Requests for another plugin.
ghost use Rattle.std.specs.Prelude.{◌≡◌};
ghost use Rattle.wire_forms.specs.Switch.{new_scramble, switch_to, after_request, switch_of};

use crate::payload::LoginMessage;
use crate::texts::{NATIVE_PASSWORD, to_zero};
use wire_forms::{LoginFault, ShortText, Switch};

impl LoginMessage for Switch {
    ghost reading = { switch_of };

    /// Reads a request for another plugin. `PluginUnsupported` exactly where it names another one than
    /// `mysql_native_password`; a lone fe names `mysql_old_password`. `Garbled` exactly where it is no
    /// request: it doesn't begin with fe, has no 00 after the name, or its scramble isn't twenty
    /// bytes, after which a 00 may stand. Takes no memory. (MySQL source documentation,
    /// `Protocol::AuthSwitchRequest`, `Protocol::OldAuthSwitchRequest`.)
    fn read(payload: &[u8]) -> Result<Switch, LoginFault> {
        match payload {
            [0xfe, rest @ ..] => after_request(rest),
            _ => Err(LoginFault::Garbled),
        }
    }
}

// What stands after the first byte.
fn after_request(bytes: &[u8]) -> Result<Switch, LoginFault>
    ensures { result ≡ after_request bytes.now }
{
    if bytes.is_empty() {
        return Err(LoginFault::PluginUnsupported(ShortText::of(b"mysql_old_password")));
    }
    match to_zero(bytes) {
        Some((plugin, rest)) => switch_to(plugin, rest),
        None => Err(LoginFault::Garbled),
    }
}

// A switch to this plugin, with these bytes after its name.
fn switch_to(plugin: &[u8], bytes: &[u8]) -> Result<Switch, LoginFault>
    ensures { result ≡ switch_to plugin.now bytes.now }
{
    if plugin != NATIVE_PASSWORD {
        return Err(LoginFault::PluginUnsupported(ShortText::of(plugin)));
    }
    match new_scramble(bytes) {
        Some(scramble) => Ok(Switch { scramble }),
        None => Err(LoginFault::Garbled),
    }
}

// Twenty bytes, after which a 00 may stand.
fn new_scramble(bytes: &[u8]) -> Option<[u8; 20]>
    ensures { result ≡ new_scramble bytes.now }
{
    let (scramble, rest) = bytes.split_first_chunk::<20>()?;
    match rest {
        [] | [0] => Some(*scramble),
        _ => None,
    }
}
