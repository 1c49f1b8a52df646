//! The greeting of a server.
ghost use Rattle.std.specs.Prelude.{◌≡◌, ◌≤◌, ◌+◌, ◌++◌, length, take, drop, option_copied};
ghost use Rattle.wire_forms.specs.Greeting.{capabilities, offers, second_size, are_fields, scramble_of, plugin_name, plugin_of, ends_of, after_version, after_protocol, greeting_of};

use crate::payload::LoginMessage;
use crate::texts::{NATIVE_PASSWORD, text_size, to_zero};
use crate::version::is_newer;
use result_rows::refusal_read;
use wire_forms::{Ends, Greeting, LoginFault, ShortText};

impl LoginMessage for Greeting {
    ghost reading = { greeting_of };

    /// Reads a server's first message. It is a greeting of protocol version 10 that offers protocol 41
    /// (0x200) and scrambles of twenty bytes (0x8000). `NotProtocol10` exactly where its first byte is
    /// neither 10 nor 255, `Refused` exactly where it is an ERR, and `Garbled` wherever else it is no
    /// such greeting, as where it is empty. Its result sets may end by an OK exactly where it offers
    /// that (0x1000000). Takes no memory. (MySQL source documentation, `Protocol::HandshakeV10`,
    /// `ERR_Packet`, `CLIENT_DEPRECATE_EOF`.)
    fn read(payload: &[u8]) -> Result<Greeting, LoginFault> {
        match payload {
            [] => Err(LoginFault::Garbled),
            [10, rest @ ..] => after_protocol(rest).ok_or(LoginFault::Garbled),
            [255, ..] => match refusal_read(payload) {
                Some(refusal) => Err(LoginFault::Refused(refusal)),
                None => Err(LoginFault::Garbled),
            },
            [version, ..] => Err(LoginFault::NotProtocol10(*version)),
        }
    }
}

// The server's version, its 00, and the other fields.
fn after_protocol(bytes: &[u8]) -> Option<Greeting>
    ensures { result ≡ after_protocol bytes.now }
{
    let (version, rest) = to_zero(bytes)?;
    after_version(version, rest)
}

// The other fields, of a server of this version.
fn after_version(version: &[u8], bytes: &[u8]) -> Option<Greeting>
    ensures { result ≡ after_version version.now bytes.now }
{
    if !are_fields(bytes) {
        return None;
    }
    let plugin = plugin_of(offers(bytes, 0x80000), &bytes[31 + second_size(bytes)..])?;
    Some(Greeting {
        version: ShortText::of(version),
        scramble: scramble_of(bytes),
        plugin: ShortText::of(plugin),
        ends: ends_of(bytes),
        newer: is_newer(version),
    })
}

// Whether the fields are there, with their filler and the capabilities that are needed.
fn are_fields(bytes: &[u8]) -> bool
    ensures { result ≡ are_fields bytes.now }
{
    44 <= bytes.len()
        && 31 + second_size(bytes) <= bytes.len()
        && bytes[12] == 0
        && offers(bytes, 0x8200)
}

// Whether all of these capabilities are offered.
fn offers(bytes: &[u8], wanted: u32) -> bool
    requires there { 44 ≤ length bytes.now }

    ensures { result ≡ offers wanted bytes.now }
{
    let capabilities = u32::from_le_bytes([bytes[13], bytes[14], bytes[18], bytes[19]]);
    capabilities & wanted == wanted
}

// How result sets end: by an OK where that is offered.
fn ends_of(bytes: &[u8]) -> Ends
    requires there { 44 ≤ length bytes.now }

    ensures { result ≡ ends_of bytes.now }
{
    if offers(bytes, 0x100_0000) {
        Ends::Ok
    } else {
        Ends::Eof
    }
}

// The size of the scramble's second part.
fn second_size(bytes: &[u8]) -> usize
    requires there { 44 ≤ length bytes.now }

    ensures { result ≡ second_size bytes.now }
{
    usize::from(bytes[20].saturating_sub(8).max(13))
}

// The first part of the scramble, and twelve bytes of the second.
fn scramble_of(bytes: &[u8]) -> [u8; 20]
    requires there { 44 ≤ length bytes.now }

    ensures { result ≡ scramble_of bytes.now }
{
    let mut scramble = [0; 20];
    put_both(&mut scramble, &bytes[4..12], &bytes[31..43]);
    scramble
}

// Writes one text after the other over all.
fn put_both(all: &mut [u8], first: &[u8], second: &[u8])
    requires room { length first.now + length second.now ≡ length all.old }

    ensures { all.new ≡ first.now ++ second.now }
{
    let (front, rest) = all.split_at_mut(first.len());
    front.copy_from_slice(first);
    rest.copy_from_slice(second);
}

// A name and its 00, which may be missing.
fn plugin_name(bytes: &[u8]) -> Option<&[u8]>
    ensures { option_copied result ≡ plugin_name bytes.now }
{
    let size = text_size(bytes);
    if bytes.len() <= size + 1 {
        return Some(&bytes[..size]);
    }
    None
}

// The plugin that is named, where plugins are offered.
fn plugin_of(offered: bool, bytes: &[u8]) -> Option<&[u8]>
    ensures { option_copied result ≡ plugin_of offered bytes.now }
{
    if !offered {
        plugin_name(bytes)?;
        return Some(NATIVE_PASSWORD);
    }
    if bytes.is_empty() {
        return None;
    }
    plugin_name(bytes)
}
