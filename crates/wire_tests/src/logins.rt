//! The messages of a login.
use crate::words::{
    add_bytes, add_counted, add_hex, add_named, add_refusal, add_text, add_truth, bytes_of,
    ends_and_rest, first_and_rest,
};
use my_login::{LoginMessage, native_answer, response_into};
use percent_encoding::percent_decode;
use plain_data::OutOfMemory;
use std::alloc::Global;
use wire_forms::{Ends, Greeting, LoginFault, Switch};

// What stands after the version in the greeting of a server without plugins.
const AFTER_VERSION: &[u8] =
    b"\x00\x08\x00\x00\x00abcdefgh\x00\xff\xff\xff\x02\x00\xf7\xdf\x15\x00\x00\x00\x00\x00\x00\x00\x00\x00\x00ijklmnopqrst\x00";

/// Adds what comes of a call on the messages of a login. A refusal is for want of memory.
pub fn answer(out: &mut String, alloc: Global, call: &str, words: &str) -> Result<(), OutOfMemory> {
    match call {
        "greeting" => greeting(out, &bytes_of(alloc, words)?),
        "native_answer" => answer_to(out, alloc, words),
        "response" => response(out, alloc, words),
        "switch" => switch(out, &bytes_of(alloc, words)?),
        "version" => version(out, alloc, words),
        _ => add_text(out, "no such call"),
    }
}

fn greeting(out: &mut String, message: &[u8]) -> Result<(), OutOfMemory> {
    match Greeting::read(message) {
        Ok(greeting) => add_greeting(out, &greeting),
        Err(fault) => add_fault(out, &fault),
    }
}

fn add_greeting(out: &mut String, greeting: &Greeting) -> Result<(), OutOfMemory> {
    add_named(out, "version ", greeting.version.as_slice())?;
    add_named(out, ", scramble ", &greeting.scramble)?;
    add_named(out, ", plugin ", greeting.plugin.as_slice())?;
    add_text(out, ends_words(greeting.ends))?;
    add_text(out, if greeting.newer { ", newer" } else { "" })
}

fn ends_words(ends: Ends) -> &'static str {
    match ends {
        Ends::Eof => ", ends by EOF",
        Ends::Ok => ", ends by OK",
    }
}

fn add_fault(out: &mut String, fault: &LoginFault) -> Result<(), OutOfMemory> {
    match fault {
        LoginFault::NotProtocol10(version) => {
            add_counted(out, "protocol version ", u64::from(*version))
        }
        LoginFault::PluginUnsupported(plugin) => add_named(out, "plugin ", plugin.as_slice()),
        LoginFault::Refused(refusal) => add_refusal(out, refusal),
        LoginFault::Garbled => add_text(out, "garbled"),
    }
}

fn switch(out: &mut String, message: &[u8]) -> Result<(), OutOfMemory> {
    match Switch::read(message) {
        Ok(switch) => add_named(out, "scramble ", &switch.scramble),
        Err(fault) => add_fault(out, &fault),
    }
}

// `native_answer PASSWORD SCRAMBLE`.
fn answer_to(out: &mut String, alloc: Global, words: &str) -> Result<(), OutOfMemory> {
    let (password, scramble) = first_and_rest(words);
    let password = bytes_of(alloc, password)?;
    let scramble = bytes_of(alloc, scramble)?;
    add_answer(out, &password, &scramble)
}

fn add_answer(out: &mut String, password: &[u8], scramble: &[u8]) -> Result<(), OutOfMemory> {
    match scramble.first_chunk::<20>() {
        Some(scramble) => add_hex(out, &native_answer(password, scramble)),
        None => add_text(out, "a scramble has twenty bytes"),
    }
}

// `version TEXT`: whether a greeting of this version is newer.
fn version(out: &mut String, alloc: Global, words: &str) -> Result<(), OutOfMemory> {
    let mut message = Vec::new(alloc);
    spell_greeting(&mut message, words)?;
    match Greeting::read(&message) {
        Ok(greeting) => add_truth(out, greeting.newer),
        Err(fault) => add_fault(out, &fault),
    }
}

// The greeting of a server of this version, without plugins.
fn spell_greeting(message: &mut Vec<u8>, version: &str) -> Result<(), OutOfMemory> {
    message.push(10)?;
    percent_decode(version.as_bytes()).append_to(message)?;
    message.extend_from_slice(AFTER_VERSION)?;
    Ok(())
}

// `response ENDS USER ANSWER`, or `response ENDS USER` without a password. The call appends, so a `>` stands
// before what it writes.
fn response(out: &mut String, alloc: Global, words: &str) -> Result<(), OutOfMemory> {
    let (ends, rest) = ends_and_rest(words);
    let (user, answer) = first_and_rest(rest);
    let user = bytes_of(alloc, user)?;
    let answer = bytes_of(alloc, answer)?;
    let mut payload = Vec::new(alloc);
    spell_response(&mut payload, &user, &answer, ends)?;
    add_bytes(out, &payload)
}

fn spell_response(
    payload: &mut Vec<u8>,
    user: &[u8],
    answer: &[u8],
    ends: Ends,
) -> Result<(), OutOfMemory> {
    payload.push(b'>')?;
    response_into(user, answer.first_chunk::<20>(), ends, payload)
}
