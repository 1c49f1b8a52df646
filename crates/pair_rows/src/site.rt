//! The site and the folder of a case.
ghost use Rattle.std.specs.Prelude.{◌≡◌, IfOk};

use crate::case::Case;
use crate::fault::CaseFault;
use crate::words::{byte, bytes_of, number};
use memory_outside::{Conversation, ConversationList, MemoryFolder, ReplySite};
use my_packets::frame_into;
use plain_data::{Bytes, Name, NameList, NumberList};
use std::alloc::Global;

const OK: &str = "%00%00%00%02%00%00%00";

const EOF: &str = "%fe%00%00%02%00";

// An OK that ends a result set.
const ENDING_OK: &str = "%fe%00%00%02%00%00%00";

const DEFINITION: &str = "%03def%01s%01t%01t%02id%02id%0c%3f%00%0b%00%00%00%03%03%00%00%00%00";

// The longest message that is framed.
const LIMIT: usize = 67_108_864;

// Appends the packets of a message, and answers the next sequence id.
fn message_into(alloc: Global, words: &str, id: u8, out: &mut Vec<u8>) -> Result<u8, CaseFault> {
    let message = bytes_of(alloc, words)?;
    if message.len() > LIMIT {
        return Err(CaseFault::Unread);
    }
    Ok(frame_into(&message, id, out)?)
}

// Adds the packets of one message to a conversation.
fn say(alloc: Global, talk: &mut Conversation, id: u8, words: &str) -> Result<(), CaseFault> {
    let mut out = Vec::new(alloc);
    message_into(alloc, words, id, &mut out)?;
    talk.push(Bytes::of(alloc, &out)?)?;
    Ok(())
}

// Adds the answers to the login.
fn say_login(alloc: Global, talk: &mut Conversation, words: &str) -> Result<(), CaseFault> {
    let mut words = words.split(' ');
    let mut id = byte(words.next().unwrap_or(""));
    for answer in words {
        say(alloc, talk, id, answer)?;
        id = id.wrapping_add(2);
    }
    Ok(())
}

// Appends what a result set of so many columns begins with, which ends so.
fn head_into(alloc: Global, columns: u8, ends: &str, out: &mut Vec<u8>) -> Result<u8, CaseFault> {
    let mut id = frame_into(&[columns], 1, out)?;
    for _ in 0..columns {
        id = message_into(alloc, DEFINITION, id, out)?;
    }
    if ends == "ok" {
        return Ok(id);
    }
    message_into(alloc, EOF, id, out)
}

// Appends these messages.
fn messages_into(
    alloc: Global,
    words: &str,
    first: u8,
    out: &mut Vec<u8>,
) -> Result<u8, CaseFault> {
    let mut id = first;
    for message in words.split(' ') {
        id = message_into(alloc, message, id, out)?;
    }
    Ok(id)
}

// Adds the reply that tells the columns.
fn say_columns(
    alloc: Global,
    talk: &mut Conversation,
    words: &str,
    ends: &str,
) -> Result<(), CaseFault> {
    let mut out = Vec::new(alloc);
    let id = head_into(alloc, 4, ends, &mut out)?;
    let id = messages_into(alloc, words, id, &mut out)?;
    let last = if ends == "ok" { ENDING_OK } else { EOF };
    message_into(alloc, last, id, &mut out)?;
    talk.push(Bytes::of(alloc, &out)?)?;
    Ok(())
}

// Adds the reply of rows.
fn say_rows(
    alloc: Global,
    talk: &mut Conversation,
    words: &str,
    ends: &str,
) -> Result<(), CaseFault> {
    let Some((columns, rows)) = words.split_once(' ') else {
        return Err(CaseFault::Unread);
    };
    let mut out = Vec::new(alloc);
    let id = head_into(alloc, byte(columns), ends, &mut out)?;
    messages_into(alloc, rows, id, &mut out)?;
    talk.push(Bytes::of(alloc, &out)?)?;
    Ok(())
}

// What the server says, answer by answer.
fn conversation(alloc: Global, case: &Case<'_>) -> Result<Conversation, CaseFault> {
    let mut talk = Conversation::new(alloc);
    say(alloc, &mut talk, 0, case.greeting)?;
    say_login(alloc, &mut talk, case.login)?;
    say(alloc, &mut talk, 1, OK)?;
    say(alloc, &mut talk, 1, OK)?;
    say_columns(alloc, &mut talk, case.columns, case.ends)?;
    say_rows(alloc, &mut talk, case.rows, case.ends)?;
    Ok(talk)
}

/// The words of the command line.
pub fn words_of(alloc: Global, texts: &str) -> Result<NameList, CaseFault> {
    let mut words = NameList::new(alloc);
    for text in texts.split(' ') {
        words.push(Name::of(alloc, text)?)?;
    }
    Ok(words)
}

fn faults_of(alloc: Global, words: &str) -> Result<NumberList, CaseFault> {
    let mut faults = NumberList::new(alloc);
    for word in words.split_whitespace() {
        faults.push(u64::from(number(word)))?;
    }
    Ok(faults)
}

/// A site with the case's conversation alone.
pub fn site_of(alloc: Global, case: &Case<'_>, cut: u32) -> Result<ReplySite, CaseFault>
    ensures { IfOk result (λ site. site.links.out ≡ 0) }
{
    let mut talks = ConversationList::new(alloc);
    talks.push(conversation(alloc, case)?)?;
    Ok(ReplySite::new(alloc, talks, faults_of(alloc, case.faults)?, cut))
}

/// A folder with the case's file, or with none.
pub fn folder_of(alloc: Global, listed: &str) -> Result<MemoryFolder, CaseFault>
    ensures { IfOk result (λ folder. folder.out ≡ 0) }
{
    let mut folder = MemoryFolder::new(alloc, NumberList::new(alloc));
    if !listed.is_empty() {
        folder.put(listed, b"kept")?;
    }
    Ok(folder)
}
