//! How the bytes of a message are taken off a link.
ghost use Rattle.std.specs.Prelude.{◌≡◌, ◌<◌, ◌≤◌, ◌+◌, ◌-◌, ℕ, [], length, IfErr, IfOk, OnOk, OnErr, Err};
ghost use Rattle.my_packets.specs.Front.{Wants};
ghost use Rattle.my_packets.specs.Skims.{wanted};
ghost use Rattle.my_packets.specs.Steps.{Passes};
ghost use Rattle.my_session.specs.Channel.{HearsNext, HearsNone, SkimsTo};
ghost use Rattle.my_session.specs.Receiving.{Fetches, IsReader, IsStillWithin, MayTake, SkimsPiece, StaysReader, reader_at, skimmer_at};
ghost use Rattle.my_session.specs.Receiving.{SaysNothing, Unfetched, Unsettled, Unskimmed};
ghost use Rattle.my_session.specs.Fault.{session_result};
ghost use Rattle.my_session.specs.Serving.{IsServing, KeepsLink, MessageWaits};
ghost use Rattle.my_session.specs.Session.{link_at};

use crate::fault::ChannelFault;
use crate::limits::{MESSAGE_LIMIT, PIECE, SESSION_LIMIT};
use link_traits::Link;
use my_packets::{FrameFault, Frames, Skim};

// How many bytes to ask the link for, where so many are wanted and so many were received.
fn room(wants: u32, taken: u64) -> usize
    requires wants { 0 < wants }
    requires within { taken ≤ SESSION_LIMIT }

    ensures piece { result ≤ PIECE }
    ensures wanted { result ≤ wants }
    ensures within { taken + result ≤ SESSION_LIMIT }
    ensures none { result ≡ 0 → taken ≡ SESSION_LIMIT }
{
    let left = (SESSION_LIMIT - taken).min(PIECE as u64) as usize;
    left.min(wants as usize)
}

// Takes some bytes off the link, no more than are wanted.
fn fetch<L: Link>(
    link: &mut L,
    frames: &mut Frames,
    piece: &mut [u8; PIECE],
    taken: &mut u64,
    wants: u32,
) -> Result<(), ChannelFault>
    requires wants { 0 < wants }
    requires may { MayTake L.Link link.old taken.old }
    requires place { frames.old.place + length frames.old.bytes ≤ taken.old }

    ensures keeps { KeepsLink L.Link link.old link.new (session_result result) }
    ensures stays { StaysReader L.Link (reader_at link.old frames.old taken.old)
        (reader_at link.new frames.new taken.new) }
    ensures ok { OnOk result (Fetches L.Link wants (reader_at link.old frames.old taken.old)
        (reader_at link.new frames.new taken.new)) }
    ensures err { IfErr (session_result result) (Unfetched taken.old) }
{
    let room = room(wants, *taken);
    if room == 0 {
        return Err(ChannelFault::StreamTooLong);
    }
    let count = match link.recv(&mut piece[..room]) {
        Ok(count) => count,
        Err(_) => return Err(ChannelFault::Link),
    };
    if frames.feed(&piece[..count]).is_err() {
        return Err(ChannelFault::OutOfMemory);
    }
    *taken += count as u64;
    Ok(())
}

// Reads the message that the bytes hold, or finds what is wrong with them.
fn settle(frames: &mut Frames, began: u64) -> Result<(), ChannelFault>
    requires settled { Wants frames.old.limit frames.old.id frames.old.bytes 0 }

    ensures ok { OnOk result (Passes frames.old frames.new) }
    ensures err { IfErr (session_result result) (Unsettled frames.old began) }
    ensures same { OnErr result (frames.new ≡ frames.old) }
{
    match frames.step() {
        Ok(true) => Ok(()),
        Ok(false) => unreachable!(),
        Err(FrameFault::BadSequence(_, _)) => Err(ChannelFault::Garbled(began)),
        Err(FrameFault::TooLong(size)) => Err(ChannelFault::TooLong(size)),
    }
}

/// Takes the next message off the link. Nothing may be unread, no more bytes may have been read than
/// taken nor taken than a session hears, and on an honest link that hasn't failed a whole message must
/// wait. Refusals are those of `Channel::hear`.
pub(crate) fn receive<L: Link>(
    link: &mut L,
    frames: &mut Frames,
    piece: &mut [u8; PIECE],
    taken: &mut u64,
) -> Result<(), ChannelFault>
    requires empty { frames.old.bytes ≡ [] }
    requires reader { IsReader frames.old taken.old }
    requires waits { IsServing L.Link link.old →
        MessageWaits frames.old.id (L.served link.old).waiting }

    ensures keeps { KeepsLink L.Link link.old link.new (session_result result) }
    ensures reader { IsReader frames.new taken.new }
    ensures empty { OnOk result (frames.new.bytes ≡ []) }
    ensures ok { OnOk result (HearsNext L.Link frames.new.message
        (link_at link.old taken.old frames.old.id) (link_at link.new taken.new frames.new.id)) }
    ensures err { IfErr (session_result result)
        (HearsNone L.Link (link_at link.old taken.old frames.old.id)
        (link_at link.new taken.new frames.new.id)) }
{
    let began = *taken;
    'pieces: loop {
        let wants = frames.wants();
        if wants == 0 {
            return settle(frames, began);
        }
        if let Err(fault) = fetch(link, frames, piece, taken, wants) {
            return Err(fault);
        }
    }
}

// Takes some bytes off the link, no more than the skim wants, and lets it read them.
fn skim_piece<L: Link>(
    link: &mut L,
    skim: &mut Skim,
    piece: &mut [u8; PIECE],
    taken: &mut u64,
    wants: u32,
    began: u64,
) -> Result<(), ChannelFault>
    requires wants { 0 < wants }
    requires wanted { wants ≡ wanted skim.old }
    requires may { MayTake L.Link link.old taken.old }

    ensures keeps { KeepsLink L.Link link.old link.new (session_result result) }
    ensures still { IsStillWithin taken.old taken.new }
    ensures same { SaysNothing L.Link link.old link.new }
    ensures ok { OnOk result (SkimsPiece L.Link (skimmer_at link.old skim.old taken.old)
        (skimmer_at link.new skim.new taken.new)) }
    ensures err { IfErr (session_result result)
        (Unskimmed L.Link (skimmer_at link.old skim.old taken.old) link.new began) }
{
    let room = room(wants, *taken);
    if room == 0 {
        return Err(ChannelFault::StreamTooLong);
    }
    let count = match link.recv(&mut piece[..room]) {
        Ok(count) => count,
        Err(_) => return Err(ChannelFault::Link),
    };
    *taken += count as u64;
    match skim.feed(&piece[..count]) {
        Ok(()) => Ok(()),
        Err(FrameFault::BadSequence(_, _)) => Err(ChannelFault::Garbled(began)),
        Err(FrameFault::TooLong(size)) => Err(ChannelFault::TooLong(size)),
    }
}

/// Takes the next message off the link, whose first packet has to have this sequence id, and keeps its
/// front. No more bytes may have been taken than a session hears, and on an honest link that hasn't
/// failed a whole message must wait. Takes no memory. Refusals are those of `Channel::skim`.
pub(crate) fn skim_message<L: Link>(
    link: &mut L,
    id: u8,
    piece: &mut [u8; PIECE],
    taken: &mut u64,
) -> Result<Skim, ChannelFault>
    requires within { taken.old ≤ SESSION_LIMIT }
    requires waits { IsServing L.Link link.old → MessageWaits id (L.served link.old).waiting }

    ensures keeps { KeepsLink L.Link link.old link.new (session_result result) }
    ensures still { IsStillWithin taken.old taken.new }
    ensures size { OnOk result (4 ≤ taken.new - taken.old) }
    ensures memory { result ≡ Err ChannelFault.OutOfMemory → ⊥ }
    ensures ok { IfOk result
        (λ skim. SkimsTo L.Link skim (link_at link.old taken.old id) link.new taken.new) }
    ensures err { IfErr (session_result result) (λ fault. (now : ℕ) →
        HearsNone L.Link (link_at link.old taken.old id) (link_at link.new taken.new now) fault) }
{
    let began = *taken;
    let mut skim = Skim::new(id, MESSAGE_LIMIT);
    'pieces: loop {
        let wants = skim.wants();
        if wants == 0 {
            return Ok(skim);
        }
        if let Err(fault) = skim_piece(link, &mut skim, piece, taken, wants, began) {
            return Err(fault);
        }
    }
}
