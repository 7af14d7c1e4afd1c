//! What frames mean to the stations to which the access point sends them, and whose data was dropped.

ghost use Rattle.std.specs.Prelude.{◌≡◌, ◌<◌, Some};
ghost use Rattle.apd_driver.specs.Notices.{answered, block_ack_meaning, dropped_of, meaning_of, notice_of, octet_at, receiver_of, sender_of, word_at};
ghost use Rattle.apd_driver.specs.NoticeTexts.{drop_members, drop_words, notice_members, notice_words};

use mac_types::Address;
use std::fmt;

/// What a frame means to its receiver.
#[derive(Clone, Copy)]
pub enum Meaning {
    /// It is authenticated.
    Authenticated,
    /// It is associated, and has this association identifier.
    Associated { aid: u16 },
    /// Its request is refused with this status.
    Refused { status: u16 },
    /// Its agreement for this TID has a window of so many numbers.
    Agreement { tid: u16, size: u16 },
    /// Its agreement for this TID has ended, for this reason.
    Ended { tid: u16, reason: u16 },
    /// It isn't associated, or not authenticated, any more, for this reason.
    Left { reason: u16 },
}

/// What a frame means to a station.
#[derive(Clone, Copy)]
pub struct Notice {
    pub station: Address,
    pub meaning: Meaning,
}

impl fmt::Display for Notice {
    ghost output = { λ notice. Some (notice_words notice) };

    fn fmt<W: fmt::Write>(&self, f: &mut fmt::Formatter<W>) -> fmt::Result {
        let Notice { station, meaning } = *self;
        match meaning {
            Meaning::Authenticated => write!(f, "authenticated {station}"),
            Meaning::Associated { aid } => write!(f, "associated {station} {aid}"),
            Meaning::Refused { status } => write!(f, "refused {station} {status}"),
            Meaning::Agreement { tid, size } => {
                write!(f, "agreement {station} {tid} size {size}")
            }
            Meaning::Ended { tid, reason } => { write!(f, "ended {station} {tid} reason {reason}") }
            Meaning::Left { reason } => write!(f, "left {station} reason {reason}"),
        }
    }
}

/// Data that a verdict dropped.
#[derive(Clone, Copy)]
pub struct Dropped {
    /// Who sent it.
    pub station: Address,
    /// Its sequence number.
    pub number: u16,
}

impl Dropped {
    /// The data of a received frame.
    pub fn of(frame: &[u8]) -> Dropped
        ensures is { result ≡ dropped_of frame.now }
    {
        Dropped {
            station: sender_of(frame),
            number: word_at(frame, 22) / 16,
        }
    }
}

impl fmt::Display for Dropped {
    ghost output = { λ dropped. Some (drop_words dropped) };

    fn fmt<W: fmt::Write>(&self, f: &mut fmt::Formatter<W>) -> fmt::Result {
        let Dropped { station, number } = *self;
        write!(f, "drop {station} {number}")
    }
}

/// Dropped data as members of a JSON object.
#[derive(Clone, Copy)]
pub(crate) struct DropMembers(pub Dropped);

impl fmt::Display for DropMembers {
    ghost output = { λ members. Some (drop_members members.0) };

    fn fmt<W: fmt::Write>(&self, f: &mut fmt::Formatter<W>) -> fmt::Result {
        let Dropped { station, number } = self.0;
        write!(
            f,
            "\"event\":\"drop\",\"station\":\"{station}\",\"number\":{number}"
        )
    }
}

/// A notice as members of a JSON object.
#[derive(Clone, Copy)]
pub(crate) struct Members(pub Notice);

impl fmt::Display for Members {
    ghost output = { λ members. Some (notice_members members.0) };

    fn fmt<W: fmt::Write>(&self, f: &mut fmt::Formatter<W>) -> fmt::Result {
        let Notice { station, meaning } = self.0;
        match meaning {
            Meaning::Authenticated => {
                write!(f, "\"event\":\"authenticated\",\"station\":\"{station}\"")
            }
            Meaning::Associated { aid } => write!(
                f,
                "\"event\":\"associated\",\"station\":\"{station}\",\"aid\":{aid}"
            ),
            Meaning::Refused { status } => write!(
                f,
                "\"event\":\"refused\",\"station\":\"{station}\",\"status\":{status}"
            ),
            Meaning::Agreement { tid, size } => write!(
                f,
                "\"event\":\"agreement\",\"station\":\"{station}\",\"tid\":{tid},\"size\":{size}"
            ),
            Meaning::Ended { tid, reason } => write!(
                f,
                "\"event\":\"ended\",\"station\":\"{station}\",\"tid\":{tid},\"reason\":{reason}"
            ),
            Meaning::Left { reason } => write!(
                f,
                "\"event\":\"left\",\"station\":\"{station}\",\"reason\":{reason}"
            ),
        }
    }
}

/// An octet of a frame; 0 behind its end.
fn octet_at(frame: &[u8], place: usize) -> u8
    ensures is { result ≡ octet_at frame.now place }
{
    match frame.get(place) {
        Some(octet) => *octet,
        None => 0,
    }
}

/// The number that two octets spell, the lower one first.
fn word_at(frame: &[u8], place: usize) -> u16
    requires near { place < 64 }
    ensures is { result ≡ word_at frame.now place }
{
    let low = octet_at(frame, place);
    let high = octet_at(frame, place + 1);
    u16::from(low) + 256 * u16::from(high)
}

/// Address 1.
fn receiver_of(frame: &[u8]) -> Address
    ensures is { result ≡ receiver_of frame.now }
{
    Address::new([
        octet_at(frame, 4),
        octet_at(frame, 5),
        octet_at(frame, 6),
        octet_at(frame, 7),
        octet_at(frame, 8),
        octet_at(frame, 9),
    ])
}

/// Address 2.
fn sender_of(frame: &[u8]) -> Address
    ensures is { result ≡ sender_of frame.now }
{
    Address::new([
        octet_at(frame, 10),
        octet_at(frame, 11),
        octet_at(frame, 12),
        octet_at(frame, 13),
        octet_at(frame, 14),
        octet_at(frame, 15),
    ])
}

/// What a response with this status means, if it means this with status 0.
fn answered(meaning: Meaning, status: u16) -> Meaning
    ensures is { result ≡ answered meaning status }
{
    if status == 0 {
        meaning
    } else {
        Meaning::Refused { status }
    }
}

/// What an ADDBA Response or a DELBA means.
fn block_ack_meaning(frame: &[u8]) -> Option<Meaning>
    ensures is { result ≡ block_ack_meaning frame.now }
{
    let action = octet_at(frame, 25);
    if action == 1 {
        let parameters = word_at(frame, 29);
        let agreement = Meaning::Agreement {
            tid: parameters / 4 % 16,
            size: parameters / 64,
        };
        Some(answered(agreement, word_at(frame, 27)))
    } else if action == 2 {
        Some(Meaning::Ended {
            tid: word_at(frame, 26) / 4096,
            reason: word_at(frame, 28),
        })
    } else {
        None
    }
}

/// What a frame means to its receiver, if it answers a request or ends what was.
fn meaning_of(frame: &[u8]) -> Option<Meaning>
    ensures is { result ≡ meaning_of frame.now }
{
    let kind = octet_at(frame, 0);
    if kind == 0xb0 {
        Some(answered(Meaning::Authenticated, word_at(frame, 28)))
    } else if kind == 0x10 || kind == 0x30 {
        let aid = word_at(frame, 28) % 16384;
        Some(answered(Meaning::Associated { aid }, word_at(frame, 26)))
    } else if kind == 0xa0 || kind == 0xc0 {
        let reason = word_at(frame, 24);
        Some(Meaning::Left { reason })
    } else if kind == 0xd0 && octet_at(frame, 24) == 3 {
        block_ack_meaning(frame)
    } else {
        None
    }
}

/// The notice that a frame gives, if it gives one.
pub(crate) fn notice_of(frame: &[u8]) -> Option<Notice>
    ensures is { result ≡ notice_of frame.now }
{
    let meaning = meaning_of(frame)?;
    let station = receiver_of(frame);
    Some(Notice { station, meaning })
}
