// A display 7 with key k1, and links that answer what they are told.
//
// The calls of an asker stand here without a clause, so that no test carries theirs.
use sg_base::{MediaId, Moment, PlayBody, Rows};
use sg_devices::MemLink;
use sg_exchange::{Asker, BatchEnd, EnrolEnd, Heard};
use std::alloc::{AllocError, Global};
use std::test::Fail;

pub fn asker(alloc: Global) -> Result<Asker, AllocError> {
    Asker::new(alloc, 7, b"k1")
}

/// A link that gives these answers in their order.
pub fn link(alloc: Global, answers: &[&[u8]]) -> Result<MemLink, AllocError> {
    let mut rows = Vec::new(alloc);
    for answer in answers {
        rows.push(Rows::from_vec(answer.to_vec(alloc)?))?;
    }
    Ok(MemLink::new(alloc, rows))
}

/// A whole reply.
pub fn reply(alloc: Global, status: &str, body: &str) -> Result<String, AllocError> {
    let length = body.len();
    format!(in alloc; "HTTP/1.1 {status}\r\nContent-Length: {length}\r\n\r\n{body}")
}

pub fn play(event: u32, layout: u32, from: u32, to: u32) -> Result<PlayBody, Fail> {
    Ok(PlayBody {
        event,
        layout,
        from: Moment::new(from).ok_or("from")?,
        to: Moment::new(to).ok_or("to")?,
    })
}

/// Asks for the manifest.
pub fn manifest(asker: &mut Asker, link: &mut MemLink) -> Result<Heard, AllocError> {
    asker.manifest(link)
}

/// Asks for bytes of medium 3.
pub fn piece(
    asker: &mut Asker,
    link: &mut MemLink,
    offset: u32,
    count: u32,
) -> Result<Heard, AllocError> {
    asker.piece(link, MediaId(3), offset, count)
}

/// Sends plays, the first of which has the number 5, where 8 is the next.
pub fn send(
    asker: &mut Asker,
    link: &mut MemLink,
    plays: &[PlayBody],
) -> Result<BatchEnd, AllocError> {
    asker.send(link, 1, 5, plays, 8)
}

/// Asks for an epoch.
pub fn enrol(asker: &mut Asker, link: &mut MemLink) -> Result<EnrolEnd, AllocError> {
    asker.enrol(link)
}
