//! A reader of lines.

ghost use Rattle.std.specs.Prelude.{◌≡◌, true, false, ◌+◌, ◌<◌, ◌≤◌, [], length, take, drop, slice_index, IfOk, OnOk, MatchOption, MatchResult};
ghost use Rattle.std.specs.Io.KnownBytes.{IsAtEnd};
ghost use Rattle.sg_lines.specs.Reading.{Gives, GivesNone, HasNoFeed, IsFirstFeed, IsLong, Stops, TakesMore, TookSome, side};

use crate::stop::LineStop;
use sg_outside::Source;
use std::alloc::{AllocError, Global};
use std::marker::Model;
use std::mem;

/// How many bytes one take asks for at most.
const PIECE: usize = 16_384;

/// The lines of a source, of which so many bytes may be taken.
#[derive(Drop)]
pub struct Lines {
    held: Vec<u8>,
    taken: u64,
    limit: u64,
    most: usize,
    ended: bool,
}

impl Model for Lines {
    ghost use Rattle.std.specs.Prelude.{◌≤◌};
    ghost use Rattle.sg_lines.specs.Reading.{Reader};

    ghost Value = { Reader };

    ghost view = { λ l. record { held = l.held.items; taken = l.taken; limit = l.limit; most = l.most; ended = l.ended } };

    ghost invariant = { λ l. l.taken ≤ l.limit };
}

impl Lines {
    /// The lines of a source from where it stands, with so many bytes at most in a line and in all.
    pub fn new(alloc: Global, most: usize, limit: u64) -> Lines
        ensures { result ≡ record { held = []; taken = 0; limit = limit; most = most; ended = false } }
    {
        Lines {
            held: Vec::new(alloc),
            taken: 0,
            limit,
            most,
            ended: false,
        }
    }

    /// The next line, without its line feed; `None` if there is none. A line that is too long, a byte too many, a fault of the source and
    /// want of memory are refused; after that no line is to be asked for. Once the end of the source was seen, no take is made.
    pub fn next<S: Source>(&mut self, source: &mut S) -> Result<Option<Vec<u8>>, LineStop>
        ensures { MatchResult result
            (λ o. MatchOption o
            (GivesNone (side S.left S.take_faults source.old) (side S.left S.take_faults source.new) self.old self.new)
            (λ line. Gives (side S.left S.take_faults source.old) (side S.left S.take_faults source.new)
            self.old self.new line.items))
            (λ why. Stops (side S.left S.take_faults source.old) (side S.left S.take_faults source.new) self.old why) }
    {
        if self.ended {
            return Ok(None);
        }
        match self.find(source)? {
            Some(at) => Ok(Some(self.line(at)?)),
            None => Ok(self.last()),
        }
    }

    // Takes pieces until the first line feed is held, and says where it is; `None` if the source is at its end before.
    fn find<S: Source>(&mut self, source: &mut S) -> Result<Option<usize>, LineStop>
        requires early { self.old.ended ≡ false }
        requires bound { self.old.taken ≤ self.old.limit }
        ensures { MatchResult result
            (λ o. TookSome (side S.left S.take_faults source.old) (side S.left S.take_faults source.new) self.old self.new
            × MatchOption o
            (HasNoFeed self.new.held × (length self.new.held ≤ self.new.most) × IsAtEnd (S.left source.new))
            (λ at. IsFirstFeed self.new.held at × (at ≤ self.new.most)))
            (λ why. Stops (side S.left S.take_faults source.old) (side S.left S.take_faults source.new) self.old why) }
    {
        'more: loop {
            match self.feed()? {
                Some(at) => return Ok(Some(at)),
                None => {
                    if !self.take_more(source)? {
                        return Ok(None);
                    }
                }
            }
        }
    }

    // Where the first line feed is, if one is held.
    fn feed(&self) -> Result<Option<usize>, LineStop>
        ensures { MatchResult result
            (λ o. MatchOption o (HasNoFeed self.now.held × (length self.now.held ≤ self.now.most))
            (λ at. IsFirstFeed self.now.held at × (at ≤ self.now.most)))
            (λ why. (why ≡ LineStop.LongLine) × IsLong self.now.held self.now.most) }
    {
        match first_feed(self.held.as_slice()) {
            Some(at) if at <= self.most => Ok(Some(at)),
            None if self.held.len() <= self.most => Ok(None),
            _ => Err(LineStop::LongLine),
        }
    }

    // Takes a piece, where no line is whole. False at the end of the source.
    fn take_more<S: Source>(&mut self, source: &mut S) -> Result<bool, LineStop>
        requires early { self.old.ended ≡ false }
        requires feeds { HasNoFeed self.old.held }
        requires few { length self.old.held ≤ self.old.most }
        ensures { MatchResult result
            (TakesMore (side S.left S.take_faults source.old) (side S.left S.take_faults source.new) self.old self.new)
            (λ why. Stops (side S.left S.take_faults source.old) (side S.left S.take_faults source.new) self.old why) }
    {
        let mut piece = [0u8; PIECE];
        let room = (self.limit - self.taken).min(PIECE as u64).max(1) as usize;
        match source.take(&mut piece[..room]) {
            Ok(0) => Ok(false),
            Ok(count) => {
                if self.taken == self.limit {
                    return Err(LineStop::TooLong);
                }
                self.held.extend_from_slice(&piece[..count])?;
                self.taken += count as u64;
                Ok(true)
            }
            Err(_) => Err(LineStop::Read),
        }
    }

    // The line whose line feed is here.
    fn line(&mut self, at: usize) -> Result<Vec<u8>, AllocError>
        requires { at < length self.old.held }
        ensures line { IfOk result (λ line. line.items ≡ take at self.old.held) }
        ensures rest { OnOk result (self.new ≡ record self.old { held = drop (at + 1) self.old.held }) }
    {
        let rest = self.held.split_off(at + 1)?;
        let mut line = mem::replace(&mut self.held, rest);
        line.truncate(at);
        Ok(line)
    }

    // All that is held, if there is something, at the end of the source.
    fn last(&mut self) -> Option<Vec<u8>>
        ensures line { MatchOption result (self.old.held ≡ []) (λ line. (0 < length self.old.held) × (line.items ≡ self.old.held)) }
        ensures rest { self.new ≡ record self.old { held = []; ended = true } }
    {
        self.ended = true;
        if self.held.is_empty() {
            return None;
        }
        let none = Vec::new(*self.held.allocator());
        Some(mem::replace(&mut self.held, none))
    }
}

// Where the first line feed is.
fn first_feed(bytes: &[u8]) -> Option<usize>
    ensures { MatchOption result (HasNoFeed bytes.now) (IsFirstFeed bytes.now) }
{
    for (at, byte) in bytes.iter().enumerate() {
        if *byte == b'\n' {
            return Some(at);
        }
    }
    None
}
