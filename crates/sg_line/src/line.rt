//! The shown line, in fixed room.

ghost use Rattle.std.specs.Prelude.{◌≡◌, ◌+◌, ◌*◌, ◌≤◌, ◌++◌, length, decimal, codes};
ghost use Rattle.std.specs.List.{flat_map};
ghost use Rattle.std.specs.Fmt.{signed_decimal};
ghost use Rattle.sg_line.specs.Lines.{show_text, entry_text, part_text, over_text, line_text};

use crate::shown::Shown;
use itoa::Buffer;
use sg_base::{MediaId, Moment};
use sg_resolver::{Picture, Show};
use std::marker::Model;

/// The most bytes of a line: at most 895 come together, in two parts of 16 regions each.
const ROOM: usize = 1024;

/// The line of a moment. Contracts see it as its bytes.
#[derive(Drop)]
pub struct Line {
    bytes: [u8; ROOM],
    len: usize,
}

impl Model for Line {
    ghost use Rattle.std.specs.Prelude.{◌≤◌, ℕ, List, take};

    ghost Value = { List ℕ };

    ghost view = { λ l. take l.len l.bytes };

    ghost invariant = { λ l. l.len ≤ 1024 };
}

impl Line {
    /// The line of a moment, by what the picture shows and what an overlay shows above it. It takes no memory.
    pub fn new(moment: Moment, shown: &Shown, over: &Option<Shown>) -> Line
        ensures { result ≡ line_text moment shown.now over.now }
    {
        let mut line = Line {
            bytes: [0; ROOM],
            len: 0,
        };
        line.push_number(moment.seconds());
        line.push(b" e");
        line.push_part(shown);
        line.push_over(over);
        line.push(b"\n");
        line
    }

    /// Its bytes.
    pub fn as_bytes(&self) -> &[u8]
        ensures { result.now ≡ self.now }
    {
        &self.bytes[..self.len]
    }

    // Adds what an overlay shows, if there is one.
    fn push_over(&mut self, over: &Option<Shown>)
        requires { length self.old ≤ 582 }
        ensures text { self.new ≡ self.old ++ over_text over.now }
        ensures room { length self.new ≤ length self.old + 442 }
    {
        if let Some(over) = over {
            self.push(b" v");
            self.push_part(over);
        }
    }

    // Adds a show and the regions of its picture.
    fn push_part(&mut self, shown: &Shown)
        requires { length self.old ≤ 584 }
        ensures text { self.new ≡ self.old ++ part_text shown.now }
        ensures room { length self.new ≤ length self.old + 440 }
    {
        self.push_show(&shown.show);
        self.push_entries(&shown.picture);
    }

    // Adds an event, its layout, where its slot began, and how long ago.
    #[tactic(auto, unfolding(crate::specs::Lines::show_text))]
    fn push_show(&mut self, show: &Show)
        requires { length self.old ≤ 584 }
        ensures text { self.new ≡ self.old ++ show_text show.now }
        ensures room { length self.new ≤ length self.old + 56 }
    {
        self.push_number(show.event);
        self.push(b" l");
        self.push_number(show.layout);
        self.push(b" s");
        self.push_signed(show.slot_start.second());
        self.push(b" o");
        self.push_number(show.offset);
    }

    // Adds each region of a picture with its medium.
    fn push_entries(&mut self, picture: &Picture)
        requires { length self.old ≤ 640 }
        ensures text { self.new ≡ self.old ++ flat_map entry_text picture.now }
        ensures room { length self.new ≤ length self.old + 384 }
    {
        for i in 0..picture.len() {
            let (region, media) = picture.at(i);
            self.push_entry(region, media);
        }
    }

    // Adds a region and its medium.
    #[tactic(auto, unfolding(crate::specs::Lines::entry_text))]
    fn push_entry(&mut self, region: u32, media: MediaId)
        requires { length self.old ≤ 1000 }
        ensures text { self.new ≡ self.old ++ entry_text (region, media) }
        ensures room { length self.new ≤ length self.old + 24 }
    {
        self.push(b" r");
        self.push_number(region);
        self.push(b":m");
        self.push_number(media.0);
    }

    fn push_number(&mut self, n: u32)
        requires { length self.old ≤ 1014 }
        ensures text { self.new ≡ self.old ++ decimal n }
        ensures room { length self.new ≤ length self.old + 10 }
    {
        let mut digits = Buffer::new();
        self.push(digits.format(n).as_bytes());
    }

    fn push_signed(&mut self, n: i64)
        requires { length self.old ≤ 1004 }
        ensures text { self.new ≡ self.old ++ signed_decimal n }
        ensures room { length self.new ≤ length self.old + 20 }
    {
        let mut digits = Buffer::new();
        self.push(digits.format(n).as_bytes());
    }

    fn push(&mut self, part: &[u8])
        requires { length self.old + length part.now ≤ 1024 }
        ensures text { self.new ≡ self.old ++ part.now }
        ensures room { length self.new ≡ length self.old + length part.now }
    {
        let end = self.len + part.len();
        self.bytes[self.len..end].copy_from_slice(part);
        self.len = end;
    }
}
