//! Why a command ends without having done its work.

ghost use Rattle.std.specs.Prelude.{◌≡◌, ◌≢◌, ◌≤◌, length};

use sg_base::Key;
use sg_text::Text;

/// Why a command ends without having done its work.
#[derive(Clone, Copy, Debug, PartialEq, Eq)]
pub enum Stop {
    /// The input has more bytes than it may have.
    TooLong,
    /// A line of the input, counted from 1, isn't of its form.
    Line(u64),
    /// The source failed.
    Read,
    /// Memory ran out.
    Memory,
    /// The keeper failed.
    Keeper,
    /// The first row by key that may not be kept.
    BadRow(Key),
}

impl Stop {
    ghost use Rattle.sg_endings.specs.Stops.{status_of, text_of};

    /// The status that the command answers.
    pub fn status(self) -> u8
        ensures value { result ≡ status_of self }
        ensures other { result ≢ 5 }
    {
        match self {
            Stop::TooLong | Stop::Line(_) => 3,
            Stop::Read => 4,
            Stop::Memory => 9,
            Stop::Keeper => 12,
            Stop::BadRow(_) => 15,
        }
    }

    /// The line that the command writes last.
    #[tactic(auto, unfolding(crate::specs::Texts::too_long, crate::specs::Texts::read_fault, crate::specs::Texts::memory_fault, crate::specs::Texts::keeper_fault))]
    pub fn text(self) -> Text
        ensures { result ≡ text_of self }
    {
        match self {
            Stop::TooLong => fixed(b"input: too long\n"),
            Stop::Line(number) => bad_line(number),
            Stop::Read => fixed(b"fault: read\n"),
            Stop::Memory => fixed(b"fault: memory\n"),
            Stop::Keeper => fixed(b"fault: keeper\n"),
            Stop::BadRow(key) => bad_row(key),
        }
    }
}

ghost use Rattle.sg_endings.specs.Texts.{bad_line, bad_row};

fn fixed(bytes: &[u8]) -> Text
    requires { length bytes.now ≤ 128 }
    ensures { result ≡ bytes.now }
{
    let mut text = Text::new();
    text.push(bytes);
    text
}

#[tactic(auto, unfolding(crate::specs::Texts::bad_line))]
fn bad_line(number: u64) -> Text
    ensures { result ≡ bad_line number }
{
    let mut text = Text::new();
    text.push(b"input: line ");
    text.push_number(number);
    text.push(b"\n");
    text
}

#[tactic(auto, unfolding(crate::specs::Texts::bad_row))]
fn bad_row(key: Key) -> Text
    ensures { result ≡ bad_row key }
{
    let mut text = Text::new();
    text.push(b"rows: bad ");
    text.push_number(u64::from(key.kind));
    text.push(b" ");
    text.push_number(key.a);
    text.push(b" ");
    text.push_number(key.b);
    text.push(b"\n");
    text
}
