// Lines of words and numbers.
ghost use Rattle.std.specs.Prelude.{◌≡◌, ◌≤◌, ◌++◌, codes, decimal, length};
ghost use Rattle.sg_timeline.specs.Timeline.{one_line, two_line};

use sg_text::Text;

// A line as it is.
pub(crate) fn line(words: &[u8]) -> Text
    requires { length words.now ≤ 64 }
    ensures { result ≡ words.now }
{
    let mut line = Text::new();
    line.push(words);
    line
}

// A line of words and a number.
pub(crate) fn one(words: &[u8], number: u64) -> Text
    requires { length words.now ≤ 64 }
    ensures { result ≡ one_line words.now number }
{
    let mut line = line(words);
    line.push_number(number);
    line.push(b"\n");
    line
}

// A line of words and two numbers.
pub(crate) fn two(words: &[u8], first: u64, second: u64) -> Text
    requires { length words.now ≤ 64 }
    ensures { result ≡ two_line words.now first second }
{
    let mut line = line(words);
    line.push_number(first);
    line.push(b" ");
    line.push_number(second);
    line.push(b"\n");
    line
}
