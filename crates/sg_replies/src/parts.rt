//! Bodies from their parts, in fixed room. What stands between the parts is text as it is.

ghost use Rattle.std.specs.Prelude.{◌≡◌, ◌+◌, ◌≤◌, ◌++◌, decimal, length};
ghost use Rattle.sg_text.specs.declared.text.TheConstants.{TEXT_ROOM};

use sg_text::Text;

/// Three texts in a row.
pub(crate) fn text_between(before: &[u8], part: &[u8], after: &[u8]) -> Text
    requires { length before.now + length part.now + length after.now ≤ TEXT_ROOM }
    ensures { result ≡ before.now ++ (part.now ++ after.now) }
{
    let mut text = Text::new();
    text.push(before);
    text.push(part);
    text.push(after);
    text
}

/// A number between two texts.
pub(crate) fn number_between(before: &[u8], number: u64, after: &[u8]) -> Text
    requires { length before.now + length after.now + 20 ≤ TEXT_ROOM }
    ensures text { result ≡ before.now ++ (decimal number ++ after.now) }
    ensures room { length result ≤ length before.now + length after.now + 20 }
{
    let mut text = Text::new();
    text.push(before);
    text.push_number(number);
    text.push(after);
    text
}

/// A number of 32 bits between two texts.
pub(crate) fn number(before: &[u8], number: u32, after: &[u8]) -> Text
    requires { length before.now + length after.now ≤ 100 }
    ensures { result ≡ before.now ++ (decimal number ++ after.now) }
{
    number_between(before, u64::from(number), after)
}
