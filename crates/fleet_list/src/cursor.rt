// A place in a text that is read line by line.
ghost use Rattle.std.specs.Prelude.{◌≡◌, ◌+◌, ◌^◌, ◌<◌, ◌≤◌, length, drop, slice_get, IsTrue, ◌↔◌};
ghost use Rattle.fleet_list.specs.Forms.{fault};

use train::refusal::{Part, Place, Reason, Refusal};

/// A text from the line on that is read, the place that is reached in it, and the line's number.
#[derive(Drop)]
pub struct Cursor<'a> {
    text: &'a [u8],
    at: usize,
    line: usize,
    ghost within: { at ≤ length text.now },
    ghost numbered: { line + length text.now < 2 ^ 64 },
}

impl<'a> Cursor<'a> {
    ghost use Rattle.fleet_list.specs.Cursors.{TakesOne, Exactly, IsAt};

    /// At the beginning of the first line.
    pub fn new(text: &'a [u8]) -> Cursor<'a>
        ensures text { result.text.now ≡ text.now }
        ensures at { result.at ≡ 0 }
        ensures line { result.line ≡ 1 }
    {
        Cursor {
            text,
            at: 0,
            line: 1,
        }
    }

    /// To the beginning of the next line, which begins here.
    pub fn next_line(&mut self)
        requires { 0 < self.old.at }
        ensures text { self.new.text.now ≡ drop self.old.at self.old.text.now }
        ensures at { self.new.at ≡ 0 }
        ensures line { self.new.line ≡ self.old.line + 1 }
    {
        self.text = &self.text[self.at..];
        self.at = 0;
        self.line += 1;
    }

    /// Whether the text ends here.
    pub fn is_at_end(&self) -> bool
        ensures { IsTrue result ↔ (length self.now.text.now ≤ self.now.at) }
    {
        self.at >= self.text.len()
    }

    /// The byte here, if the text goes on.
    pub fn peek(&self) -> Option<u8>
        ensures { result ≡ slice_get self.now.text.now self.now.at }
    {
        self.text.get(self.at).copied()
    }

    /// Whether this byte is here.
    pub fn is_at(&self, byte: u8) -> bool
        ensures { IsTrue result ↔ IsAt byte self.now }
    {
        self.peek() == Some(byte)
    }

    /// The refusal of a line that breaks here.
    pub fn fault(&self) -> Refusal
        ensures { result ≡ fault self.now.line (self.now.at + 1) }
    {
        Refusal {
            part: Part::Text,
            reason: Reason::LineForm,
            place: Place::InLine {
                line: self.line,
                byte: self.at + 1,
            },
        }
    }

    /// Goes past the byte here, where `f` makes a value of it.
    pub fn take<T, F: FnOnce(u8) -> Option<T>>(&mut self, f: F) -> Result<T, Refusal>
        requires { F.IsAlwaysCallable f }
        ensures { TakesOne (F.post f) self.old self.new result }
    {
        let Some(byte) = self.peek() else {
            return Err(self.fault());
        };
        let Some(value) = f(byte) else {
            return Err(self.fault());
        };
        self.at += 1;
        Ok(value)
    }

    /// Goes past this byte, where it is here.
    pub fn expect(&mut self, byte: u8) -> Result<(), Refusal>
        ensures { TakesOne (Exactly byte) self.old self.new result }
    {
        self.take(|b| (b == byte).then_some(()))
    }
}
