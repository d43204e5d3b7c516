//! The lines of a text, one after another.
ghost use Rattle.std.specs.Prelude.{◌<◌, IfSome};
ghost use Rattle.bayou_check.specs.Cut.{left_in};

use memchr::memchr;

/// The lines of a text that are left.
#[derive(Drop)]
pub(crate) struct Lines<'a> {
    /// `None` after the last line.
    rest: Option<&'a [u8]>,
    /// The number of the line before.
    number: u64,
}

/// A line and its number, from 1 on.
#[derive(Clone, Copy, Debug)]
pub(crate) struct Numbered<'a> {
    pub number: u64,
    pub bytes: &'a [u8],
}

impl<'a> Lines<'a> {
    pub(crate) fn of(text: &'a [u8]) -> Lines<'a> {
        Lines {
            rest: Some(text),
            number: 0,
        }
    }

    /// The next line, without its line feed.
    pub(crate) fn take(&mut self) -> Option<Numbered<'a>>
        ensures { IfSome result (λ line. left_in self.new.rest < left_in self.old.rest) }
    {
        let rest = self.rest?;
        let (bytes, behind) = match memchr(b'\n', rest) {
            Some(end) => (&rest[..end], Some(&rest[end + 1..])),
            None => (rest, None),
        };
        self.rest = behind;
        self.number = self.number.saturating_add(1);
        Some(Numbered {
            number: self.number,
            bytes,
        })
    }

    /// How many lines were taken.
    pub(crate) fn number(&self) -> u64 {
        self.number
    }
}

/// How many lines a text has: what stands after the last line feed counts where it isn't empty.
pub(crate) fn count_lines(text: &[u8]) -> u64 {
    let mut count: u64 = 0;
    for byte in text {
        if *byte == b'\n' {
            count = count.saturating_add(1);
        }
    }
    match text.last() {
        Some(b'\n') | None => count,
        Some(_) => count.saturating_add(1),
    }
}
