//! A text in memory as a source.
ghost use Rattle.std.specs.Prelude.{Some};

use qh_io::{Failed, Source};

/// What is left of a text. No read of it fails, so its count of faults is 0.
#[derive(Drop)]
pub(crate) struct TextSource<'a> {
    pub(crate) left: &'a [u8],
}

impl<'a> Source for TextSource<'a> {
    ghost left = { λ s. Some s.left.now };

    ghost faults = { λ _. 0 };

    fn read(&mut self, buf: &mut [u8]) -> Result<usize, Failed> {
        let count = self.left.len().min(buf.len());
        let (front, rest) = self.left.split_at(count);
        buf[..count].copy_from_slice(front);
        self.left = rest;
        Ok(count)
    }
}
