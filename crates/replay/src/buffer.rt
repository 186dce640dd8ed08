//! Bytes on their way out, which are written when more would not fit any more, or when it is asked for.
use std::io::Write;

// Where the bytes go, and the first `len` of them, which are not written out yet.
#[derive(Drop)]
pub struct Buffer<W: Write, const N: usize> {
    to: W,
    bytes: [u8; N],
    len: usize,
}

impl<W: Write, const N: usize> Buffer<W, N> {
    pub fn new(to: W) -> Buffer<W, N> {
        Buffer {
            to,
            bytes: [0; N],
            len: 0,
        }
    }

    // Writes out what the buffer has. A failed write is passed over.
    pub fn flush(&mut self) {
        if let Some(bytes) = self.bytes.get(..self.len) {
            let _ = self.to.write_all(bytes);
        }
        self.len = 0;
    }

    // Room for so many bytes, if the buffer is that long.
    pub fn reserve(&mut self, len: usize) {
        if !self.has_room(len) {
            self.flush();
        }
    }

    pub fn has_room(&self, len: usize) -> bool {
        len <= self.bytes.len() - self.len.min(self.bytes.len())
    }

    // A word. None is longer than the buffer.
    pub fn put(&mut self, word: &[u8]) {
        self.reserve(word.len());
        let bytes = &mut self.bytes[..];
        let start = self.len.min(bytes.len());
        let fits = word.len().min(bytes.len() - start);
        bytes[start..start + fits].copy_from_slice(&word[..fits]);
        self.len = start + fits;
    }

    // A space and a number.
    pub fn number(&mut self, n: u64) {
        let mut word = [0; 32];
        let end = text::put_number(&mut word, 0, n);
        self.put(&word[..end]);
    }
}
