//! A file in memory.
ghost use Rattle.std.specs.Prelude.{◌≡◌, ◌≤◌, ◌++◌, length, take, vec_len};
ghost use Rattle.tim_io.specs.Pieces.{share};

/// The bytes of a file, and how many of them were taken.
#[derive(Debug, Drop)]
pub struct File {
    bytes: Vec<u8>,
    at: usize,
    ghost within: { at ≤ vec_len bytes },
}

impl File {
    ghost use Rattle.tim_io.specs.Files.{rest_of};

    /// A file of which nothing was taken.
    pub fn new(bytes: Vec<u8>) -> File
        ensures { rest_of result ≡ bytes.items }
    {
        File { bytes, at: 0 }
    }

    /// The bytes that are not yet taken.
    pub fn rest(&self) -> &[u8]
        ensures { result.now ≡ rest_of self.now }
    {
        &self.bytes.as_slice()[self.at..]
    }

    /// Gives the next bytes: at most `most`, and no more than `buf` has room for.
    pub fn give(&mut self, buf: &mut [u8], most: usize) -> usize
        ensures count { result ≡ share (length (rest_of self.old)) most (length buf.new) }
        ensures bytes { rest_of self.old ≡ take result buf.new ++ rest_of self.new }
    {
        let rest = &self.bytes.as_slice()[self.at..];
        let count = rest.len().min(most.min(buf.len()));
        buf[..count].copy_from_slice(&rest[..count]);
        self.at += count;
        count
    }
}
