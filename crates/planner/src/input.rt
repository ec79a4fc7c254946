// Standard input, line by line, in bounded memory.
use console::buffer::LineBuffer;
use std::io::{Read, Stdin};
use std::ops::Range;

// The most bytes that are read at once.
const CHUNK: usize = 4096;

// The bytes of standard input. Where reading fails, the input has ended.
#[derive(Drop)]
struct Bytes {
    source: Stdin,
    chunk: [u8; CHUNK],
    // where the bytes of the chunk stand that are still to come
    rest: Range<usize>,
}

impl Iterator for Bytes {
    type Item = u8;

    fn next(&mut self) -> Option<u8> {
        if self.rest.is_empty() {
            self.rest = 0..self.source.read(&mut self.chunk).unwrap_or(0);
        }
        let at = self.rest.next()?;
        self.chunk.get(at).copied()
    }
}

// Its lines. What stands after the last line feed is a line if it is not empty. No proof knows that
// they end, so a loop takes `usize::MAX` of them.
#[derive(Drop)]
pub struct Input {
    bytes: Bytes,
}

impl Input {
    pub(crate) fn new(source: Stdin) -> Input {
        Input {
            bytes: Bytes {
                source,
                chunk: [0; CHUNK],
                rest: 0..0,
            },
        }
    }
}

impl Iterator for Input {
    type Item = LineBuffer;

    fn next(&mut self) -> Option<LineBuffer> {
        let mut line = LineBuffer::new();
        for byte in self.bytes.by_ref().take(usize::MAX) {
            if byte == b'\n' {
                return Some(line);
            }
            line.push(byte);
        }
        (!line.is_empty()).then_some(line)
    }
}
