// A line as it comes in. Only its first 65 bytes are kept: they tell what the line is.
ghost use Rattle.std.specs.Prelude.{◌≡◌, ◌<◌, ◌≤◌, [], ◌∷◌, ◌++◌, length, take, ◌==◌};
ghost use Rattle.arrayvec.specs.ArrayVec.{array_vec_len};

use arrayvec::ArrayVec;

#[derive(Drop)]
pub struct LineBuffer {
    bytes: ArrayVec<u8, 65>,
    ghost few: { array_vec_len bytes ≤ 65 },
}

impl LineBuffer {
    // Not at the head of the file, since the struct's ghost field reads what stands there.
    ghost use Rattle.console.specs.Content.{content};

    pub fn new() -> LineBuffer
        ensures { content result ≡ [] }
    {
        LineBuffer {
            bytes: ArrayVec::new(),
        }
    }

    pub fn push(&mut self, byte: u8)
        ensures { content self.new ≡ take 65 (content self.old ++ (byte ∷ [])) }
    {
        if !self.bytes.is_full() {
            self.put(byte);
        }
    }

    // There is room. Apart, so that a wrong byte is refused here.
    fn put(&mut self, byte: u8)
        requires { length (content self.old) < 65 }
        ensures { content self.new ≡ content self.old ++ (byte ∷ []) }
    {
        self.bytes.push(byte);
    }

    pub fn clear(&mut self)
        ensures { content self.new ≡ [] }
    {
        self.bytes.clear();
    }

    pub fn is_empty(&self) -> bool
        ensures { result ≡ (length (content self.now) == 0) }
    {
        self.bytes.is_empty()
    }

    pub fn line(&self) -> &[u8]
        ensures { result.now ≡ content self.now }
    {
        &self.bytes
    }
}
