// A buffer that is filled from its front.
ghost use Rattle.std.specs.Prelude.{◌≡◌};
ghost use Rattle.fields.specs.Output.{Writes};

// A buffer, and how many of its bytes are written. What does not fit is left out.
#[derive(Drop)]
pub struct Output<'a> {
    pub buffer: &'a mut [u8],
    pub at: usize,
}

impl<'a> Output<'a> {
    // Nothing is written yet.
    pub fn new(buffer: &'a mut [u8]) -> Output<'a>
        ensures same { result.buffer.ghost_name ≡ buffer.entry.ghost_name }
        ensures bytes { result.buffer.now ≡ buffer.old }
        ensures at { result.at ≡ 0 }
    {
        Output { buffer, at: 0 }
    }

    // Writes the bytes behind those that are written.
    pub fn put(&mut self, bytes: &[u8])
        ensures { Writes self.old self.new bytes.now }
    {
        let n = bytes.len().min(self.buffer.len().saturating_sub(self.at));
        if n > 0 {
            self.buffer[self.at..self.at + n].copy_from_slice(&bytes[..n]);
            self.at += n;
        }
    }
}
