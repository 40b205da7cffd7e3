// The writer of texts, and bytes written.
ghost use Rattle.std.specs.Prelude.{[], ◌∷◌};
ghost use Rattle.transcript_fields.specs.Writers.{HasRoom, Wrote};

// A lent buffer, and the byte where the next text begins.
#[derive(Drop)]
pub struct Writer<'a> {
    pub out: &'a mut [u8],
    pub at: usize,
}

impl Writer<'_> {
    pub fn byte(&mut self, byte: u8)
        requires { HasRoom self.old (byte ∷ []) }
        ensures { Wrote self.old (byte ∷ []) self.new }
    {
        self.out[self.at] = byte;
        self.at += 1;
    }

    pub fn bytes(&mut self, text: &[u8])
        requires { HasRoom self.old text.now }
        ensures { Wrote self.old text.now self.new }
    {
        let end = self.at + text.len();
        self.out[self.at..end].copy_from_slice(text);
        self.at = end;
    }
}
