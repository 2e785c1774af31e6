ghost use Rattle.std.specs.Prelude.{◌≡◌, ◌+◌, ◌≤◌, [], ◌∷◌, length, decimal};

// An output that is written from its start on, as far as `at`.
#[derive(Drop)]
pub struct Output<'a> {
    run: &'a mut [u8],
    at: usize,
    ghost within: { at ≤ length run.now },
}

impl<'a> Output<'a> {
    ghost use Rattle.decimal.specs.Outputs.{HasRoom, Puts};

    // An output of which nothing is written.
    pub fn new(run: &'a mut [u8]) -> Output<'a>
        ensures lent { result.run.ghost_name ≡ run.entry.ghost_name }
        ensures bytes { result.run.now ≡ run.old }
        ensures start { result.at ≡ 0 }
    {
        Output { run, at: 0 }
    }

    // How many bytes are written.
    pub fn written(&self) -> usize
        ensures { result ≡ self.now.at }
    {
        self.at
    }

    // How many bytes more it has room for.
    pub fn room(&self) -> usize
        ensures { self.now.at + result ≡ length self.now.run.now }
    {
        self.run.len() - self.at
    }

    // Writes a byte.
    pub fn byte(&mut self, byte: u8)
        requires { HasRoom self.old 1 }
        ensures { Puts (byte ∷ []) self.old self.new }
    {
        self.run[self.at] = byte;
        self.at += 1;
    }

    // Writes bytes.
    pub fn bytes(&mut self, bytes: &[u8])
        requires { HasRoom self.old (length bytes.now) }
        ensures { Puts bytes.now self.old self.new }
    {
        let end = self.at + bytes.len();
        self.run[self.at..end].copy_from_slice(bytes);
        self.at = end;
    }

    // Writes a number, its first digit first. By recursion, which is plainer than digits into a buffer and a copy of them.
    pub fn decimal(&mut self, n: u32)
        requires { HasRoom self.old (length (decimal n)) }
        ensures { Puts (decimal n) self.old self.new }
    {
        if n >= 10 {
            self.decimal(n / 10);
        }
        self.byte(b'0' + (n % 10) as u8);
    }
}
