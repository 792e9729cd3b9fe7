// What the bytes of a verdict go into: a count of them, or a lent buffer.
ghost use Rattle.std.specs.Prelude.{ℕ, List, ◌+◌, ◌≤◌, ◌≡◌, length};
ghost use Rattle.comparing.specs.Sinks.{SinkLaws, counted, count_end, count_laws, written, lent_end, lent_laws};

pub(crate) trait Sink {
    // What it is once these bytes are put into it, at which place it stands, and which place it does not pass.
    ghost after: { Self → List ℕ → Self };

    ghost place: { Self → ℕ };

    ghost end: { Self → ℕ };

    fn put(&mut self, piece: &[u8])
        requires { place self.old + length piece.now ≤ end self.old }
        ensures { self.new ≡ after self.old piece.now };

    fn at(&self) -> usize
        ensures { result ≡ place self.now };

    ghost laws: { SinkLaws after place end };
}

// How many bytes were put.
#[derive(Drop)]
pub(crate) struct Count {
    pub(crate) at: usize,
}

impl Sink for Count {
    ghost after = { counted };

    ghost place = { λ c. c.at };

    ghost end = { count_end };

    ghost laws = { count_laws };

    fn put(&mut self, piece: &[u8]) {
        self.at += piece.len();
    }

    fn at(&self) -> usize {
        self.at
    }
}

// A buffer that is written from its front on.
#[derive(Drop)]
pub(crate) struct Lent<'a> {
    pub(crate) out: &'a mut [u8],
    pub(crate) at: usize,
}

impl Sink for Lent<'_> {
    ghost after = { written };

    ghost place = { λ l. l.at };

    ghost end = { lent_end };

    ghost laws = { lent_laws };

    fn put(&mut self, piece: &[u8]) {
        let end = self.at + piece.len();
        self.out[self.at..end].copy_from_slice(piece);
        self.at = end;
    }

    fn at(&self) -> usize {
        self.at
    }
}
