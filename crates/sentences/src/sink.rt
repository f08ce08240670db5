// Where a text goes: it is counted, or written.
ghost use Rattle.std.specs.Prelude.{ℕ, List};
ghost use Rattle.sentences.specs.Pieces.{SinkLaws};

pub trait Sink {
    // A text fits.
    ghost fits: { Self → List ℕ → Type 0 };

    // The second is the first after it took a text.
    ghost took: { Self → List ℕ → Self → Type 0 };

    fn put(&mut self, s: &[u8])
        requires { fits self.old s.now }
        ensures { took self.old s.now self.new };

    // Text after text is one text.
    ghost laws: { SinkLaws fits took };
}

// How long a text is so far, modulo 2 ^ 64.
#[derive(Clone, Copy)]
pub struct Length(pub usize);

impl Sink for Length {
    ghost use Rattle.sentences.specs.Sinks.{any_fits, counted, counted_laws};

    ghost fits = { any_fits };

    ghost took = { counted };

    ghost laws = { counted_laws };

    fn put(&mut self, s: &[u8]) {
        self.0 = self.0.wrapping_add(s.len());
    }
}

// An output whose unwritten rest starts at a place.
#[derive(Drop)]
pub struct Rest<'a> {
    pub out: &'a mut [u8],
    pub at: usize,
}

impl Sink for Rest<'_> {
    ghost use Rattle.sentences.specs.Sinks.{fits_behind, put_behind, put_laws};

    ghost fits = { fits_behind };

    ghost took = { put_behind };

    ghost laws = { put_laws };

    fn put(&mut self, s: &[u8]) {
        output::put_bytes(&mut self.out[self.at..], s);
        self.at += s.len();
    }
}
