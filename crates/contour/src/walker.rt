// The walker: by value, and handed back by each step.
ghost use Rattle.std.specs.Prelude.{◌≡◌, ◌<◌};
ghost use Rattle.contour.specs.Walks.{back_at};
ghost use Rattle.contour.specs.Pool.{turned, stepped, noted};

use field::place::SpanIx;

// A walker stands on a span and faces one direction. It knows the id that it listed last, and where its list ends.
#[derive(Clone, Copy)]
pub struct Walker {
    pub span: SpanIx,
    pub dir: usize,
    pub last: u16,
    pub end: usize,
}

impl Walker {
    // To the next direction, on the spot.
    pub(crate) fn turn(self) -> Walker
        requires { self.dir < 4 }
        ensures { result ≡ turned self }
    {
        Walker {
            dir: (self.dir + 1) % 4,
            ..self
        }
    }

    // Across an open edge.
    pub(crate) fn step(self, to: SpanIx) -> Walker
        requires { self.dir < 4 }
        ensures { result ≡ stepped self to }
    {
        Walker {
            span: to,
            dir: (self.dir + 3) % 4,
            ..self
        }
    }

    // One more id is listed.
    pub(crate) fn note(self, r: u16) -> Walker
        requires { self.end < 18446744073709551615 }
        ensures { result ≡ noted self r }
    {
        Walker {
            last: r,
            end: self.end + 1,
            ..self
        }
    }

    // Does it stand on the span and face d?
    pub(crate) fn at(self, span: SpanIx, d: usize) -> bool
        ensures { result ≡ back_at span.0 d self.span.0 self.dir }
    {
        self.span.0 == span.0 && self.dir == d
    }
}
