//! The lines to which a track may go past the verticals of other nets, as one window.

ghost use Rattle.greedy_column.specs.Joining.{is_clear, passes};
ghost use Rattle.greedy_column.specs.Moving.{is_within, piece_between};
ghost use Rattle.std.specs.Prelude.{◌≡◌, ◌==◌, ◌&&◌, ◌<◌, ◌^◌, ℕ, false};

use crate::span::Span;

// The lines from a lowest to a highest one, and none where the lowest lies above the highest.
#[derive(Clone, Copy, Debug)]
pub(crate) struct Window {
    pub(crate) low: u32,
    pub(crate) high: u32,
}

impl Window {
    // Whether a line lies within this window.
    pub(crate) fn has(self, line: u32) -> bool
        ensures { result ≡ is_within self line }
    {
        self.low <= line && line <= self.high
    }

    // What is left of a window for a track of a net on a line past one more vertical.
    fn narrowed(self, net: u32, line: u32, vertical: Span) -> Window
        ensures { (other : ℕ) → is_within result other ≡ (is_within self other && passes (piece_between net line other) vertical) }
    {
        if vertical.net == net {
            self
        } else {
            self.past(net, line, vertical)
        }
    }

    // The same past a vertical of another net: what lies above one that ends below the line, what lies below one that begins above
    // it, and nothing past one that covers it.
    fn past(self, net: u32, line: u32, vertical: Span) -> Window
        requires { (vertical.net == net) ≡ false }
        ensures { (other : ℕ) → is_within result other ≡ (is_within self other && passes (piece_between net line other) vertical) }
    {
        if vertical.high < line {
            if line < vertical.low {
                return self;
            }
            return Window {
                low: self.low.max(vertical.high + 1),
                high: self.high,
            };
        }
        if line < vertical.low {
            return Window {
                low: self.low,
                high: self.high.min(vertical.low - 1),
            };
        }
        Window { low: 1, high: 0 }
    }
}

// The lines to which a track of a net on a line may go past these verticals.
pub(crate) fn lines_past(spans: &[Span], net: u32, line: u32) -> Window
    ensures { (other : ℕ) → other < 2 ^ 32 → is_within result other ≡ is_clear spans.now (piece_between net line other) }
{
    let mut window = Window {
        low: 0,
        high: u32::MAX,
    };
    let mut rest = spans;
    while let Some((vertical, others)) = rest.split_first() {
        window = window.narrowed(net, line, *vertical);
        rest = others;
    }
    window
}
