// Bytes into a buffer; what does not fit is cut off.
ghost use Rattle.std.specs.Prelude.{[], ◌∷◌};
ghost use Rattle.lines.specs.Buffer.{Puts};

// Puts one byte at place `at`, and returns the place behind it.
pub fn byte(out: &mut [u8], at: usize, b: u8) -> usize
    ensures { Puts out.old at (b ∷ []) out.new result }
{
    if at < out.len() {
        out[at] = b;
        return at + 1;
    }
    out.len()
}

// Puts the bytes of `s` from place `at` on, and returns the place behind them.
pub fn bytes(out: &mut [u8], at: usize, s: &[u8]) -> usize
    ensures { Puts out.old at s.now out.new result }
{
    let mut end = out.len().min(at);
    for b in s {
        end = byte(out, end, *b);
    }
    end
}
