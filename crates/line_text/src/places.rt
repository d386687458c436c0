// Places in a text: the first byte that a test takes; and what a blank is. Serves the words and the lines.
ghost use Rattle.std.specs.Prelude.{◌≡◌, true, false, ◌≤◌, ◌<◌, length};
ghost use Rattle.std.specs.List.{AllWithin, HoldsAt};

// A blank: no byte above 32 is one.
pub fn is_space(b: u8) -> bool
    ensures { 33 ≤ b → result ≡ false }
{
    matches!(b, b' ' | b'\t' | b'\r')
}

// The place of the first byte that passes, or the end. No Option: each of the three callers splits a text there, and would turn None into its end.
pub fn first<F: Fn(u8) -> bool>(text: &[u8], passes: F) -> usize
    requires { F.IsAlwaysCallable passes }
    ensures within { result ≤ length text.now }
    ensures before { AllWithin (λ b. F.post passes b false) text.now 0 result }
    ensures found { result < length text.now → HoldsAt (λ b. F.post passes b true) text.now result }
{
    text.iter().position(|b| passes(*b)).unwrap_or(text.len())
}
