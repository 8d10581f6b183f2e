//! Texts in two parts, about a mark.

ghost use Rattle.std.specs.Prelude.{◌≡◌, ◌<◌, ◌==◌};
ghost use Rattle.std.specs.List.{after_first, before_first};

/// What stands before the first mark, an ASCII character, and after it; without one all, and nothing.
pub(crate) fn parts(text: &str, mark: char) -> (&str, &str)
    requires { mark < 128 }
    ensures front { result.0.now ≡ before_first (λ b. b == mark) text.now }
    ensures rest { result.1.now ≡ after_first (λ b. b == mark) text.now }
{
    match text.split_once(mark) {
        Some((front, rest)) => (front, rest),
        None => (text, ""),
    }
}
