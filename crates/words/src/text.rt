// Reading text.
ghost use Rattle.std.specs.Prelude.{◌≡◌, ◌≢◌, ◌∷◌, ◌++◌, IfSome, IsNone, All};

// What stands before the first such byte, and what behind it.
pub fn split_once(text: &[u8], byte: u8) -> Option<(&[u8], &[u8])>
    ensures joined { IfSome result (λ halves. text.now ≡ halves.0.now ++ byte ∷ halves.1.now) }
    ensures first { IfSome result (λ halves. All (λ x. x ≢ byte) halves.0.now) }
    ensures none { IsNone result → All (λ x. x ≢ byte) text.now }
{
    let at = text.iter().position(|x| *x == byte)?;
    Some((&text[..at], &text[at + 1..]))
}
