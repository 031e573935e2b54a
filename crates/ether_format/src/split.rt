//! Splits a text at a byte.
ghost use Rattle.std.specs.Prelude.{◌≡◌, ◌==◌, IfNone, IfSome, false};
ghost use Rattle.std.specs.List.{All};
ghost use Rattle.ether_format.specs.Splits.{SplitsAt};

/// The parts of a text before and after the first `byte`: `vlan` and `vid` of `vlan.vid`, at a dot. Returns `None` if
/// it has no such byte.
pub fn split_at(byte: u8, text: &[u8]) -> Option<(&[u8], &[u8])>
    ensures some { IfSome result (λ parts. SplitsAt byte text.now parts.0.now parts.1.now) }
    ensures none { IfNone result (All (λ it. (it == byte) ≡ false) text.now) }
{
    match text.iter().position(|it| *it == byte) {
        Some(at) => Some((&text[..at], &text[at + 1..])),
        None => None,
    }
}
