//! Bytes that are kept, as long as there is memory for all of them.

ghost use Rattle.std.specs.Prelude.{◌≡◌, ◌++◌, IfSome, IsSome};

/// The bytes that are kept, with these behind them. None are kept if there is no memory for all.
pub fn kept_with(kept: Option<Vec<u8>>, more: &[u8]) -> Option<Vec<u8>>
    ensures longer { IfSome result (λ longer. IfSome kept (λ bytes. longer.items ≡ bytes.items ++ more.now)) }
    ensures some { IsSome result → IsSome kept }
{
    let mut bytes = kept?;
    bytes.extend_from_slice(more).ok()?;
    Some(bytes)
}
