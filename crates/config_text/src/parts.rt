// A list of bytes, parted at a byte.
ghost use Rattle.std.specs.Prelude.{◌≡◌, ◌∷◌, [], ◌==◌, IfSome, IfNone, length, ◌+◌, ◌<◌, ◌^◌};
ghost use Rattle.std.specs.List.{slice_split};

/// The bytes before the first separator, and those behind it if there is one.
pub fn split_once(bytes: &[u8], separator: u8) -> (&[u8], Option<&[u8]>)
    ensures some { IfSome result.1 (λ rest. slice_split (λ b. b == separator) bytes.now
        ≡ result.0.now ∷ slice_split (λ b. b == separator) rest.now) }
    ensures none { IfNone result.1 (slice_split (λ b. b == separator) bytes.now ≡ bytes.now ∷ []) }
    ensures all { IfNone result.1 (result.0.now ≡ bytes.now) }
{
    match bytes.iter().position(|b| *b == separator) {
        Some(i) => (&bytes[..i], Some(&bytes[i + 1..])),
        None => (bytes, None),
    }
}

/// How many separators there are: one fewer than parts.
pub fn count_of(bytes: &[u8], separator: u8) -> usize
    ensures parts { result + 1 ≡ length (slice_split (λ b. b == separator) bytes.now) }
    ensures small { result < 2 ^ 63 }
{
    let mut count = 0;
    for b in bytes {
        if *b == separator {
            count += 1;
        }
    }
    count
}
