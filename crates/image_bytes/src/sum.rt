// The sum of a body's words.
ghost use Rattle.std.specs.Prelude.{◌≡◌};
ghost use Rattle.image_bytes.specs.Sum.{word_sum};

// The words of a body added up, wrapping at 65,536; a single byte at its end is no word.
pub(crate) fn word_sum(body: &[u8]) -> u16
    ensures { result ≡ word_sum body.now }
{
    let (words, _) = body.as_chunks::<2>();
    words.iter().fold(0u16, |total, word| {
        total.wrapping_add(u16::from_le_bytes(*word))
    })
}
