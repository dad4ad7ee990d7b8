ghost use Rattle.std.specs.Prelude.{◌≡◌};
ghost use Rattle.log_records.specs.Spelling as words;

/// Whether it is a key: 1 to 128 bytes.
pub fn is_key(text: &[u8]) -> bool
    ensures { result ≡ words.is_key text.now }
{
    !text.is_empty() && text.len() <= 128
}

/// Whether it is a value: at most 1,024 bytes.
pub fn is_value(text: &[u8]) -> bool
    ensures { result ≡ words.is_value text.now }
{
    text.len() <= 1024
}
