ghost use Rattle.std.specs.Prelude.{◌≡◌, ◌&&◌, nat_le, length};
ghost use Rattle.std.specs.List.{list_all};
ghost use Rattle.rc_base.specs.Names as words;

/// Whether it is a name: 1 to 64 of the letters `a` to `z`, `0` to `9`, `_` and `-`. A script and a record take the same.
pub fn is_name(text: &[u8]) -> bool
    ensures { result ≡ words.is_name text.now }
{
    is_of_name_length(text) && has_name_letters(text)
}

fn is_of_name_length(text: &[u8]) -> bool
    ensures { result ≡ (nat_le 1 (length text.now) && nat_le (length text.now) 64) }
{
    !text.is_empty() && text.len() <= 64
}

fn has_name_letters(text: &[u8]) -> bool
    ensures { result ≡ list_all words.is_name_letter text.now }
{
    text.iter().all(|letter| is_name_letter(*letter))
}

fn is_name_letter(letter: u8) -> bool
    ensures { result ≡ words.is_name_letter letter }
{
    matches!(letter, b'a'..=b'z' | b'0'..=b'9' | b'_' | b'-')
}
