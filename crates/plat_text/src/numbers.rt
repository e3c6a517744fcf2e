//! Numbers as words.
ghost use Rattle.std.specs.Prelude.{◌≡◌, ◌+◌, ◌*◌, ◌<◌, ◌^◌, IsTrue, SomeIff};
ghost use Rattle.std.specs.List.{list_all};
ghost use Rattle.std.specs.Char.{is_ascii_digit, digit_value};
ghost use Rattle.plat_grammar.specs.Lines.{number_of, is_spelling};

use plat_base::Why;

fn all_digits(word: &[u8]) -> bool
    ensures { result ≡ list_all is_ascii_digit word.now }
{
    word.iter().all(|b| b.is_ascii_digit())
}

fn is_number(word: &[u8]) -> bool
    ensures { result ≡ is_spelling word.now }
{
    !word.is_empty() && all_digits(word) && (word.len() == 1 || word[0] != b'0')
}

fn with_digit(value: u32, digit: u8) -> Option<u32>
    requires { IsTrue (is_ascii_digit digit) }
    ensures { SomeIff result (value * 10 + digit_value digit < 2 ^ 32) (value * 10 + digit_value digit) }
{
    value.checked_mul(10)?.checked_add(u32::from(digit - b'0'))
}

/// The number that a word spells in decimal, `0` or without a leading zero: `NotNumber` for any other word, and `TooLarge`
/// for a number above 4,294,967,295.
#[tactic(auto, unfolding(plat_grammar::specs::Lines::number_of))]
pub fn read_u32(word: &[u8]) -> Result<u32, Why>
    ensures { result ≡ number_of word.now }
{
    if !is_number(word) {
        return Err(Why::NotNumber);
    }
    let mut value = 0;
    for digit in word {
        match with_digit(value, *digit) {
            Some(more) => value = more,
            None => return Err(Why::TooLarge),
        }
    }
    Ok(value)
}
