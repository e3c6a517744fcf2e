//! Lines of words, written to a sink.
ghost use Rattle.std.specs.Prelude.{◌∷◌, [], ◌++◌, ◌≡◌, ◌<◌, map, length};
ghost use Rattle.std.specs.List.{flat_map};
ghost use Rattle.std.specs.Fmt.{decimal};
ghost use Rattle.plat_base.specs.Text.{line_bytes};
ghost use Rattle.plat_io.specs.Adds.{Adds};
ghost use Rattle.plat_io.specs.Lines.{spelling, AddsLines};

use crate::faults::WriteFault;
use crate::sinks::Sink;
use crate::writing::write_all;
use itoa::Buffer;

/// One word of a line: a text without spaces, a number, or a letter and a number, as `r5`.
#[derive(Clone, Copy)]
pub enum Word<'a> {
    Text(&'a [u8]),
    Number(u32),
    Lettered(u8, u32),
}

/// Writes a word, as the first of a line.
#[tactic(auto, using(crate::proofs::Pieces::pieces))]
pub fn write_word<K: Sink>(sink: &mut K, word: Word<'_>) -> Result<(), WriteFault>
    ensures { Adds K.Sink sink.old sink.new result (spelling word.entry) }
{
    match word {
        Word::Text(bytes) => write_all(sink, bytes),
        Word::Number(n) => write_number(sink, n),
        Word::Lettered(letter, n) => {
            write_all(sink, &[letter])?;
            write_number(sink, n)
        }
    }
}

fn write_number<K: Sink>(sink: &mut K, n: u32) -> Result<(), WriteFault>
    ensures { Adds K.Sink sink.old sink.new result (decimal n) }
{
    write_all(sink, Buffer::new().format(n).as_bytes())
}

/// Writes a further word of a line, after a space.
#[tactic(auto, using(crate::proofs::Pieces::pieces))]
pub fn write_next_word<K: Sink>(sink: &mut K, word: Word<'_>) -> Result<(), WriteFault>
    ensures { Adds K.Sink sink.old sink.new result (32 ∷ spelling word.entry) }
{
    write_all(sink, b" ")?;
    write_word(sink, word)
}

/// Ends a line.
pub fn end_line<K: Sink>(sink: &mut K) -> Result<(), WriteFault>
    ensures { Adds K.Sink sink.old sink.new result (10 ∷ []) }
{
    write_all(sink, b"\n")
}

/// Writes a line: its words with single spaces between them, and a line feed.
#[tactic(auto, using(crate::proofs::LineLemmas::written_lines))]
pub fn write_line<K: Sink>(sink: &mut K, words: &[Word<'_>]) -> Result<(), WriteFault>
    ensures { AddsLines K.Sink sink.old sink.new result (map spelling words.now ∷ []) }
{
    write_words(sink, words, &[])
}

/// Writes a line of words, and after them numbers.
#[tactic(auto, using(crate::proofs::LineLemmas::written_lines))]
pub fn write_list_line<K: Sink>(
    sink: &mut K,
    words: &[Word<'_>],
    numbers: &[u32],
) -> Result<(), WriteFault>
    requires { 0 < length words.now }
    ensures { AddsLines K.Sink sink.old sink.new result
        ((map spelling words.now ++ map decimal numbers.now) ∷ []) }
{
    write_words(sink, words, numbers)
}

#[tactic(auto, using(crate::proofs::LineLemmas::words_of_a_line))]
fn write_words<K: Sink>(sink: &mut K, words: &[Word<'_>], numbers: &[u32]) -> Result<(), WriteFault>
    requires { length words.now ≡ 0 → length numbers.now ≡ 0 }
    ensures { Adds K.Sink sink.old sink.new result
        (line_bytes (map spelling words.now ++ map decimal numbers.now)) }
{
    match words.split_first() {
        None => end_line(sink),
        Some((first, rest)) => {
            write_word(sink, *first)?;
            write_next_words(sink, rest)?;
            write_next_numbers(sink, numbers)?;
            end_line(sink)
        }
    }
}

/// Writes further words of a line, each after a space.
#[tactic(auto, using(crate::proofs::Pieces::loops))]
pub fn write_next_words<K: Sink>(sink: &mut K, words: &[Word<'_>]) -> Result<(), WriteFault>
    ensures { Adds K.Sink sink.old sink.new result (flat_map (λ word. 32 ∷ spelling word) words.now) }
{
    for word in words {
        write_next_word(sink, *word)?;
    }
    Ok(())
}

/// Writes numbers as further words of a line, each after a space.
#[tactic(auto, using(crate::proofs::Pieces::loops))]
pub fn write_next_numbers<K: Sink>(sink: &mut K, numbers: &[u32]) -> Result<(), WriteFault>
    ensures { Adds K.Sink sink.old sink.new result (flat_map (λ n. 32 ∷ decimal n) numbers.now) }
{
    for n in numbers {
        write_next_word(sink, Word::Number(*n))?;
    }
    Ok(())
}
