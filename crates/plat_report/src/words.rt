//! The lines of the words whose final value is not 0.
ghost use Rattle.std.specs.Prelude.{◌≡◌, ◌<◌};
ghost use Rattle.plat_base.specs.Report.{word_lines_of};
ghost use Rattle.plat_io.specs.Lines.{AddsLines};
ghost use Rattle.plat_report.specs.Flats.{flat_lines, flat_page_lines};

use plat_flat::Flat;
use plat_io::lines::{Word, write_line};
use plat_io::{Sink, WriteFault};

/// Writes the lines of the words of all pages.
pub(crate) fn write_words<K: Sink>(
    pages: u32,
    words: u32,
    flat: &Flat,
    sink: &mut K,
) -> Result<(), WriteFault>
    requires pages { flat.now.pages ≡ pages }
    requires words { flat.now.words ≡ words }
    ensures { AddsLines K.Sink sink.old sink.new result (flat_lines flat.now) }
{
    for page in 0..pages {
        write_page(page, words, flat, sink)?;
    }
    Ok(())
}

fn write_page<K: Sink>(page: u32, words: u32, flat: &Flat, sink: &mut K) -> Result<(), WriteFault>
    requires page { page < flat.now.pages }
    requires words { flat.now.words ≡ words }
    ensures { AddsLines K.Sink sink.old sink.new result (flat_page_lines flat.now page) }
{
    for word in 0..words {
        write_word_of(page, word, flat.value(page, word), sink)?;
    }
    Ok(())
}

/// Writes the line of a word, where its value is not 0.
#[tactic(auto, using(plat_io::proofs::LineLemmas::lines))]
fn write_word_of<K: Sink>(page: u32, word: u32, value: u32, sink: &mut K) -> Result<(), WriteFault>
    ensures { AddsLines K.Sink sink.old sink.new result (word_lines_of page word value) }
{
    if value == 0 {
        return Ok(());
    }
    write_line(
        sink,
        &[
            Word::Text(b"word"),
            Word::Number(page),
            Word::Number(word),
            Word::Number(value),
        ],
    )
}
