//! Directories and translations as single words, as they are written.
ghost use Rattle.std.specs.Prelude.{◌≡◌, ◌∷◌, ◌++◌};
ghost use Rattle.std.specs.Fmt.{decimal};
ghost use Rattle.plat_io.specs.Adds.{Adds};
ghost use Rattle.plat_grammar.specs.HistoryCanon.{point, frame_word, translation_word, grant_word, copies_part, dir_word};

use crate::written_names::{head_word, right_word};
use itoa::Buffer;
use plat_base::{Copies, Dir, Frame, Grant, Right};
use plat_io::lines::write_word;
use plat_io::{Sink, Word, WriteFault, write_all};

/// Writes a space and a number that may be as large as a length.
#[tactic(auto, using(plat_io::proofs::Pieces::pieces))]
pub fn write_next_size<K: Sink>(sink: &mut K, n: usize) -> Result<(), WriteFault>
    ensures { Adds K.Sink sink.old sink.new result (32 ∷ decimal n) }
{
    write_all(sink, b" ")?;
    write_all(sink, Buffer::new().format(n).as_bytes())
}

/// Writes a mark and a frame.
#[tactic(auto, using(plat_io::proofs::Pieces::pieces))]
fn write_copy<K: Sink>(sink: &mut K, mark: u8, frame: Frame) -> Result<(), WriteFault>
    ensures { Adds K.Sink sink.old sink.new result (mark ∷ frame_word frame) }
{
    write_word(sink, Word::Lettered(mark, frame.module))?;
    write_word(sink, Word::Lettered(b'.', frame.number))
}

/// Writes the copies of a directory, if there are any: a colon and their frames, with commas between them.
#[tactic(auto, using(plat_io::proofs::Pieces::pieces))]
fn write_copies<K: Sink>(sink: &mut K, copies: Copies) -> Result<(), WriteFault>
    ensures { Adds K.Sink sink.old sink.new result (copies_part copies) }
{
    let _count = copies.count();
    let mut mark = b':';
    for node in 0..8 {
        if let Some(frame) = copies.on(node) {
            write_copy(sink, mark, frame)?;
            mark = b',';
        }
    }
    Ok(())
}

/// Writes a directory after a space.
#[tactic(auto, using(plat_io::proofs::Pieces::pieces))]
pub fn write_next_dir<K: Sink>(sink: &mut K, dir: Dir) -> Result<(), WriteFault>
    ensures { Adds K.Sink sink.old sink.new result (32 ∷ dir_word dir) }
{
    write_all(sink, b" ")?;
    write_all(sink, head_word(dir.state, dir.frozen))?;
    write_copies(sink, dir.copies)
}

#[tactic(auto, using(plat_io::proofs::Pieces::pieces))]
fn write_translation<K: Sink>(sink: &mut K, grant: Grant) -> Result<(), WriteFault>
    ensures { Adds K.Sink sink.old sink.new result (translation_word grant) }
{
    write_word(sink, Word::Number(grant.entry))?;
    write_copy(sink, b'.', grant.frame)?;
    write_all(sink, b".")?;
    write_all(sink, right_word(grant.right))
}

fn write_granted<K: Sink>(sink: &mut K, granted: Option<Grant>) -> Result<(), WriteFault>
    ensures { Adds K.Sink sink.old sink.new result (grant_word granted) }
{
    match granted {
        None => write_all(sink, b"none"),
        Some(grant) => write_translation(sink, grant),
    }
}

/// Writes what a change grants, after a space.
#[tactic(auto, using(plat_io::proofs::Pieces::pieces))]
pub fn write_next_granted<K: Sink>(sink: &mut K, granted: Option<Grant>) -> Result<(), WriteFault>
    ensures { Adds K.Sink sink.old sink.new result (32 ∷ grant_word granted) }
{
    write_all(sink, b" ")?;
    write_granted(sink, granted)
}
