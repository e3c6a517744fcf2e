//! Whole machine texts.
ghost use Rattle.std.specs.Prelude.{◌≡◌, ◌+◌, ◌<◌, length, IfOk, IsTrue, ℕ, Ok};
ghost use Rattle.std.specs.List.{list_all};
ghost use Rattle.plat_base.specs.Machine.{Machine, is_program, programs_seen};
ghost use Rattle.plat_base.specs.Seen.{machine};
ghost use Rattle.plat_base.specs.Canon.{is_short};
ghost use Rattle.plat_grammar.specs.Forms.{Reads, Gives};
ghost use Rattle.plat_grammar.specs.FirstFault.{front_at, end_line, machine_at, text_at, text_from};
ghost use Rattle.plat_grammar.specs.Grammar.{IsMachine, IsTextOf, IsFrontOf};
ghost use Rattle.plat_machine.specs.Shown.{front};

use crate::guests::guests;
use crate::headers::{Header, read_header};
use crate::lists::{distances, entries, inits};
use crate::printing::write_front;
use plat_base::{
    Config, Distance, Entries, GuestText, Init, List, OutOfMemory, Refused, TextFault, Why,
};
use plat_io::QuietSink;
use plat_text::{Rows, refusal};
use std::alloc::Global;

/// The most bytes that a machine text can have.
const MOST_BYTES: usize = 1_048_576;

/// What stands before the line `end` of a machine text.
#[derive(Debug, Drop)]
pub struct Front {
    pub header: Header,
    pub distances: List<Distance>,
    pub entries: Entries,
    pub inits: List<Init>,
    pub guests: List<GuestText>,
}

#[tactic(auto, unfolding(plat_grammar::specs::FirstFault::front_at))]
fn read_front(alloc: Global, rows: &mut Rows<'_>) -> Result<Front, TextFault>
    ensures { Gives (λ f. (front f, rows.new)) result (front_at rows.old) }
{
    let header = read_header(alloc, rows)?;
    let distances = distances(alloc, rows, header.nodes)?;
    let entries = entries(alloc, rows, header.pages)?;
    let inits = inits(alloc, rows, header.pages, header.words)?;
    let guests = guests(alloc, rows, header.nodes)?;
    Ok(Front {
        header,
        distances,
        entries,
        inits,
        guests,
    })
}

#[tactic(auto, unfolding(plat_grammar::specs::FirstFault::end_line))]
fn end(rows: &mut Rows<'_>, short: bool) -> Result<u32, Refused>
    ensures { Reads (λ next. (next, rows.new)) result (end_line short rows.old) }
{
    let mut row = rows.next_row()?;
    let line = row.line();
    let found = row.next_word()?;
    if found.bytes != b"end".as_slice() {
        return Err(refusal(line, found, Why::Expected));
    }
    if !short {
        return Err(refusal(line, found, Why::TooMany));
    }
    row.finish()?;
    Ok(line + 1)
}

/// Whether the canonical text of what was read is short enough. It is written to memory, up to one byte more than that.
fn has_short_text(alloc: Global, read: &Front) -> Result<bool, OutOfMemory>
    requires { IsTrue (list_all is_program (programs_seen read.now.guests.items)) }
    ensures { IfOk result (λ short. short ≡ is_short (front read.now)) }
{
    let mut text = QuietSink::new(alloc, MOST_BYTES + 1)?;
    match write_front(&mut text, read) {
        Ok(()) => Ok(text.bytes().len() <= MOST_BYTES),
        Err(_) => Ok(false),
    }
}

/// Reads a machine text from here on, and gives the number of the line after its line `end`.
#[tactic(auto, unfolding(plat_grammar::specs::FirstFault::machine_at))]
pub fn read_machine(alloc: Global, rows: &mut Rows<'_>) -> Result<(Config, u32), TextFault>
    ensures { Gives (λ r. ((machine r.0, r.1), rows.new)) result (machine_at rows.old) }
{
    let front = read_front(alloc, rows)?;
    let short = has_short_text(alloc, &front)?;
    let next = end(rows, short)?;
    let Front {
        header,
        distances,
        entries,
        inits,
        guests,
    } = front;
    let Header {
        nodes,
        frames,
        words,
        pages,
        policy,
        budget,
        schedule,
    } = header;
    let config = Config {
        nodes,
        frames,
        words,
        pages,
        policy,
        budget,
        schedule,
        distances,
        entries,
        inits,
        guests,
    };
    Ok((config, next))
}

#[tactic(auto, unfolding(plat_grammar::specs::FirstFault::text_at))]
fn read_text(alloc: Global, bytes: &[u8]) -> Result<Config, TextFault>
    ensures { Gives machine result (text_at bytes.now) }
{
    if bytes.len() > MOST_BYTES {
        return Err(TextFault::Refused(Refused {
            line: 0,
            column: 0,
            why: Why::TooLong,
        }));
    }
    let mut rows = Rows::new(1, bytes);
    let (config, _) = read_machine(alloc, &mut rows)?;
    rows.finish()?;
    Ok(config)
}

/// The machine of a machine text, or its first fault.
pub fn parse(alloc: Global, bytes: &[u8]) -> Result<Config, TextFault>
    // What is read is in the grammar of the machine.
    ensures found { IfOk result (λ cfg. IsTextOf bytes.now (machine cfg)) }
    // A text in the grammar of a machine is read as that machine, unless memory runs out; so it is the only one.
    ensures only { (m : Machine) → IsMachine m → IsTextOf bytes.now m → Gives machine result (Ok m) }
    // Which fault it is.
    ensures exact { Gives machine result (text_at bytes.now) }
{
    read_text(alloc, bytes)
}

#[tactic(auto, unfolding(plat_grammar::specs::FirstFault::text_from))]
fn read_text_from(alloc: Global, bytes: &[u8], first_line: u32) -> Result<(Config, u32), TextFault>
    requires { first_line + length bytes.now < 4294967295 }
    ensures { Gives (λ r. (machine r.0, r.1)) result (text_from first_line bytes.now) }
{
    let mut rows = Rows::new(first_line, bytes);
    read_machine(alloc, &mut rows)
}

/// The machine of a machine text that ends at its line `end` inside a longer text, and the number of the line after that.
/// The first line of `bytes` has the number `first_line`.
pub fn parse_from(alloc: Global, bytes: &[u8], first_line: u32) -> Result<(Config, u32), TextFault>
    requires { first_line + length bytes.now < 4294967295 }
    // The lines before that number are in the grammar of the machine.
    ensures found { IfOk result (λ r. IsFrontOf first_line bytes.now (machine r.0) r.1) }
    // Where the first lines are in the grammar of a machine with a short canonical text, it is read.
    ensures only { (m : Machine) (next : ℕ) → IsMachine m → IsTrue (is_short m) →
        IsFrontOf first_line bytes.now m next
        → Gives {Y = Machine × ℕ} (λ r. (machine r.0, r.1)) result (Ok (m, next)) }
    // Which fault it is.
    ensures exact { Gives (λ r. (machine r.0, r.1)) result (text_from first_line bytes.now) }
{
    read_text_from(alloc, bytes, first_line)
}
