//! Guests of a machine text.
ghost use Rattle.std.specs.Prelude.{◌≡◌, codes, []};
ghost use Rattle.plat_base.specs.Machine.{program_seen, programs_seen};
ghost use Rattle.plat_grammar.specs.Forms.{Reads, Gives, line_at};
ghost use Rattle.plat_grammar.specs.FirstFault.{ends_guest, body_at, guest_at, guests_from};
ghost use Rattle.plat_grammar.specs.Drafts.{code_from};
ghost use Rattle.plat_machine.specs.Shown.{drafts};

use crate::bodies::Body;
use crate::headers::number_line;
use plat_base::{GuestText, Instr, List, SPACES, TextFault};
use plat_text::Rows;
use std::alloc::Global;

fn ends_guest(word: &[u8]) -> bool
    ensures { result ≡ ends_guest word.now }
{
    word == b"guest".as_slice() || word == b"end".as_slice()
}

/// Reads the lines of a guest up to the next `guest` or `end`.
#[tactic(auto, using(crate::proofs::LoopLemmas::body_steps))]
fn read_body<'a>(alloc: Global, rows: &mut Rows<'a>) -> Result<Body<'a>, TextFault>
    ensures { Gives (λ body. ((drafts body.drafts.items, body.labels.items), rows.new)) result
        (body_at rows.old) }
{
    let mut body = Body::new(alloc);
    while !ends_guest(rows.first_word()?.bytes) {
        let mut row = rows.next_row()?;
        body.add(&mut row)?;
    }
    Ok(body)
}

/// The instructions of a guest with their labels' numbers.
#[tactic(auto, using(crate::proofs::LoopLemmas::code_steps))]
fn code(alloc: Global, body: &Body<'_>) -> Result<List<Instr>, TextFault>
    ensures { Gives (λ list. list.items) result
        (code_from body.now.labels.items [] (drafts body.now.drafts.items)) }
{
    let mut list = List::new(alloc);
    for read in &body.drafts {
        let instr = body.link(*read)?;
        list.reserve(1)?;
        list.push(instr);
    }
    Ok(list)
}

/// Reads a guest.
#[tactic(auto, unfolding(plat_grammar::specs::FirstFault::guest_at))]
fn guest(alloc: Global, rows: &mut Rows<'_>) -> Result<GuestText, TextFault>
    ensures { Gives (λ g. (program_seen g, rows.new)) result (guest_at rows.old) }
{
    let space = number_line(rows, b"guest", 0, SPACES - 1)?;
    let body = read_body(alloc, rows)?;
    let code = code(alloc, &body)?;
    let Body { labels, .. } = body;
    Ok(GuestText {
        space,
        code,
        labels,
    })
}

/// Reads so many guests.
#[tactic(auto, using(crate::proofs::LoopLemmas::guest_steps))]
pub fn guests(alloc: Global, rows: &mut Rows<'_>, nodes: u32) -> Result<List<GuestText>, TextFault>
    ensures { Gives (λ list. (programs_seen list.items, rows.new)) result (guests_from nodes [] rows.old) }
{
    let mut list = List::new(alloc);
    for _node in 0..nodes {
        let read = guest(alloc, rows)?;
        list.reserve(1)?;
        list.push(read);
    }
    Ok(list)
}
