//! The lines before the distances of a machine text.
ghost use Rattle.std.specs.Prelude.{◌≡◌, length, codes};
ghost use Rattle.plat_base.specs.Machine.{turns_of};
ghost use Rattle.plat_base.specs.declared.limits.TheConstants.{LISTED};
ghost use Rattle.plat_grammar.specs.Forms.{Reads, Gives, line_at, listed, number_in};
ghost use Rattle.plat_grammar.specs.FirstFault.{number_line, size_of, size_line, version_line, platinum_line, policy_line, random_line};
ghost use Rattle.plat_grammar.specs.FirstFault.{schedule_line, header_at};
ghost use Rattle.plat_machine.specs.Shown.{header};

use plat_base::{
    BUDGET, FRAMES, LISTED, List, MODULES, PAGES, Plan, PolicyKind, Refused, TextFault, Why,
};
use plat_text::{Row, Rows, at_word, read_in, read_u32, refusal};
use std::alloc::Global;

/// What stands before the distances of a machine text.
#[derive(Debug, Drop)]
pub struct Header {
    pub nodes: u32,
    pub frames: u32,
    pub words: u32,
    pub pages: u32,
    pub policy: PolicyKind,
    pub budget: u32,
    pub schedule: Plan,
}

/// A line of one number.
pub fn number_line(rows: &mut Rows<'_>, key: &[u8], low: u32, high: u32) -> Result<u32, Refused>
    ensures { Reads (λ n. (n, rows.new)) result (line_at key.now (number_line low high) rows.old) }
{
    let mut row = rows.row_with(key)?;
    let n = row.number(low, high)?;
    row.finish()?;
    Ok(n)
}

fn version(rows: &mut Rows<'_>) -> Result<(), Refused>
    ensures { Reads (λ _. (tt {0}, rows.new)) result (line_at (codes "platinum") version_line rows.old) }
{
    let mut row = rows.row_with(b"platinum")?;
    row.key(b"1")?;
    row.finish()
}

fn size(word: &[u8]) -> Result<u32, Why>
    ensures { result ≡ size_of word.now }
{
    let n = read_u32(word)?;
    match n {
        4 | 8 | 16 | 32 | 64 => Ok(n),
        _ => Err(Why::PageWords),
    }
}

fn page_size(rows: &mut Rows<'_>) -> Result<u32, Refused>
    ensures { Reads (λ n. (n, rows.new)) result (line_at (codes "words") size_line rows.old) }
{
    let mut row = rows.row_with(b"words")?;
    let line = row.line();
    let found = row.next_word()?;
    let n = at_word(line, found, size(found.bytes))?;
    row.finish()?;
    Ok(n)
}

fn platinum(row: &mut Row<'_>) -> Result<PolicyKind, Refused>
    ensures { Reads (λ p. p) result (platinum_line row.old) }
{
    let t1 = row.number(0, 1_000_000)?;
    let t2 = row.number(64, 1_000_000)?;
    row.finish()?;
    Ok(PolicyKind::Platinum { t1, t2 })
}

fn policy(row: &mut Row<'_>) -> Result<PolicyKind, Refused>
    ensures { Reads (λ p. p) result (policy_line row.old) }
{
    let line = row.line();
    let found = row.next_word()?;
    if found.bytes == b"place".as_slice() {
        row.finish()?;
        return Ok(PolicyKind::Place);
    }
    if found.bytes == b"replicate".as_slice() {
        row.finish()?;
        return Ok(PolicyKind::Replicate);
    }
    if found.bytes == b"platinum".as_slice() {
        return platinum(row);
    }
    Err(refusal(line, found, Why::UnknownPolicy))
}

#[tactic(auto, using(plat_text::proofs::FormLemmas::each_steps))]
fn actors(alloc: Global, row: &mut Row<'_>, nodes: u32) -> Result<List<u32>, TextFault>
    ensures { Gives (λ list. list.items) result (listed (number_in 0 nodes) LISTED row.old) }
{
    row.peek()?;
    let line = row.line();
    let mut actors = List::new(alloc);
    while !row.is_empty() {
        let found = row.next_word()?;
        if actors.len() >= LISTED as usize {
            return Err(TextFault::from(refusal(line, found, Why::TooMany)));
        }
        let actor = at_word(line, found, read_in(found.bytes, 0, nodes))?;
        actors.reserve(1)?;
        actors.push(actor);
    }
    Ok(actors)
}

fn random(row: &mut Row<'_>) -> Result<Plan, Refused>
    ensures { Reads (λ plan. turns_of plan) result (random_line row.old) }
{
    let a = row.any_number()?;
    let b = row.any_number()?;
    row.finish()?;
    Ok(Plan::Random { a, b })
}

fn schedule(alloc: Global, row: &mut Row<'_>, nodes: u32) -> Result<Plan, TextFault>
    ensures { Gives (λ plan. turns_of plan) result (schedule_line nodes row.old) }
{
    let line = row.line();
    let found = row.next_word()?;
    if found.bytes == b"robin".as_slice() {
        row.finish()?;
        return Ok(Plan::Robin);
    }
    if found.bytes == b"random".as_slice() {
        return Ok(random(row)?);
    }
    if found.bytes == b"list".as_slice() {
        return Ok(Plan::Listed(actors(alloc, row, nodes)?));
    }
    Err(TextFault::from(refusal(line, found, Why::UnknownSchedule)))
}

/// Reads the lines from `platinum` to `schedule`.
#[tactic(auto, unfolding(plat_grammar::specs::FirstFault::header_at))]
pub fn read_header(alloc: Global, rows: &mut Rows<'_>) -> Result<Header, TextFault>
    ensures { Gives (λ h. (header h, rows.new)) result (header_at rows.old) }
{
    version(rows)?;
    let nodes = number_line(rows, b"nodes", 1, MODULES)?;
    let frames = number_line(rows, b"frames", 1, FRAMES)?;
    let words = page_size(rows)?;
    let pages = number_line(rows, b"pages", 1, PAGES)?;
    let policy = policy(&mut rows.row_with(b"policy")?)?;
    let budget = number_line(rows, b"budget", 1, BUDGET)?;
    let schedule = schedule(alloc, &mut rows.row_with(b"schedule")?, nodes)?;
    Ok(Header {
        nodes,
        frames,
        words,
        pages,
        policy,
        budget,
        schedule,
    })
}
