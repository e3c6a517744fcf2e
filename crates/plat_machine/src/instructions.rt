//! Lines of instructions.
ghost use Rattle.std.specs.Prelude.{◌≡◌, ◌<◌, None, OnOk, drop};
ghost use Rattle.std.specs.List.{list_all};
ghost use Rattle.plat_base.specs.Labels.{is_label_byte, is_label_name};
ghost use Rattle.plat_grammar.specs.Forms.{Reads, refused, chosen};
ghost use Rattle.plat_grammar.specs.Drafts.{register_of, register, address, two_registers, three_registers, instructions, instruction_line};
ghost use Rattle.plat_grammar.specs.Drafts.{name_of, target as label_at, set_line, move_line, add_line, sub_line, mul_line, and_line};
ghost use Rattle.plat_grammar.specs.Drafts.{shr_line, load_line, store_line, fadd_line, switch_line, print_line, jump_line, zero_line};
ghost use Rattle.plat_grammar.specs.Drafts.{less_line, halt_line};
ghost use Rattle.plat_base.specs.declared.faults.Why.TheVariants as why;
ghost use Rattle.plat_base.specs.declared.limits.TheConstants.{INSTRUCTIONS};
ghost use Rattle.plat_machine.specs.Shown.{draft, target};

use plat_base::{INSTRUCTIONS, Instr, REGISTERS, Refused, SPACES, Why};
use plat_text::{Row, Token, at_word, read_u32, refusal};

/// Where an instruction names a label.
#[derive(Clone, Copy, Debug)]
pub struct Target<'a> {
    pub line: u32,
    pub column: u32,
    pub name: &'a [u8],
}

/// An instruction whose label, if it has one, has no number yet: 0 stands in its place.
#[derive(Clone, Copy, Debug)]
pub struct Draft<'a> {
    pub instr: Instr,
    pub target: Option<Target<'a>>,
}

fn plain<'a>(instr: Instr) -> Draft<'a>
    ensures instr { result.instr ≡ instr }
    ensures target { result.target ≡ None }
{
    Draft {
        instr,
        target: None,
    }
}

#[tactic(auto, unfolding(plat_grammar::specs::Drafts::register_of))]
fn read_register(word: &[u8]) -> Result<u32, Why>
    ensures { result ≡ register_of word.now }
{
    match word {
        [b'r', digits @ ..] => match read_u32(digits) {
            Ok(n) if n < REGISTERS => Ok(n),
            _ => Err(Why::BadRegister),
        },
        _ => Err(Why::BadRegister),
    }
}

fn are_label_bytes(bytes: &[u8]) -> bool
    ensures { result ≡ list_all is_label_byte bytes.now }
{
    bytes
        .iter()
        .all(|b| matches!(*b, b'a'..=b'z' | b'0'..=b'9' | b'_'))
}

/// Whether a word is the name of a label.
pub fn is_name(word: &[u8]) -> bool
    ensures { result ≡ is_label_name word.now }
{
    match word {
        [] => false,
        [first, others @ ..] => {
            first.is_ascii_lowercase() && are_label_bytes(others) && others.len() <= 31
        }
    }
}

/// A label's name.
pub fn read_name(word: &[u8]) -> Result<&[u8], Why>
    ensures { Reads (λ name. name.now) result (name_of word.now) }
{
    if is_name(word) {
        Ok(word)
    } else {
        Err(Why::BadLabel)
    }
}

fn register(row: &mut Row<'_>) -> Result<u32, Refused>
    ensures { Reads (λ r. (r, row.new)) result (register row.old) }
{
    let line = row.line();
    let found = row.next_word()?;
    at_word(line, found, read_register(found.bytes))
}

fn label_use<'a>(row: &mut Row<'a>) -> Result<Target<'a>, Refused>
    ensures { Reads (λ t. (target t, row.new)) result (label_at row.old) }
{
    let line = row.line();
    let found = row.next_word()?;
    if is_name(found.bytes) {
        Ok(Target {
            line,
            column: found.column,
            name: found.bytes,
        })
    } else {
        Err(refusal(line, found, Why::BadLabel))
    }
}

/// A number, and a register if a further word comes.
fn address(row: &mut Row<'_>) -> Result<(u32, Option<u32>), Refused>
    ensures { Reads (λ x. (x.0, x.1)) result (address row.old) }
{
    let k = row.any_number()?;
    if row.is_empty() {
        return Ok((k, None));
    }
    let i = register(row)?;
    row.finish()?;
    Ok((k, Some(i)))
}

fn two_registers(row: &mut Row<'_>) -> Result<(u32, u32), Refused>
    ensures { Reads (λ x. (x.0, (x.1, tt {0}))) result (two_registers row.old) }
{
    let d = register(row)?;
    let a = register(row)?;
    row.finish()?;
    Ok((d, a))
}

fn three_registers(row: &mut Row<'_>) -> Result<(u32, u32, u32), Refused>
    ensures { Reads (λ x. (x.0, (x.1, (x.2, tt {0})))) result (three_registers row.old) }
{
    let d = register(row)?;
    let a = register(row)?;
    let b = register(row)?;
    row.finish()?;
    Ok((d, a, b))
}

#[tactic(auto, unfolding(plat_grammar::specs::Drafts::set_line))]
fn set<'a>(row: &mut Row<'a>) -> Result<Draft<'a>, Refused>
    ensures { Reads draft result (set_line row.old) }
{
    let d = register(row)?;
    let n = row.any_number()?;
    row.finish()?;
    Ok(plain(Instr::Set { d, n }))
}

#[tactic(auto, unfolding(plat_grammar::specs::Drafts::move_line))]
fn move_<'a>(row: &mut Row<'a>) -> Result<Draft<'a>, Refused>
    ensures { Reads draft result (move_line row.old) }
{
    let (d, a) = two_registers(row)?;
    Ok(plain(Instr::Move { d, a }))
}

#[tactic(auto, unfolding(plat_grammar::specs::Drafts::add_line))]
fn add<'a>(row: &mut Row<'a>) -> Result<Draft<'a>, Refused>
    ensures { Reads draft result (add_line row.old) }
{
    let (d, a, b) = three_registers(row)?;
    Ok(plain(Instr::Add { d, a, b }))
}

#[tactic(auto, unfolding(plat_grammar::specs::Drafts::sub_line))]
fn sub<'a>(row: &mut Row<'a>) -> Result<Draft<'a>, Refused>
    ensures { Reads draft result (sub_line row.old) }
{
    let (d, a, b) = three_registers(row)?;
    Ok(plain(Instr::Sub { d, a, b }))
}

#[tactic(auto, unfolding(plat_grammar::specs::Drafts::mul_line))]
fn mul<'a>(row: &mut Row<'a>) -> Result<Draft<'a>, Refused>
    ensures { Reads draft result (mul_line row.old) }
{
    let (d, a, b) = three_registers(row)?;
    Ok(plain(Instr::Mul { d, a, b }))
}

#[tactic(auto, unfolding(plat_grammar::specs::Drafts::and_line))]
fn and<'a>(row: &mut Row<'a>) -> Result<Draft<'a>, Refused>
    ensures { Reads draft result (and_line row.old) }
{
    let (d, a, b) = three_registers(row)?;
    Ok(plain(Instr::And { d, a, b }))
}

#[tactic(auto, unfolding(plat_grammar::specs::Drafts::shr_line))]
fn shr<'a>(row: &mut Row<'a>) -> Result<Draft<'a>, Refused>
    ensures { Reads draft result (shr_line row.old) }
{
    let (d, a, b) = three_registers(row)?;
    Ok(plain(Instr::Shr { d, a, b }))
}

#[tactic(auto, unfolding(plat_grammar::specs::Drafts::load_line))]
fn load<'a>(row: &mut Row<'a>) -> Result<Draft<'a>, Refused>
    ensures { Reads draft result (load_line row.old) }
{
    let d = register(row)?;
    let (k, i) = address(row)?;
    Ok(plain(Instr::Load { d, k, i }))
}

#[tactic(auto, unfolding(plat_grammar::specs::Drafts::store_line))]
fn store<'a>(row: &mut Row<'a>) -> Result<Draft<'a>, Refused>
    ensures { Reads draft result (store_line row.old) }
{
    let s = register(row)?;
    let (k, i) = address(row)?;
    Ok(plain(Instr::Store { s, k, i }))
}

#[tactic(auto, unfolding(plat_grammar::specs::Drafts::fadd_line))]
fn fadd<'a>(row: &mut Row<'a>) -> Result<Draft<'a>, Refused>
    ensures { Reads draft result (fadd_line row.old) }
{
    let d = register(row)?;
    let s = register(row)?;
    let (k, i) = address(row)?;
    Ok(plain(Instr::Fadd { d, s, k, i }))
}

#[tactic(auto, unfolding(plat_grammar::specs::Drafts::switch_line))]
fn switch<'a>(row: &mut Row<'a>) -> Result<Draft<'a>, Refused>
    ensures { Reads draft result (switch_line row.old) }
{
    let space = row.number(0, SPACES - 1)?;
    row.finish()?;
    Ok(plain(Instr::Switch(space)))
}

#[tactic(auto, unfolding(plat_grammar::specs::Drafts::print_line))]
fn print<'a>(row: &mut Row<'a>) -> Result<Draft<'a>, Refused>
    ensures { Reads draft result (print_line row.old) }
{
    let s = register(row)?;
    row.finish()?;
    Ok(plain(Instr::Print(s)))
}

#[tactic(auto, unfolding(plat_grammar::specs::Drafts::jump_line))]
fn jump<'a>(row: &mut Row<'a>) -> Result<Draft<'a>, Refused>
    ensures { Reads draft result (jump_line row.old) }
{
    let label = label_use(row)?;
    row.finish()?;
    Ok(Draft {
        instr: Instr::Jump { label: 0 },
        target: Some(label),
    })
}

#[tactic(auto, unfolding(plat_grammar::specs::Drafts::zero_line))]
fn zero<'a>(row: &mut Row<'a>) -> Result<Draft<'a>, Refused>
    ensures { Reads draft result (zero_line row.old) }
{
    let a = register(row)?;
    let label = label_use(row)?;
    row.finish()?;
    Ok(Draft {
        instr: Instr::Zero { a, label: 0 },
        target: Some(label),
    })
}

#[tactic(auto, unfolding(plat_grammar::specs::Drafts::less_line))]
fn less<'a>(row: &mut Row<'a>) -> Result<Draft<'a>, Refused>
    ensures { Reads draft result (less_line row.old) }
{
    let a = register(row)?;
    let b = register(row)?;
    let label = label_use(row)?;
    row.finish()?;
    Ok(Draft {
        instr: Instr::Less { a, b, label: 0 },
        target: Some(label),
    })
}

#[tactic(auto, unfolding(plat_grammar::specs::Drafts::halt_line))]
fn halt<'a>(row: &mut Row<'a>) -> Result<Draft<'a>, Refused>
    ensures { Reads draft result (halt_line row.old) }
{
    row.finish()?;
    Ok(plain(Instr::Halt))
}

/// Reads an instruction whose first word was taken.
fn kind<'a>(row: &mut Row<'a>, line: u32, first: Token<'a>) -> Result<Draft<'a>, Refused>
    ensures { Reads draft result (chosen instructions (refused line first.entry.column why.UnknownInstruction)
        first.entry.bytes.now row.old) }
{
    let word = first.bytes;
    if word == b"set".as_slice() {
        return set(row);
    }
    if word == b"move".as_slice() {
        return move_(row);
    }
    if word == b"add".as_slice() {
        return add(row);
    }
    if word == b"sub".as_slice() {
        return sub(row);
    }
    if word == b"mul".as_slice() {
        return mul(row);
    }
    if word == b"and".as_slice() {
        return and(row);
    }
    if word == b"shr".as_slice() {
        return shr(row);
    }
    moving_kind(row, line, first)
}

/// The same of those that compute nothing: accesses, switches, prints, jumps and the halt.
fn moving_kind<'a>(row: &mut Row<'a>, line: u32, first: Token<'a>) -> Result<Draft<'a>, Refused>
    ensures { Reads draft result (chosen (drop 7 instructions) (refused line first.entry.column why.UnknownInstruction)
        first.entry.bytes.now row.old) }
{
    let word = first.bytes;
    if word == b"load".as_slice() {
        return load(row);
    }
    if word == b"store".as_slice() {
        return store(row);
    }
    if word == b"fadd".as_slice() {
        return fadd(row);
    }
    if word == b"switch".as_slice() {
        return switch(row);
    }
    if word == b"print".as_slice() {
        return print(row);
    }
    if word == b"jump".as_slice() {
        return jump(row);
    }
    if word == b"zero".as_slice() {
        return zero(row);
    }
    if word == b"less".as_slice() {
        return less(row);
    }
    if word == b"halt".as_slice() {
        return halt(row);
    }
    Err(refusal(line, first, Why::UnknownInstruction))
}

/// Reads an instruction of a guest that has so many.
#[tactic(auto, unfolding(plat_grammar::specs::Drafts::instruction_line))]
pub fn instruction<'a>(row: &mut Row<'a>, count: usize) -> Result<Draft<'a>, Refused>
    ensures reads { Reads draft result (instruction_line count row.old) }
    ensures room { OnOk result (count < INSTRUCTIONS) }
{
    let line = row.line();
    let first = row.next_word()?;
    if count >= INSTRUCTIONS as usize {
        return Err(refusal(line, first, Why::TooMany));
    }
    kind(row, line, first)
}
