//! The lines of a guest: its head, its instructions, and its labels among them.
ghost use Rattle.std.specs.Prelude.{◌≡◌, ◌-◌, ◌<◌, ◌≤◌, ◌∷◌, [], codes, map, length, take, drop, IsTrue};
ghost use Rattle.std.specs.List.{list_all};
ghost use Rattle.std.specs.Fmt.{decimal};
ghost use Rattle.plat_base.specs.Canon.{register_word, index_words, instr_words, label_name, label_words, with_labels};
ghost use Rattle.plat_base.specs.Machine.{is_instr, is_program, labels_rise, program_seen};
ghost use Rattle.plat_io.specs.Lines.{spelling, AddsLines};
ghost use Rattle.plat_machine.specs.Printed.{guest_lines};

use plat_base::{GuestText, Instr, Label};
use plat_io::Word::{Number, Text};
use plat_io::{Sink, Word, WriteFault, write_line};

/// Writes the lines of a guest.
#[tactic(auto, using(plat_io::proofs::LineLemmas::lines, crate::proofs::PrintLimits::program_parts), unfolding(crate::specs::Printed::guest_lines))]
pub(crate) fn write_guest<K: Sink>(sink: &mut K, guest: &GuestText) -> Result<(), WriteFault>
    requires { IsTrue (is_program (program_seen guest.now)) }
    ensures { AddsLines K.Sink sink.old sink.new result (guest_lines guest.now) }
{
    write_line(sink, &[Text(b"guest"), Number(guest.space)])?;
    write_labelled(sink, guest.labels.as_slice(), guest.code.as_slice())
}

/// Writes instructions, and each label before the instruction at its position.
fn write_labelled<K: Sink>(sink: &mut K, labels: &[Label], code: &[Instr]) -> Result<(), WriteFault>
    requires instructions { IsTrue (list_all (is_instr (length labels.now)) code.now) }
    requires rising { IsTrue (labels_rise 0 (length code.now) labels.now) }
    ensures { AddsLines K.Sink sink.old sink.new result
        (with_labels 0 (map (instr_words (label_name labels.now)) code.now) labels.now) }
{
    let mut at = 0;
    for label in labels {
        let end = label.at as usize;
        write_stretch(sink, labels, code, at, end)?;
        write_label(sink, label)?;
        at = end;
    }
    write_stretch(sink, labels, code, at, code.len())
}

fn write_label<K: Sink>(sink: &mut K, label: &Label) -> Result<(), WriteFault>
    ensures { AddsLines K.Sink sink.old sink.new result (label_words label.now ∷ []) }
{
    write_line(sink, &[Text(b"label"), Text(label.name.bytes())])
}

/// Writes the instructions from position `from` to before position `to`.
#[tactic(auto, using(crate::proofs::PrintLimits::all_between))]
fn write_stretch<K: Sink>(
    sink: &mut K,
    labels: &[Label],
    code: &[Instr],
    from: usize,
    to: usize,
) -> Result<(), WriteFault>
    requires order { from ≤ to }
    requires within { to ≤ length code.now }
    requires instructions { IsTrue (list_all (is_instr (length labels.now)) code.now) }
    ensures { AddsLines K.Sink sink.old sink.new result
        (map (instr_words (label_name labels.now)) (take (to - from) (drop from code.now))) }
{
    write_code(sink, labels, &code[from..to])
}

#[tactic(auto, using(plat_io::proofs::LineLemmas::looped_lines))]
fn write_code<K: Sink>(sink: &mut K, labels: &[Label], code: &[Instr]) -> Result<(), WriteFault>
    requires { IsTrue (list_all (is_instr (length labels.now)) code.now) }
    ensures { AddsLines K.Sink sink.old sink.new result (map (instr_words (label_name labels.now)) code.now) }
{
    for instr in code {
        write_instruction(sink, labels, *instr)?;
    }
    Ok(())
}

fn write_instruction<K: Sink>(
    sink: &mut K,
    labels: &[Label],
    instr: Instr,
) -> Result<(), WriteFault>
    requires { IsTrue (is_instr (length labels.now) instr) }
    ensures { AddsLines K.Sink sink.old sink.new result (instr_words (label_name labels.now) instr ∷ []) }
{
    match instr {
        Instr::Set { d, n } => write_line(sink, &[Text(b"set"), register(d), Number(n)]),
        Instr::Move { d, a } => write_line(sink, &[Text(b"move"), register(d), register(a)]),
        Instr::Add { d, a, b } => write_operation(sink, b"add", d, a, b),
        Instr::Sub { d, a, b } => write_operation(sink, b"sub", d, a, b),
        Instr::Mul { d, a, b } => write_operation(sink, b"mul", d, a, b),
        Instr::And { d, a, b } => write_operation(sink, b"and", d, a, b),
        Instr::Shr { d, a, b } => write_operation(sink, b"shr", d, a, b),
        Instr::Load { d, k, i } => write_access(sink, b"load", d, k, i),
        Instr::Store { s, k, i } => write_access(sink, b"store", s, k, i),
        Instr::Fadd { d, s, k, i } => write_fadd(sink, d, s, k, i),
        Instr::Switch(space) => write_line(sink, &[Text(b"switch"), Number(space)]),
        Instr::Print(s) => write_line(sink, &[Text(b"print"), register(s)]),
        Instr::Jump { label } => write_line(sink, &[Text(b"jump"), name_of(labels, label)]),
        Instr::Zero { a, label } => {
            let target = name_of(labels, label);
            write_line(sink, &[Text(b"zero"), register(a), target])
        }
        Instr::Less { a, b, label } => {
            let target = name_of(labels, label);
            write_line(sink, &[Text(b"less"), register(a), register(b), target])
        }
        Instr::Halt => write_line(sink, &[Text(b"halt")]),
    }
}

/// The word of a register.
fn register(r: u32) -> Word<'static>
    ensures { spelling result ≡ register_word r }
{
    Word::Lettered(b'r', r)
}

/// The name of the label with this number.
#[tactic(auto, using(crate::proofs::PrintLimits::name_at))]
fn name_of(labels: &[Label], label: u32) -> Word<'_>
    requires { label < length labels.now }
    ensures { spelling result ≡ label_name labels.now label }
{
    Text(labels[label as usize].name.bytes())
}

fn write_operation<K: Sink>(
    sink: &mut K,
    name: &[u8],
    d: u32,
    a: u32,
    b: u32,
) -> Result<(), WriteFault>
    ensures { AddsLines K.Sink sink.old sink.new result
        ((name.now ∷ register_word d ∷ register_word a ∷ register_word b ∷ []) ∷ []) }
{
    write_line(sink, &[Text(name), register(d), register(a), register(b)])
}

/// Writes the line of a load or a store, whose address is a number, or the sum of a number and a register.
fn write_access<K: Sink>(
    sink: &mut K,
    name: &[u8],
    r: u32,
    k: u32,
    index: Option<u32>,
) -> Result<(), WriteFault>
    ensures { AddsLines K.Sink sink.old sink.new result
        ((name.now ∷ register_word r ∷ decimal k ∷ index_words index) ∷ []) }
{
    match index {
        None => write_line(sink, &[Text(name), register(r), Number(k)]),
        Some(i) => write_line(sink, &[Text(name), register(r), Number(k), register(i)]),
    }
}

fn write_fadd<K: Sink>(
    sink: &mut K,
    d: u32,
    s: u32,
    k: u32,
    index: Option<u32>,
) -> Result<(), WriteFault>
    ensures { AddsLines K.Sink sink.old sink.new result
        ((codes "fadd" ∷ register_word d ∷ register_word s ∷ decimal k ∷ index_words index) ∷ []) }
{
    let name = Text(b"fadd");
    match index {
        None => write_line(sink, &[name, register(d), register(s), Number(k)]),
        Some(i) => write_line(
            sink,
            &[name, register(d), register(s), Number(k), register(i)],
        ),
    }
}
