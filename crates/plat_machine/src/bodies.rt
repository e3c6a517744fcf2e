//! The lines of a guest while they are read.
ghost use Rattle.std.specs.Prelude.{◌≡◌, ◌≤◌, bytes_eq, ◌<◌, ◌∷◌, ◌++◌, [], ℕ, false, OnOk, IfOk, IfErr, vec_len, length, map, IsTrue};
ghost use Rattle.std.specs.Prelude.{List as Many};
ghost use Rattle.std.specs.List.{list_any};
ghost use Rattle.std.specs.Borrow.{Bor};
ghost use Rattle.plat_base.specs.Labels.{is_label_name};
ghost use Rattle.plat_grammar.specs.Forms.{Reads, Gives};
ghost use Rattle.plat_grammar.specs.FirstFault.{label_line, body_line};
ghost use Rattle.plat_grammar.specs.Drafts.{label_number, linked, with_label};
ghost use Rattle.plat_base.specs.declared.faults.TextFault.TheVariants as fault;
ghost use Rattle.plat_base.specs.declared.limits.TheConstants.{LABELS, INSTRUCTIONS};
ghost use Rattle.plat_machine.specs.Shown.{draft, drafts};

use crate::instructions::{Draft, instruction, is_name};
use indexmap::IndexSet;
use plat_base::{Instr, LABELS, Label, List, Name, Refused, TextFault, Why};
use plat_text::{Row, Rows, Token, at_word, refusal};
use std::alloc::Global;

/// The lines of a guest so far: its instructions, and its labels with a set of their names.
#[derive(Drop)]
pub struct Body<'a> {
    pub drafts: Vec<Draft<'a>>,
    pub labels: List<Label>,
    names: IndexSet<&'a [u8]>,
    ghost named: { map (λ (k : Bor (Many ℕ)). k.now) names.keys ≡ map (λ l. l.name) labels.items },
    pub ghost few: { length labels.items ≤ LABELS },
    pub ghost short: { vec_len drafts ≤ INSTRUCTIONS },
}

fn with_label(instr: Instr, label: u32) -> Instr
    ensures { result ≡ with_label label instr }
{
    match instr {
        Instr::Jump { .. } => Instr::Jump { label },
        Instr::Zero { a, .. } => Instr::Zero { a, label },
        Instr::Less { a, b, .. } => Instr::Less { a, b, label },
        other => other,
    }
}

impl<'a> Body<'a> {
    /// A guest without lines.
    pub fn new(alloc: Global) -> Body<'a>
        ensures drafts { result.drafts.items ≡ [] }
        ensures labels { result.labels.items ≡ [] }
    {
        Body {
            drafts: Vec::new(alloc),
            labels: List::new(alloc),
            names: IndexSet::new(alloc),
        }
    }

    fn knows(&self, name: &[u8]) -> bool
        ensures { result ≡ list_any (λ l. bytes_eq name.now l.name) self.now.labels.items }
    {
        self.names.contains(name)
    }

    /// Reads a label whose word `label` was taken.
    #[tactic(auto, unfolding(plat_grammar::specs::FirstFault::label_line))]
    fn read_label(&self, row: &mut Row<'a>, at: u32) -> Result<&'a [u8], Refused>
        ensures reads { Reads (λ (name : Bor (Many ℕ)). record { name = name.now; at = at }) result
            (label_line at self.now.labels.items row.old) }
        ensures spelled { IfOk result (λ (name : Bor (Many ℕ)). IsTrue (is_label_name name.now)) }
        ensures unknown { IfOk result (λ (name : Bor (Many ℕ)).
            list_any (λ l. bytes_eq name.now l.name) self.now.labels.items ≡ false) }
        ensures room { OnOk result (length self.now.labels.items < LABELS) }
    {
        let line = row.line();
        let first = row.peek()?;
        let found = row.next_word()?;
        if self.labels.len() >= LABELS as usize {
            return Err(refusal(line, found, Why::TooMany));
        }
        if !is_name(found.bytes) {
            return Err(refusal(line, found, Why::BadLabel));
        }
        row.finish()?;
        if self.knows(found.bytes) {
            return Err(refusal(line, first, Why::Duplicate));
        }
        Ok(found.bytes)
    }

    fn number_of(&self, name: &[u8]) -> Option<u32>
        ensures { result ≡ label_number self.now.labels.items name.now }
    {
        let number = self.names.get_index_of(name)?;
        Some(number as u32)
    }

    /// The instruction with its label's number.
    pub fn link(&self, read: Draft<'a>) -> Result<Instr, Refused>
        ensures { result ≡ linked self.now.labels.items (draft read.entry) }
    {
        match read.target {
            None => Ok(read.instr),
            Some(target) => match self.number_of(target.name) {
                Some(number) => Ok(with_label(read.instr, number)),
                None => Err(Refused {
                    line: target.line,
                    column: target.column,
                    why: Why::UnknownLabel,
                }),
            },
        }
    }

    /// Reads a line of the guest.
    #[tactic(auto, unfolding(plat_grammar::specs::FirstFault::body_line))]
    pub fn add(&mut self, row: &mut Row<'a>) -> Result<(), TextFault>
        ensures { Gives (λ _. (drafts self.new.drafts.items, self.new.labels.items)) result
            (body_line (drafts self.old.drafts.items) self.old.labels.items row.old) }
    {
        if row.peek()?.bytes == b"label".as_slice() {
            row.next_word()?;
            let at = self.drafts.len() as u32;
            let name = self.read_label(row, at)?;
            self.keep(name, at)
        } else {
            let read = instruction(row, self.drafts.len())?;
            self.drafts.push(read)?;
            Ok(())
        }
    }

    fn keep(&mut self, name: &'a [u8], at: u32) -> Result<(), TextFault>
        requires spelled { IsTrue (is_label_name name.now) }
        requires unknown { list_any (λ l. bytes_eq name.now l.name) self.old.labels.items ≡ false }
        requires room { length self.old.labels.items < LABELS }
        ensures labels { OnOk result (self.new.labels.items
            ≡ self.old.labels.items ++ record { name = name.entry.now; at = at } ∷ []) }
        ensures drafts { self.new.drafts.items ≡ self.old.drafts.items }
        ensures memory { IfErr result (λ e. e ≡ fault.OutOfMemory) }
    {
        self.labels.reserve(1)?;
        self.names.insert(name)?;
        self.labels.push(Label {
            name: Name::new(name),
            at,
        });
        Ok(())
    }
}
