//! Directories and translations as single words, as they are read.
ghost use Rattle.std.specs.Prelude.{◌≡◌, ◌+◌, ◌==◌, ◌≤◌, ◌<◌, ◌∷◌, position, IfOk, option_map};
ghost use Rattle.std.specs.List.{slice_split};
ghost use Rattle.plat_grammar.specs.Forms.{Reads};
ghost use Rattle.plat_grammar.specs.HistoryCanon.{point, comma};
ghost use Rattle.plat_grammar.specs.HistoryForms.{part_below, cut, wanted, frame_of, translation_of, granted_of, copies_of, dir_of};
ghost use Rattle.plat_history.specs.Shown.{parts, parts_left};
ghost use Rattle.plat_base.specs.declared.limits.TheConstants.{MODULES, FRAMES};

use crate::names::{read_head, read_right};
use plat_base::{Copies, Dir, Frame, Grant, Why};
use plat_text::read_u32;

/// A number below `limit` as a part of a word.
fn read_part(part: &[u8], limit: u32) -> Result<u32, Why>
    ensures { result ≡ part_below limit part.now }
{
    match read_u32(part) {
        Ok(n) if n < limit => Ok(n),
        _ => Err(Why::Expected),
    }
}

/// The number of an entry as a part of a word.
fn read_entry(part: &[u8], entries: usize) -> Result<u32, Why>
    ensures { result ≡ part_below entries part.now }
{
    match read_u32(part) {
        Ok(n) if (n as usize) < entries => Ok(n),
        _ => Err(Why::Expected),
    }
}

fn place_of(byte: u8, word: &[u8]) -> Option<usize>
    ensures { result ≡ position (λ b. b == byte) word.now }
{
    word.iter().position(|b| *b == byte)
}

/// What stands before and what after the first of these bytes.
#[tactic(auto, unfolding(plat_grammar::specs::HistoryForms::cut))]
fn cut(byte: u8, word: &[u8]) -> Option<(&[u8], &[u8])>
    ensures { option_map parts result ≡ cut byte word.now }
{
    match place_of(byte, word) {
        Some(at) => Some((&word[..at], &word[at + 1..])),
        None => None,
    }
}

/// What stands before and what after the first point, which has to be there.
fn cut_at_point(word: &[u8]) -> Result<(&[u8], &[u8]), Why>
    ensures { Reads parts result (wanted (cut point word.now)) }
{
    match cut(b'.', word) {
        Some(found) => Ok(found),
        None => Err(Why::Expected),
    }
}

/// A frame as a part of a word, `M.F`.
#[tactic(auto, unfolding(plat_grammar::specs::HistoryForms::frame_of))]
fn read_frame(part: &[u8], nodes: u32, frames: u32) -> Result<Frame, Why>
    ensures value { result ≡ frame_of nodes frames part.now }
    ensures module { IfOk result (λ f. f.module < nodes) }
    ensures number { IfOk result (λ f. f.number < frames) }
{
    let (module, number) = cut_at_point(part)?;
    let module = read_part(module, nodes)?;
    let number = read_part(number, frames)?;
    Ok(Frame { module, number })
}

/// A translation, `E.M.F.r` or `E.M.F.w`.
#[tactic(auto, unfolding(plat_grammar::specs::HistoryForms::translation_of))]
fn read_translation(word: &[u8], entries: usize, nodes: u32, frames: u32) -> Result<Grant, Why>
    ensures { result ≡ translation_of entries nodes frames word.now }
{
    let (entry, rest) = cut_at_point(word)?;
    let entry = read_entry(entry, entries)?;
    let (module, rest) = cut_at_point(rest)?;
    let module = read_part(module, nodes)?;
    let (number, right) = cut_at_point(rest)?;
    let number = read_part(number, frames)?;
    let right = read_right(right)?;
    Ok(Grant {
        entry,
        frame: Frame { module, number },
        right,
    })
}

/// What a change grants: a translation, or `none`.
#[tactic(auto, unfolding(plat_grammar::specs::HistoryForms::granted_of))]
pub fn read_granted(
    word: &[u8],
    entries: usize,
    nodes: u32,
    frames: u32,
) -> Result<Option<Grant>, Why>
    ensures { result ≡ granted_of entries nodes frames word.now }
{
    if word == b"none".as_slice() {
        Ok(None)
    } else {
        Ok(Some(read_translation(word, entries, nodes, frames)?))
    }
}

/// The first of the parts with commas between them, and the others if there are any.
#[tactic(auto, using(crate::proofs::PartLemmas::list_parts))]
fn first_part(list: &[u8]) -> (&[u8], Option<&[u8]>)
    ensures { slice_split (λ b. b == comma) list.now ≡ result.0.now ∷ parts_left result.1 }
{
    match cut(b',', list) {
        Some((first, rest)) => (first, Some(rest)),
        None => (list, None),
    }
}

/// Frames with commas between them, on modules that rise.
#[tactic(auto, using(crate::proofs::PartLemmas::copies_steps))]
fn read_copies(list: &[u8], nodes: u32, frames: u32) -> Result<Copies, Why>
    requires nodes { nodes ≤ MODULES }
    requires frames { frames ≤ FRAMES }
    ensures { result ≡ copies_of nodes frames list.now }
{
    let mut copies = Copies::none();
    let mut low = 0;
    let mut left = Some(list);
    while let Some(list) = left {
        let (part, rest) = first_part(list);
        let frame = read_frame(part, nodes, frames)?;
        if frame.module < low {
            return Err(Why::Expected);
        }
        low = frame.module + 1;
        copies = copies.with(frame);
        left = rest;
    }
    Ok(copies)
}

/// A directory: its state, a star where the page is frozen, and a colon and its copies where it has any.
#[tactic(auto, unfolding(plat_grammar::specs::HistoryForms::dir_of))]
pub fn read_dir(word: &[u8], nodes: u32, frames: u32) -> Result<Dir, Why>
    requires nodes { nodes ≤ MODULES }
    requires frames { frames ≤ FRAMES }
    ensures { result ≡ dir_of nodes frames word.now }
{
    match cut(b':', word) {
        None => {
            let (state, frozen) = read_head(word)?;
            Ok(Dir {
                state,
                frozen,
                copies: Copies::none(),
            })
        }
        Some((head, list)) => {
            let (state, frozen) = read_head(head)?;
            let copies = read_copies(list, nodes, frames)?;
            Ok(Dir {
                state,
                frozen,
                copies,
            })
        }
    }
}
