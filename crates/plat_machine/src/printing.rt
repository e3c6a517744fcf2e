//! The canonical text of a machine.
ghost use Rattle.std.specs.Prelude.{◌≡◌, ◌∷◌, [], map, IsTrue, Ok};
ghost use Rattle.std.specs.List.{flat_map, list_all};
ghost use Rattle.plat_base.specs.Canon.{canon_text, distance_words, entry_words, init_words};
ghost use Rattle.plat_grammar.specs.FirstFault.{text_at};
ghost use Rattle.plat_grammar.specs.Grammar.{IsTextOf};
ghost use Rattle.plat_base.specs.Machine.{is_program, programs_seen};
ghost use Rattle.plat_base.specs.Seen.{machine};
ghost use Rattle.plat_io.specs.Adds.{Adds};
ghost use Rattle.plat_io.specs.Lines.{AddsLines};
ghost use Rattle.plat_machine.specs.Printed.{policy_line, schedule_line, size_lines, setting_lines, head_lines, guest_lines, body_lines};
ghost use Rattle.plat_machine.specs.Printed.{machine_lines, front_lines};

use crate::printing_guests::write_guest;
use crate::whole::Front;
use plat_base::{Config, Distance, Entry, GuestText, Init, Plan, PolicyKind};
use plat_io::Word::{Number, Text};
use plat_io::{Sink, WriteFault, write_line, write_list_line};

/// Writes the canonical text of a machine. It takes no memory.
pub fn print_machine<K: Sink>(cfg: &Config, sink: &mut K) -> Result<(), WriteFault>
    ensures written { Adds K.Sink sink.old sink.new result (canon_text (machine cfg.now)) }
    // This text is in the grammar of the machine.
    ensures text { IsTextOf (canon_text (machine cfg.now)) (machine cfg.now) }
    // So it is read as this machine again.
    ensures read_again { text_at (canon_text (machine cfg.now)) ≡ Ok (machine cfg.now) }
{
    write_machine(sink, cfg)
}

#[tactic(auto, using(plat_io::proofs::LineLemmas::lines, crate::proofs::PrintLimits::guests_within))]
fn write_machine<K: Sink>(sink: &mut K, cfg: &Config) -> Result<(), WriteFault>
    ensures { AddsLines K.Sink sink.old sink.new result (machine_lines cfg.now) }
{
    write_head(sink, cfg)?;
    write_body(
        sink,
        cfg.distances.as_slice(),
        cfg.entries.as_slice(),
        cfg.inits.as_slice(),
        cfg.guests.as_slice(),
    )
}

/// Writes the canonical text of what was read, with the line `end`.
#[tactic(auto, using(plat_io::proofs::LineLemmas::lines))]
pub(crate) fn write_front<K: Sink>(sink: &mut K, front: &Front) -> Result<(), WriteFault>
    requires { IsTrue (list_all is_program (programs_seen front.now.guests.items)) }
    ensures { AddsLines K.Sink sink.old sink.new result (front_lines front.now) }
{
    let header = &front.header;
    write_sizes(
        sink,
        header.nodes,
        header.frames,
        header.words,
        header.pages,
    )?;
    write_settings(sink, header.policy, header.budget, &header.schedule)?;
    write_body(
        sink,
        front.distances.as_slice(),
        front.entries.as_slice(),
        front.inits.as_slice(),
        front.guests.as_slice(),
    )
}

/// Writes the lines before the distances.
#[tactic(auto, using(plat_io::proofs::LineLemmas::lines))]
fn write_head<K: Sink>(sink: &mut K, cfg: &Config) -> Result<(), WriteFault>
    ensures { AddsLines K.Sink sink.old sink.new result (head_lines cfg.now) }
{
    write_sizes(sink, cfg.nodes, cfg.frames, cfg.words, cfg.pages)?;
    write_settings(sink, cfg.policy, cfg.budget, &cfg.schedule)
}

#[tactic(auto, using(crate::proofs::PrintLines::lines_in_turn), unfolding(crate::specs::Printed::size_lines))]
fn write_sizes<K: Sink>(
    sink: &mut K,
    nodes: u32,
    frames: u32,
    words: u32,
    pages: u32,
) -> Result<(), WriteFault>
    ensures { AddsLines K.Sink sink.old sink.new result (size_lines nodes frames words pages) }
{
    write_line(sink, &[Text(b"platinum"), Text(b"1")])?;
    write_line(sink, &[Text(b"nodes"), Number(nodes)])?;
    write_line(sink, &[Text(b"frames"), Number(frames)])?;
    write_line(sink, &[Text(b"words"), Number(words)])?;
    write_line(sink, &[Text(b"pages"), Number(pages)])
}

#[tactic(auto, using(crate::proofs::PrintLines::lines_in_turn), unfolding(crate::specs::Printed::setting_lines))]
fn write_settings<K: Sink>(
    sink: &mut K,
    policy: PolicyKind,
    budget: u32,
    plan: &Plan,
) -> Result<(), WriteFault>
    ensures { AddsLines K.Sink sink.old sink.new result (setting_lines policy budget plan.now) }
{
    write_policy(sink, policy)?;
    write_line(sink, &[Text(b"budget"), Number(budget)])?;
    write_schedule(sink, plan)
}

#[tactic(auto, unfolding(crate::specs::Printed::policy_line))]
fn write_policy<K: Sink>(sink: &mut K, policy: PolicyKind) -> Result<(), WriteFault>
    ensures { AddsLines K.Sink sink.old sink.new result (policy_line policy ∷ []) }
{
    match policy {
        PolicyKind::Place => write_line(sink, &[Text(b"policy"), Text(b"place")]),
        PolicyKind::Replicate => write_line(sink, &[Text(b"policy"), Text(b"replicate")]),
        PolicyKind::Platinum { t1, t2 } => write_line(
            sink,
            &[Text(b"policy"), Text(b"platinum"), Number(t1), Number(t2)],
        ),
    }
}

#[tactic(auto, unfolding(crate::specs::Printed::schedule_line))]
fn write_schedule<K: Sink>(sink: &mut K, plan: &Plan) -> Result<(), WriteFault>
    ensures { AddsLines K.Sink sink.old sink.new result (schedule_line plan.now ∷ []) }
{
    match plan {
        Plan::Robin => write_line(sink, &[Text(b"schedule"), Text(b"robin")]),
        Plan::Random { a, b } => write_line(
            sink,
            &[Text(b"schedule"), Text(b"random"), Number(*a), Number(*b)],
        ),
        Plan::Listed(actors) => write_list_line(
            sink,
            &[Text(b"schedule"), Text(b"list")],
            actors.as_slice(),
        ),
    }
}

/// Writes the lines from the distances on.
#[tactic(auto, using(plat_io::proofs::LineLemmas::lines))]
fn write_body<K: Sink>(
    sink: &mut K,
    distances: &[Distance],
    entries: &[Entry],
    inits: &[Init],
    guests: &[GuestText],
) -> Result<(), WriteFault>
    requires { IsTrue (list_all is_program (programs_seen guests.now)) }
    ensures { AddsLines K.Sink sink.old sink.new result
        (body_lines distances.now entries.now inits.now guests.now) }
{
    write_distances(sink, distances)?;
    write_entries(sink, entries)?;
    write_inits(sink, inits)?;
    write_guests(sink, guests)?;
    write_line(sink, &[Text(b"end")])
}

#[tactic(auto, using(plat_io::proofs::LineLemmas::looped_lines))]
fn write_distances<K: Sink>(sink: &mut K, distances: &[Distance]) -> Result<(), WriteFault>
    ensures { AddsLines K.Sink sink.old sink.new result (map distance_words distances.now) }
{
    for distance in distances {
        let Distance { a, b, d } = *distance;
        write_line(sink, &[Text(b"distance"), Number(a), Number(b), Number(d)])?;
    }
    Ok(())
}

#[tactic(auto, using(plat_io::proofs::LineLemmas::looped_lines))]
fn write_entries<K: Sink>(sink: &mut K, entries: &[Entry]) -> Result<(), WriteFault>
    ensures { AddsLines K.Sink sink.old sink.new result (map entry_words entries.now) }
{
    for entry in entries {
        let Entry { space, vpage, page } = *entry;
        write_line(
            sink,
            &[Text(b"map"), Number(space), Number(vpage), Number(page)],
        )?;
    }
    Ok(())
}

#[tactic(auto, using(plat_io::proofs::LineLemmas::looped_lines))]
fn write_inits<K: Sink>(sink: &mut K, inits: &[Init]) -> Result<(), WriteFault>
    ensures { AddsLines K.Sink sink.old sink.new result (map init_words inits.now) }
{
    for init in inits {
        let Init { page, word, value } = *init;
        write_line(
            sink,
            &[Text(b"init"), Number(page), Number(word), Number(value)],
        )?;
    }
    Ok(())
}

#[tactic(auto, using(plat_io::proofs::LineLemmas::looped_lines, crate::proofs::PrintLimits::guest_within))]
fn write_guests<K: Sink>(sink: &mut K, guests: &[GuestText]) -> Result<(), WriteFault>
    requires { IsTrue (list_all is_program (programs_seen guests.now)) }
    ensures { AddsLines K.Sink sink.old sink.new result (flat_map guest_lines guests.now) }
{
    for guest in guests {
        write_guest(sink, guest)?;
    }
    Ok(())
}
