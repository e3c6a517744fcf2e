//! Messages: the shootdown of a page by interrupts, and what waits for a processor that switches.
ghost use Rattle.std.specs.Prelude.{◌≡◌, ◌+◌, ◌<◌, ◌≤◌, length, ◌++◌, Some};
ghost use Rattle.plat_base.specs.Ends.{is_live as is_live_of};
ghost use Rattle.plat_base.specs.Messages.{is_target as is_target_of, owed_for, owed, removes_some, message_of};
ghost use Rattle.plat_base.specs.Pages.{entries_of_page, entries_of_space};
ghost use Rattle.plat_base.specs.Seen.{machine};
ghost use Rattle.plat_chronicle.specs.Chronicle.{HasAdded, HasRoom};
ghost use Rattle.plat_coarse.specs.Running.{state_of, entry_interrupts_now, interrupts_now, switch_items_now};

use plat_base::{Applied, Config, End, Ended, Message, Moment, Removed, Switch, Translation};
use plat_chronicle::Chronicle;

/// Whether a change removes something.
fn removes_some(removed: Removed) -> bool
    ensures { result ≡ removes_some removed }
{
    match removed {
        Removed::Nothing => false,
        Removed::Writes | Removed::All => true,
    }
}

/// The message that tells of what a change removes.
fn message_of_removed(removed: Removed) -> Message
    ensures { result ≡ message_of removed }
{
    match removed {
        Removed::All => Message::Invalidate,
        Removed::Nothing | Removed::Writes => Message::Restrict,
    }
}

/// Whether processor `q` has not ended.
pub fn is_live(ends: &[Ended], q: u32) -> bool
    ensures { result ≡ is_live_of ends.now q }
{
    ends.get(q as usize)
        .is_some_and(|ended| ended.end == End::Cut)
}

/// Whether processor `r`, other than the initiator, is live, active in the entry's space, and holds the entry.
fn is_target(chronicle: &Chronicle, ends: &[Ended], initiator: u32, entry: u32, r: u32) -> bool
    requires processor { r < chronicle.now.machine.nodes }
    requires entry { entry < length chronicle.now.machine.entries }
    ensures { result ≡ is_target_of chronicle.now.machine (state_of chronicle.now ends.now) initiator entry
        r }
{
    let space = chronicle.config().space_of(entry);
    r != initiator
        && is_live(ends, r)
        && chronicle.held(r, entry).is_some()
        && chronicle.active(r) == space
}

/// Interrupts the other processors for one entry.
fn interrupt_entry(
    chronicle: &mut Chronicle,
    ends: &[Ended],
    initiator: u32,
    entry: u32,
    removed: Removed,
)
    requires entry { entry < length chronicle.old.machine.entries }
    requires room { HasRoom chronicle.old
        (entry_interrupts_now chronicle.old ends.now initiator entry removed) }
    ensures { HasAdded chronicle.old chronicle.new
        (entry_interrupts_now chronicle.old ends.now initiator entry removed) }
{
    let message = message_of_removed(removed);
    for r in 0..chronicle.config().nodes {
        if is_target(chronicle, ends, initiator, entry, r) {
            chronicle.add_applied(Applied {
                actor: r,
                entry,
                message,
                moment: Moment::Interrupt,
            });
        }
    }
}

/// Interrupts the other processors before a change of a page that removes something: over the page's entries in rising
/// number, and for each over the processors in rising number. Entries of other pages cost nothing.
pub fn interrupt(
    chronicle: &mut Chronicle,
    ends: &[Ended],
    initiator: u32,
    page: u32,
    removed: Removed,
)
    requires room { HasRoom chronicle.old (interrupts_now chronicle.old ends.now initiator page removed) }
    ensures { HasAdded chronicle.old chronicle.new
        (interrupts_now chronicle.old ends.now initiator page removed) }
{
    if !removes_some(removed) {
        return;
    }
    for place in 0..chronicle.config().entries_of_page(page).len() {
        let entry = chronicle.config().entries_of_page(page)[place];
        interrupt_entry(chronicle, ends, initiator, entry, removed);
    }
}

/// The message that processor `q` still has to apply to this translation of a page.
fn owed_for(chronicle: &Chronicle, q: u32, page: u32, translation: Translation) -> Option<Message>
    requires { page < chronicle.now.machine.pages }
    ensures { result ≡ owed_for chronicle.now.items q page (Some translation) }
{
    if chronicle.removed_all(q, page, translation.seq) {
        Some(Message::Invalidate)
    } else if !translation.restricted && chronicle.removed_writes(q, page, translation.seq) {
        Some(Message::Restrict)
    } else {
        None
    }
}

/// The message that processor `q` still has to apply to its translation of an entry.
fn owed_message(chronicle: &Chronicle, q: u32, entry: u32) -> Option<Message>
    requires processor { q < chronicle.now.machine.nodes }
    requires entry { entry < length chronicle.now.machine.entries }
    ensures { result ≡ owed chronicle.now.machine chronicle.now.items q entry }
{
    let page = chronicle.config().page_of(entry);
    let translation = chronicle.held(q, entry)?;
    owed_for(chronicle, q, page, translation)
}

/// Switches processor `q` to a space, and applies what waits for the entries of that space, in rising number. Entries of
/// other spaces cost nothing.
pub fn switch(chronicle: &mut Chronicle, q: u32, space: u32)
    requires processor { q < chronicle.old.machine.nodes }
    requires room { HasRoom chronicle.old (switch_items_now chronicle.old q space) }
    ensures { HasAdded chronicle.old chronicle.new (switch_items_now chronicle.old q space) }
{
    chronicle.add_switch(Switch { actor: q, space });
    for place in 0..chronicle.config().entries_of_space(space).len() {
        let entry = chronicle.config().entries_of_space(space)[place];
        if let Some(message) = owed_message(chronicle, q, entry) {
            chronicle.add_applied(Applied {
                actor: q,
                entry,
                message,
                moment: Moment::Activation,
            });
        }
    }
}
