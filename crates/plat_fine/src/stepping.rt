//! One event of one actor, and the item that it adds.
ghost use Rattle.std.specs.Prelude.{◌≡◌, ◌<◌, false, length, Some, slice_get, slice_set};
ghost use Rattle.plat_base.specs.Seen.{machine};
ghost use Rattle.plat_events.specs.Places.{word_count};
ghost use Rattle.plat_events.specs.Privates.{is_over};
ghost use Rattle.plat_daemon.specs.Fits.{Fits, HasStepped};
ghost use Rattle.plat_fine.specs.Crew.{HasMoved, IsCrew, item_since, proc_at};

use plat_base::{Config, Item};
use plat_daemon::Daemon;
use plat_ports::VecPort;
use plat_proc::Proc;

/// The next event of a processor, and the item that it adds, if any.
pub fn step(procs: &mut Vec<Proc>, cfg: &Config, port: &mut VecPort, q: u32) -> Option<Item>
    requires processor { q < length procs.old.items }
    requires crew { IsCrew (machine cfg.now) procs.old.items }
    requires live { is_over (proc_at procs.old.items q).state.place ≡ false }
    requires words { length port.old ≡ word_count (machine cfg.now) }
    ensures others { procs.new.items ≡ slice_set procs.old.items q (proc_at procs.new.items q) }
    ensures event { HasMoved (machine cfg.now) q procs.old.items procs.new.items port.old port.new }
    ensures item { result ≡ item_since q procs.old.items procs.new.items }
    ensures crew { IsCrew (machine cfg.now) procs.new.items }
    ensures words { length port.new ≡ word_count (machine cfg.now) }
{
    let proc = &mut procs[q as usize];
    let before = proc.journal().len();
    proc.step(cfg, port);
    proc.journal().get(before).copied()
}

/// The next event of the daemon, and the item that it adds, if any.
pub fn sweep(daemon: &mut Daemon, cfg: &Config, port: &mut VecPort) -> Option<Item>
    requires live { is_over daemon.old.place ≡ false }
    requires fits { Fits (machine cfg.now) daemon.old }
    requires words { length port.old ≡ word_count (machine cfg.now) }
    ensures event { HasStepped (machine cfg.now) daemon.old daemon.new (Some port.old) (Some port.new) }
    ensures item { result ≡ slice_get daemon.new.journal (length daemon.old.journal) }
    ensures fits { Fits (machine cfg.now) daemon.new }
    ensures words { length port.new ≡ word_count (machine cfg.now) }
{
    let before = daemon.journal().len();
    daemon.step(cfg, port);
    daemon.journal().get(before).copied()
}
