//! The lines of the state part, each of which restores one thing of a system that was saved.
ghost use Rattle.std.specs.Prelude.{◌≡◌};
ghost use Rattle.its_records.specs.declared.session.Event.TheVariants as events;
ghost use Rattle.its_records.specs.declared.state_line.StateLine.TheVariants as states;
ghost use Rattle.its_session.specs.StateFits.{StateFits};
ghost use Rattle.its_world.specs.World.{state_of};
ghost use Rattle.its_monitor.specs.Kept.{Kept};
ghost use Rattle.its_top.specs.Answer.{FindsStart, block_of};
ghost use Rattle.its_top.specs.Performing.{Performed};

use crate::sessions::filing::{add_words, make_file};
use crate::sessions::loading::load_words;
use crate::sessions::performing::quiet;
use crate::sessions::progress::Progress;
use crate::sessions::shown::{Over, Shown};
use its_monitor::Monitor;
use its_records::StateLine;
use its_word::{ConsoleNumber, Slot, Word};

/// Performs a line of the state part. It shows nothing.
pub fn restore<'a>(m: &mut Monitor, p: &mut Progress, line: &StateLine) -> Result<Shown<'a>, Over>
    requires sound { Kept m.old.world }
    requires fits { StateFits 2 line.now }
    requires start { FindsStart (events.Restore line.now) (state_of m.old.world) }
    ensures performed { Performed result (state_of m.old.world) (block_of p.old.slot p.old.file) (events.Restore line.now) m.new.world (block_of p.new.slot p.new.file) }
    ensures sound { Kept m.new.world }
    ensures kept { p.new.number ≡ p.old.number }
{
    match line {
        StateLine::System { v } => {
            m.version(*v);
            p.leave_block();
            Ok(Shown::Nothing)
        }
        StateLine::Clock { n } => quiet(m.advance(*n)),
        StateLine::File { d, x, y } => make_file(m, p, *d, *x, *y),
        StateLine::FileWords { words } => quiet(add_words(m, p.file, words)),
        StateLine::Job { s, u, j, console } => make_job(m, p, *s, *u, *j, *console),
        StateLine::CoreWords { a, words } => quiet(load_words(m, p.slot, *a, words)),
        StateLine::ReadOnly { page } => quiet(m.read_only(p.slot, *page)),
        StateLine::Symbol { name, a } => quiet(m.symbol(p.slot, *name, *a)),
        StateLine::Regs { registers } => quiet(m.set_registers(p.slot, registers)),
        StateLine::Alarm { s, period, next } => quiet(m.set_alarm(*s, *period, *next)),
        StateLine::Under { s, t } => quiet(m.set_superior(*s, *t)),
        StateLine::Tty { s, n, write } => quiet(m.open_tty(*s, *n, *write)),
        StateLine::Disk { s, n, d, x, y, at } => quiet(m.open_disk(*s, *n, *d, *x, *y, *at)),
        StateLine::Draft { s, n, d, x, y } => quiet(m.open_draft(*s, *n, *d, *x, *y)),
        StateLine::Wrote { s, n, words } => quiet(m.write_draft(*s, *n, words)),
        StateLine::Usr { s, n, t, write, at } => quiet(m.open_usr(*s, *n, *t, *write, *at)),
        StateLine::Join {
            s,
            n,
            l,
            write,
            x,
            y,
        } => { quiet(m.open_link(*s, *n, *l, *write, *x, *y)) }
        StateLine::Sent { l, words } => quiet(m.send_words(*l, words)),
        StateLine::EndShut { l, write } => quiet(m.shut_end(*l, *write)),
        StateLine::Input { c, bytes } => quiet(m.put_input(*c, bytes)),
        StateLine::Output { c, bytes } => quiet(m.put_output(*c, bytes)),
        StateLine::Hold { c, s } => quiet(m.set_holder(*c, *s)),
        StateLine::Turn { .. } => Ok(Shown::Nothing),
        StateLine::Ready => {
            p.leave_block();
            Ok(Shown::Nothing)
        }
    }
}

/// JOB: makes a job, which is then the block's.
fn make_job<'a>(
    m: &mut Monitor,
    p: &mut Progress,
    s: Slot,
    u: Word,
    j: Word,
    console: Option<ConsoleNumber>,
) -> Result<Shown<'a>, Over>
    requires sound { Kept m.old.world }
    ensures performed { Performed result (state_of m.old.world) (block_of p.old.slot p.old.file) (events.Restore (states.Job s u j console)) m.new.world (block_of p.new.slot p.new.file) }
    ensures sound { Kept m.new.world }
    ensures kept { p.new.number ≡ p.old.number }
{
    match m.make_job(s, u, j, console) {
        Ok(()) => {
            p.slot = s;
            Ok(Shown::Nothing)
        }
        Err(e) => Err(Over::Refused(e)),
    }
}
