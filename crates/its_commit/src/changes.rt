//! The changes of a call, each performed on the world.

ghost use Rattle.std.specs.Prelude.{◌≡◌, ◌<◌, ◌^◌, true, None, Some, [], ◌∷◌, is_some, length, option_map};
ghost use Rattle.its_word.specs.Console.{most_waiting};
ghost use Rattle.its_records.specs.Links.{most_links, most_link_words};
ghost use Rattle.its_word.specs.Core.{can_store};
ghost use Rattle.its_records.specs.Tree.{least_free};
ghost use Rattle.its_core.specs.Frames.{frames_map, frames_unmap};
ghost use Rattle.its_plain.specs.Call.Link.{words_in};
ghost use Rattle.its_plain.specs.Machine.Change.{console_in, on_console, on_link, poke, with_protection, after_put, after_take, with_alarm, with_inf, with_page_at, with_received, with_sent};
ghost use Rattle.its_frame.specs.declared.change.Change.TheVariants.{Make, Map, Open};
ghost use Rattle.its_plain.specs.Machine.{Shut, changed, core_of, limit};
ghost use Rattle.its_plain.specs.Machine.Own.{with_registers, with_stores, with_variable};
ghost use Rattle.its_stepped.specs.Commit.{effect_on, effects_on};
ghost use Rattle.its_stepped.specs.Lines.{with_raw};
ghost use Rattle.its_world.specs.Tidy.{Tidy};
ghost use Rattle.its_shared.specs.Can.{HasPage};
ghost use Rattle.its_commit.specs.Built.{CanMake, CanMakeAll, CanOpen, Maps};
ghost use Rattle.its_commit.specs.Pages.{all_pages_changed, pages_changed};
ghost use Rattle.its_world.specs.Storage.{HasJob, chan_in};
ghost use Rattle.its_world.specs.World.{state_of, in_raw};

use super::removal::remove_tree;
use its_core::Full;
use its_frame::{Change, Opened, Variable};
use its_jobs::NoSlot;
use its_records::{Channel, Job};
use its_word::{ConsoleNumber, INF, Slot, Word, flags_in};
use its_world::World;

/// Makes the changes of a call of slot's job, in their order.
#[tactic(auto, using(crate::proofs::ChangeLaws::next_made, crate::proofs::ChangeLaws::pages_next, crate::proofs::ChangeLaws::can_first, crate::proofs::ChangeLaws::can_next))]
pub fn apply(w: &mut World, slot: Slot, changes: &[Change])
    requires can { CanMakeAll changes.now slot (state_of w.old) }
    requires tidy { Tidy w.old }
    ensures row { state_of w.new ≡ effects_on changes.now slot (state_of w.old) }
    ensures pages { w.new.core.frames ≡ all_pages_changed changes.now slot (state_of w.old) w.old.core.frames }
    ensures tidy { Tidy w.new }
{
    for change in changes {
        apply_one(w, slot, change);
    }
}

/// Makes one change.
#[inline(never)]
#[tactic(auto, unfolding(its_stepped::specs::Commit::effect_on, its_plain::specs::Machine::Change::effect))]
fn apply_one(w: &mut World, slot: Slot, change: &Change)
    requires can { CanMake change.now slot (state_of w.old) }
    requires tidy { Tidy w.old }
    ensures row { state_of w.new ≡ effect_on change.now slot (state_of w.old) }
    ensures pages { w.new.core.frames ≡ pages_changed change.now slot (state_of w.old) w.old.core.frames }
    ensures tidy { Tidy w.new }
{
    match change {
        Change::Open { channel, on } => open(w, slot, *channel, *on),
        Change::Shut { channel } => w.shut(slot, *channel),
        Change::Move { channel, at } => w.move_to(slot, *channel, *at),
        Change::Append { channel, word } => w.append(slot, *channel, *word),
        Change::Close { channel } => w.begin_close(slot, *channel),
        Change::Delete { d, x, y } => w.delete_file(*d, *x, *y),
        Change::Rename {
            d,
            x,
            y,
            new_x,
            new_y,
        } => w.rename_file(*d, *x, *y, *new_x, *new_y),
        Change::Take { console } => take(w, ConsoleNumber::new(*console)),
        Change::Put { console, byte } => put(w, ConsoleNumber::new(*console), *byte),
        Change::Hold { console, slot: s } => hold(w, ConsoleNumber::new(*console), *s),
        Change::Inform { slot: s } => inform(w, *s),
        Change::Arm { alarm } => arm(w, slot, *alarm),
        Change::Join {
            channel,
            link,
            write,
            x,
            y,
        } => w.join(slot, *channel, *link, *write, *x, *y),
        Change::CloseEnd {
            channel,
            link,
            write,
        } => w.close_link(slot, *channel, *link, *write),
        Change::Send { link, word } => send(w, *link, *word),
        Change::Receive { link } => receive(w, *link),
        Change::Set {
            slot: s,
            variable,
            value,
        } => set(w, *s, *variable, *value),
        Change::Poke { slot: s, at, word } => poke(w, Slot::new(*s), *at, *word),
        Change::Make { slot: s, u, j } => make(w, slot, *s, *u, *j),
        Change::Remove { slot: s } => remove_tree(w, Slot::new(*s)),
        Change::Map { slot: s, page } => map(w, slot, *s, *page),
        Change::Unmap { slot: s, page } => unmap(w, *s, *page),
        Change::Protect {
            slot: s,
            page,
            writable,
        } => protect(w, *s, *page, *writable),
    }
}

/// Makes one change, of those that SIOT makes in place (`apply_one`).
#[inline(always)]
#[tactic(auto, unfolding(its_stepped::specs::Commit::effect_on, its_plain::specs::Machine::Change::effect))]
pub fn apply_part(w: &mut World, slot: Slot, change: Change)
    requires can { CanMake change slot (state_of w.old) }
    requires tidy { Tidy w.old }
    ensures row { state_of w.new ≡ effect_on change slot (state_of w.old) }
    ensures pages { w.new.core.frames ≡ pages_changed change slot (state_of w.old) w.old.core.frames }
    ensures tidy { Tidy w.new }
{
    match change {
        Change::Move { channel, at } => w.move_to(slot, channel, at),
        Change::Append { channel, word } => w.append(slot, channel, word),
        Change::Take { console } => take(w, ConsoleNumber::new(console)),
        Change::Put { console, byte } => put(w, ConsoleNumber::new(console), byte),
        Change::Send { link, word } => send(w, link, word),
        Change::Receive { link } => receive(w, link),
        other => apply_one(w, slot, &other),
    }
}

/// Opens a closed channel of a slot's job on a console, a file, a new draft or another job.
#[tactic(auto, using(crate::proofs::ChangeLaws::closed_elsewhere), unfolding(its_stepped::specs::Commit::effect_on, its_plain::specs::Machine::Change::effect))]
fn open(w: &mut World, slot: Slot, n: u8, on: Opened)
    requires number { n < 16 }
    requires job { HasJob (state_of w.old) slot }
    requires closed { chan_in (state_of w.old) slot n ≡ Shut }
    requires can { CanOpen on (state_of w.old) }
    requires tidy { Tidy w.old }
    ensures row { state_of w.new ≡ effect_on (Open n on) slot (state_of w.old) }
    ensures pages { w.new.core.frames ≡ w.old.core.frames }
    ensures tidy { Tidy w.new }
{
    match on {
        Opened::TtyIn => w.put_channel(slot, n, Channel::TtyIn),
        Opened::TtyOut => w.put_channel(slot, n, Channel::TtyOut),
        Opened::Reading { d, x, y } => w.open_file(slot, n, d, x, y),
        Opened::Writing { d, x, y } => w.open_draft(slot, n, d, x, y),
        Opened::Usr { slot: s, write } => w.put_channel(
            slot,
            n,
            Channel::Usr {
                slot: s,
                write,
                at: 0,
            },
        ),
    }
}

/// Takes the first byte of a console's input.
#[tactic(auto, using(crate::proofs::TidyLaws::console_pages, crate::proofs::ChangeLaws::byte_taken, crate::proofs::TidyLaws::tidy_console))]
fn take(w: &mut World, console: ConsoleNumber)
    requires tidy { Tidy w.old }
    ensures row { state_of w.new ≡ with_raw (state_of w.old) (on_console (state_of w.old).raw console after_take) }
    ensures pages { w.new.core.frames ≡ w.old.core.frames }
    ensures tidy { Tidy w.new }
{
    w.take(console);
}

/// Puts a byte at the end of a console's output, which has room.
#[tactic(auto, using(crate::proofs::TidyLaws::console_pages, crate::proofs::ChangeLaws::byte_put, crate::proofs::ChangeLaws::console_room, crate::proofs::TidyLaws::tidy_console))]
fn put(w: &mut World, console: ConsoleNumber, byte: u8)
    requires room { length ((state_of w.old).raw.consoles console).output < most_waiting }
    requires tidy { Tidy w.old }
    ensures row { state_of w.new ≡ with_raw (state_of w.old) (on_console (state_of w.old).raw console (after_put byte)) }
    ensures pages { w.new.core.frames ≡ w.old.core.frames }
    ensures tidy { Tidy w.new }
{
    w.put(console, byte);
}

/// Puts a word at the end of a link, which has room.
#[tactic(auto, using(crate::proofs::Groups::send_laws))]
fn send(w: &mut World, link: u8, word: Word)
    requires link { link < most_links }
    requires stands { is_some ((state_of w.old).raw.links link) ≡ true }
    requires room { length (words_in ((state_of w.old).raw.links link)) < most_link_words }
    requires tidy { Tidy w.old }
    ensures row { state_of w.new ≡ with_raw (state_of w.old) (on_link (state_of w.old).raw link (option_map (with_sent word))) }
    ensures pages { w.new.core.frames ≡ w.old.core.frames }
    ensures tidy { Tidy w.new }
{
    w.send(link, word);
}

/// Takes the first word of a link.
#[tactic(auto, using(crate::proofs::TidyLaws::link_pages, crate::proofs::ChangeLaws::word_received, its_world::proofs::LinkLaws::link_tidy))]
fn receive(w: &mut World, link: u8)
    requires link { link < most_links }
    requires tidy { Tidy w.old }
    ensures row { state_of w.new ≡ with_raw (state_of w.old) (on_link (state_of w.old).raw link (option_map with_received)) }
    ensures pages { w.new.core.frames ≡ w.old.core.frames }
    ensures tidy { Tidy w.new }
{
    w.receive(link);
}

/// Makes a slot's job the holder of a console.
#[tactic(auto, using(crate::proofs::TidyLaws::holder_pages, its_world::proofs::StateLaws::holder_state, crate::proofs::TidyLaws::tidy_holder))]
fn hold(w: &mut World, console: ConsoleNumber, slot: u8)
    requires tidy { Tidy w.old }
    ensures row { state_of w.new ≡ with_raw (state_of w.old) (record (state_of w.old).raw { holders = changed (state_of w.old).raw.holders console (Some slot) }) }
    ensures pages { w.new.core.frames ≡ w.old.core.frames }
    ensures tidy { Tidy w.new }
{
    w.hold(console, Some(slot));
}

/// Sets INF in a slot's job, if it has one.
#[tactic(auto, using(crate::proofs::TidyLaws::becomes_pages, crate::proofs::ChangeLaws::inf_set, crate::proofs::ChangeLaws::inf_missing))]
fn inform(w: &mut World, slot: u8)
    requires tidy { Tidy w.old }
    ensures row { state_of w.new ≡ in_raw (state_of w.old) slot with_inf }
    ensures pages { w.new.core.frames ≡ w.old.core.frames }
    ensures tidy { Tidy w.new }
{
    if let Some(mut job) = w.jobs.numbered(slot).copied() {
        job.pend1 = job.pend1 | Word::new(INF);
        w.put_registers(Slot::new(slot), job);
    }
}

/// Gives a slot's job another alarm, or none.
#[tactic(auto, using(its_world::proofs::AlarmLaws::alarm_state, crate::proofs::ChangeLaws::armed_missing, crate::proofs::ChangeLaws::armed_tidy, crate::proofs::ChangeLaws::armed_pages))]
fn arm(w: &mut World, slot: Slot, alarm: Option<(u64, u64)>)
    requires tidy { Tidy w.old }
    ensures row { state_of w.new ≡ in_raw (state_of w.old) slot (with_alarm alarm) }
    ensures pages { w.new.core.frames ≡ w.old.core.frames }
    ensures tidy { Tidy w.new }
{
    if w.registers(slot).is_some() {
        w.put_alarm(slot, alarm);
    }
}

/// Stores a word of a slot's job.
#[tactic(auto, using(crate::proofs::TidyLaws::becomes_pages))]
fn poke(w: &mut World, slot: Slot, at: u32, word: Word)
    requires address { at < 2 ^ 18 }
    requires can { can_store (core_of ((state_of w.old).raw.jobs slot)) at ≡ true }
    requires job { HasJob (state_of w.old) slot }
    requires tidy { Tidy w.old }
    ensures row { state_of w.new ≡ in_raw (state_of w.old) slot (with_stores (poke at word ∷ [])) }
    ensures pages { w.new.core.frames ≡ w.old.core.frames }
    ensures tidy { Tidy w.new }
{
    w.store(slot, at, word);
}

/// Makes an inferior of a slot's job in the least free slot, with these names and the console of
/// its superior.
fn make(w: &mut World, maker: Slot, slot: u8, u: Word, j: Word)
    requires job { HasJob (state_of w.old) maker }
    requires free { least_free (limit (state_of w.old).raw) (state_of w.old).raw.jobs ≡ Some slot }
    requires tidy { Tidy w.old }
    ensures row { state_of w.new ≡ effect_on (Make slot u j) maker (state_of w.old) }
    ensures pages { w.new.core.frames ≡ w.old.core.frames }
    ensures tidy { Tidy w.new }
{
    let console = console_of(w, maker);
    match w.jobs.create(u, j, Some(maker), console) {
        Ok(_) => {}
        Err(NoSlot) => unreachable!(),
    }
}

/// The console of a slot's job.
fn console_of(w: &World, slot: Slot) -> Option<u8>
    ensures { result ≡ console_in ((state_of w.now).raw.jobs slot) }
{
    match w.jobs.job(slot) {
        Some(job) => job.console,
        None => None,
    }
}

/// The page that a slot has reserved, which is clear, becomes a page of a target.
#[tactic(auto, using(crate::proofs::Groups::map_laws))]
fn map(w: &mut World, slot: Slot, target: u8, page: u8)
    requires can { Maps (state_of w.old) slot target page }
    requires tidy { Tidy w.old }
    ensures row { state_of w.new ≡ effect_on (Map target page) slot (state_of w.old) }
    ensures pages { w.new.core.frames ≡ frames_map slot target page w.old.core.frames }
    ensures tidy { Tidy w.new }
{
    match w.core.map(slot, Slot::new(target), page) {
        Ok(()) => {}
        Err(Full) => unreachable!(),
    }
}

/// A page of a slot's job is dropped.
#[tactic(auto, using(crate::proofs::ChangeLaws::page_there))]
fn unmap(w: &mut World, slot: u8, page: u8)
    requires can { HasPage (state_of w.old).raw slot page }
    requires tidy { Tidy w.old }
    ensures row { state_of w.new ≡ in_raw (state_of w.old) slot (with_page_at page None) }
    ensures pages { w.new.core.frames ≡ frames_unmap slot page w.old.core.frames }
    ensures tidy { Tidy w.new }
{
    w.core.unmap(Slot::new(slot), page);
}

/// A page of a slot's job is made writable or read only.
#[tactic(auto, using(crate::proofs::ChangeLaws::page_there))]
fn protect(w: &mut World, slot: u8, page: u8, writable: bool)
    requires can { HasPage (state_of w.old).raw slot page }
    requires tidy { Tidy w.old }
    ensures row { state_of w.new ≡ in_raw (state_of w.old) slot (with_protection page writable) }
    ensures pages { w.new.core.frames ≡ w.old.core.frames }
    ensures tidy { Tidy w.new }
{
    w.core.protect(Slot::new(slot), page, writable);
}

/// Sets a variable of a slot's job, if it has one.
#[tactic(auto, using(crate::proofs::TidyLaws::becomes_pages, crate::proofs::ChangeLaws::variable_set, crate::proofs::ChangeLaws::variable_missing))]
fn set(w: &mut World, slot: u8, variable: Variable, value: Word)
    requires tidy { Tidy w.old }
    ensures row { state_of w.new ≡ in_raw (state_of w.old) slot (with_registers (with_variable variable value)) }
    ensures pages { w.new.core.frames ≡ w.old.core.frames }
    ensures tidy { Tidy w.new }
{
    if let Some(job) = w.jobs.numbered(slot).copied() {
        w.put_registers(Slot::new(slot), with_variable(job, variable, value));
    }
}

/// Registers with a variable set; of UPC the flags are taken too, and a value of USTP other than 0
/// stops.
#[tactic(auto, unfolding(its_plain::specs::Machine::Own::with_variable))]
fn with_variable(job: Job, variable: Variable, value: Word) -> Job
    ensures { result ≡ with_variable variable value job }
{
    match variable {
        Variable::Upc => Job {
            pc: value.right(),
            flags: flags_in(value),
            ..job
        },
        Variable::Ustp => Job {
            stopped: value != Word::ZERO,
            ..job
        },
        Variable::Pirqc => Job {
            pend1: value,
            ..job
        },
        Variable::Ifpir => Job {
            pend2: value,
            ..job
        },
        Variable::Mask => Job {
            mask1: value,
            ..job
        },
        Variable::Msk2 => Job {
            mask2: value,
            ..job
        },
        Variable::Df1 => Job {
            defer1: value,
            ..job
        },
        Variable::Df2 => Job {
            defer2: value,
            ..job
        },
        Variable::Uname => job,
        Variable::Jname => job,
        Variable::Uind => job,
        Variable::Suppro => job,
        Variable::Cnsl => job,
        Variable::Pages => job,
    }
}
