//! The lines of the state part on channels and links: DSK, DRAFT, WROTE, USR, LNK, SENT and SHUT.
ghost use Rattle.std.specs.Prelude.{◌≡◌, ◌≤◌, ◌<◌, true, None, Ok, Err, IfErr, IsOk, OnErr, OnOk, is_some, length, option_map};
ghost use Rattle.its_records.specs.Links.{most_links, most_link_words};
ghost use Rattle.its_records.specs.Refusals.{reason_of};
ghost use Rattle.its_jobs.specs.Table.{job_at};
ghost use Rattle.its_plain.specs.Call.Link.{words_in};
ghost use Rattle.its_plain.specs.Machine.{Machine, Shut};
ghost use Rattle.its_plain.specs.Machine.Change.{on_link, superiors, with_sent};
ghost use Rattle.its_plain.specs.Machine.Own.{names_of};
ghost use Rattle.its_plain.specs.Operator.State.{can_open, is_slot, provided, with_all_written, with_disk, with_draft, with_end_shut, with_link, with_usr, with_words_sent, with_words_written};
ghost use Rattle.its_stepped.specs.Lines.{with_raw};
ghost use Rattle.its_stepped.specs.Unwind.{help, unwound};
ghost use Rattle.its_world.specs.Storage.{HasJob, chan_in};
ghost use Rattle.its_world.specs.Tidy.{Tidy};
ghost use Rattle.its_world.specs.World.{plain_of, state_of};
ghost use Rattle.its_monitor.specs.Kept.{FileRefused, Kept, Lands, Refused};

use super::filing::help;
use super::monitor::Monitor;
use super::words::{calm, present};
use its_records::{Channel, LINK_WORDS, Refusal};
use its_word::{Slot, Word, within};
use its_world::World;

impl Monitor {
    /// DSK: opens a channel of a slot's job on a file, from a word on. NoJob if the slot is empty,
    /// Exists if the channel is open, NoFile if there is no such file. The pending parts of a close
    /// are performed first.
    pub fn open_disk(
        &mut self,
        s: Slot,
        n: u8,
        d: Word,
        x: Word,
        y: Word,
        at: u32,
    ) -> Result<(), Refusal>
        requires channel { n < 16 }
        requires kept { Kept self.old.world }
        ensures done { OnOk result (Lands (unwound (help (state_of self.old.world)) s) (state_of self.new.world) (with_disk (unwound (help (state_of self.old.world)) s).raw s n (names_of d x y) at)) }
        ensures plain { OnOk result (with_disk (plain_of self.old.world) s n (names_of d x y) at ≡ Ok (plain_of self.new.world)) }
        ensures refused { IfErr result (λ e. FileRefused (state_of self.old.world) (λ m. with_disk m s n (names_of d x y) at) e) }
        ensures state { OnErr result (state_of self.new.world ≡ help (state_of self.old.world)) }
        ensures kept { Kept self.new.world }
    {
        let world = &mut self.world;
        help(world);
        closed(world, s, n)?;
        if world.files.find(d, x, y).is_none() {
            return Err(Refusal::NoFile);
        }
        calm(world, s);
        put_disk(world, s, n, d, x, y, at);
        Ok(())
    }

    /// DRAFT: opens a channel of a slot's job on a draft of no words. NoJob if the slot is empty,
    /// Exists if the channel is open. The pending parts of a close are performed first.
    pub fn open_draft(&mut self, s: Slot, n: u8, d: Word, x: Word, y: Word) -> Result<(), Refusal>
        requires channel { n < 16 }
        requires kept { Kept self.old.world }
        ensures done { OnOk result (Lands (unwound (help (state_of self.old.world)) s) (state_of self.new.world) (with_draft (unwound (help (state_of self.old.world)) s).raw s n (names_of d x y))) }
        ensures plain { OnOk result (with_draft (plain_of self.old.world) s n (names_of d x y) ≡ Ok (plain_of self.new.world)) }
        ensures refused { IfErr result (λ e. FileRefused (state_of self.old.world) (λ m. with_draft m s n (names_of d x y)) e) }
        ensures state { OnErr result (state_of self.new.world ≡ help (state_of self.old.world)) }
        ensures kept { Kept self.new.world }
    {
        let world = &mut self.world;
        help(world);
        closed(world, s, n)?;
        calm(world, s);
        put_draft(world, s, n, d, x, y);
        Ok(())
    }

    /// WROTE: adds words, of which there is at least one, to the end of the draft of a channel of a
    /// slot's job. NoJob if the slot is empty, Unfit if the channel is on no draft, Full if the
    /// words need more blocks than are unused; then none of them is added. The pending parts of a
    /// close are performed first.
    pub fn write_draft(&mut self, s: Slot, n: u8, words: &[Word]) -> Result<(), Refusal>
        requires channel { n < 16 }
        requires some { 1 ≤ length words.now }
        requires kept { Kept self.old.world }
        ensures done { OnOk result (Lands (unwound (help (state_of self.old.world)) s) (state_of self.new.world) (with_words_written (unwound (help (state_of self.old.world)) s).raw s n words.now)) }
        ensures plain { OnOk result (with_words_written (plain_of self.old.world) s n words.now ≡ Ok (plain_of self.new.world)) }
        ensures refused { IfErr result (λ e. FileRefused (state_of self.old.world) (λ m. with_words_written m s n words.now) e) }
        ensures state { OnErr result (state_of self.new.world ≡ help (state_of self.old.world)) }
        ensures kept { Kept self.new.world }
    {
        let world = &mut self.world;
        help(world);
        present(world, s)?;
        fitting(world, s, n, words)?;
        calm(world, s);
        put_words(world, s, n, words);
        Ok(())
    }

    /// USR: opens a channel of a slot's job on the inferior in slot t, which may be written if
    /// `write` holds, at a position. NoJob if the slot is empty, Exists if the channel is open,
    /// Unfit if the superior of t is another or none.
    pub fn open_usr(&mut self, s: Slot, n: u8, t: Slot, write: bool, at: u32) -> Result<(), Refusal>
        requires channel { n < 16 }
        requires kept { Kept self.old.world }
        ensures done { OnOk result (Lands (unwound (state_of self.old.world) s) (state_of self.new.world) (with_usr (unwound (state_of self.old.world) s).raw s n t write at)) }
        ensures plain { OnOk result (with_usr (plain_of self.old.world) s n t write at ≡ Ok (plain_of self.new.world)) }
        ensures refused { IfErr result (λ e. Refused (state_of self.old.world) (unwound (state_of self.old.world) s) (λ m. with_usr m s n t write at) e) }
        ensures same { OnErr result (self.new ≡ self.old) }
        ensures kept { Kept self.new.world }
    {
        let world = &mut self.world;
        closed(world, s, n)?;
        if !is_under(world, t, s) {
            return Err(Refusal::Unfit);
        }
        calm(world, s);
        put_usr(world, s, n, t, write, at);
        Ok(())
    }

    /// LNK: opens a channel of a slot's job on an end of a link, its writing end if `write` holds.
    /// If the number has no link, one is made with these names. NoJob if the slot is empty; Exists
    /// if the channel is open, the link has other names, or somebody has opened the end.
    pub fn open_link(
        &mut self,
        s: Slot,
        n: u8,
        l: u8,
        write: bool,
        x: Word,
        y: Word,
    ) -> Result<(), Refusal>
        requires channel { n < 16 }
        requires link { l < most_links }
        requires kept { Kept self.old.world }
        ensures done { OnOk result (Lands (unwound (state_of self.old.world) s) (state_of self.new.world) (with_link (unwound (state_of self.old.world) s).raw s n l write x y)) }
        ensures plain { OnOk result (with_link (plain_of self.old.world) s n l write x y ≡ Ok (plain_of self.new.world)) }
        ensures refused { IfErr result (λ e. Refused (state_of self.old.world) (unwound (state_of self.old.world) s) (λ m. with_link m s n l write x y) e) }
        ensures same { OnErr result (self.new ≡ self.old) }
        ensures kept { Kept self.new.world }
    {
        let world = &mut self.world;
        closed(world, s, n)?;
        if !world.pipes.can_join(l, write, x, y) {
            return Err(Refusal::Exists);
        }
        calm(world, s);
        put_link(world, s, n, l, write, x, y);
        Ok(())
    }

    /// SENT: adds words to those in a link. Unfit if there is no such link, Full if it has no room
    /// for all of them.
    pub fn send_words(&mut self, l: u8, words: &[Word]) -> Result<(), Refusal>
        requires link { l < most_links }
        requires few { length words.now ≤ 16 }
        requires kept { Kept self.old.world }
        ensures done { OnOk result (Lands (state_of self.old.world) (state_of self.new.world) (with_words_sent (state_of self.old.world).raw l words.now)) }
        ensures plain { OnOk result (with_words_sent (plain_of self.old.world) l words.now ≡ Ok (plain_of self.new.world)) }
        ensures refused { IfErr result (λ e. Refused (state_of self.old.world) (state_of self.old.world) (λ m. with_words_sent m l words.now) e) }
        ensures same { OnErr result (self.new ≡ self.old) }
        ensures kept { Kept self.new.world }
    {
        let world = &mut self.world;
        if !world.pipes.has_link(l) {
            return Err(Refusal::Unfit);
        }
        if world.pipes.words_waiting(l) as usize + words.len() > LINK_WORDS {
            return Err(Refusal::Full);
        }
        send_all(world, l, words);
        Ok(())
    }

    /// SHUT: closes an end of a link that nobody has opened, its writing end if `write` holds.
    /// Unfit if there is no such link, Exists if somebody has opened the end.
    pub fn shut_end(&mut self, l: u8, write: bool) -> Result<(), Refusal>
        requires link { l < most_links }
        requires kept { Kept self.old.world }
        ensures done { OnOk result (Lands (state_of self.old.world) (state_of self.new.world) (with_end_shut (state_of self.old.world).raw l write)) }
        ensures plain { OnOk result (with_end_shut (plain_of self.old.world) l write ≡ Ok (plain_of self.new.world)) }
        ensures refused { IfErr result (λ e. Refused (state_of self.old.world) (state_of self.old.world) (λ m. with_end_shut m l write) e) }
        ensures same { OnErr result (self.new ≡ self.old) }
        ensures kept { Kept self.new.world }
    {
        let world = &mut self.world;
        if !world.pipes.has_link(l) {
            return Err(Refusal::Unfit);
        }
        if !world.pipes.has_unopened(l, write) {
            return Err(Refusal::Exists);
        }
        world.shut_end(l, write);
        Ok(())
    }
}

/// NoJob if a slot is empty, Exists if a channel of its job is open.
pub fn closed(w: &World, s: Slot, n: u8) -> Result<(), Refusal>
    requires channel { n < 16 }
    ensures some { OnOk result (is_some (job_at w.now.jobs s) ≡ true) }
    ensures job { OnOk result (HasJob (state_of w.now) s) }
    ensures closed { OnOk result (chan_in (state_of w.now) s n ≡ Shut) }
    ensures refused { IfErr result (λ e. (m : Machine) → provided (can_open (state_of w.now).raw s n) m ≡ Err (reason_of e)) }
{
    present(w, s)?;
    match w.channel(s, n) {
        Channel::Closed => Ok(()),
        _ => Err(Refusal::Exists),
    }
}

/// Whether a slot's job is the superior of the job of slot t.
fn is_under(w: &World, t: Slot, s: Slot) -> bool
    ensures { result ≡ is_slot s (superiors (state_of w.now).raw t) }
{
    w.jobs.tree();
    match w.jobs.superior(t) {
        Some(k) => k.number() == s.number(),
        None => false,
    }
}

/// Opens a channel on a file, at a position.
fn put_disk(w: &mut World, s: Slot, n: u8, d: Word, x: Word, y: Word, at: u32)
    requires channel { n < 16 }
    requires can { IsOk (with_disk (state_of w.old).raw s n (names_of d x y) at) }
    requires unmarked { (state_of w.old).mark ≡ None }
    requires tidy { Tidy w.old }
    ensures done { Lands (state_of w.old) (state_of w.new) (with_disk (state_of w.old).raw s n (names_of d x y) at) }
    ensures tidy { Tidy w.new }
{
    w.open_file(s, n, d, x, y);
    w.move_to(s, n, at);
}

/// Opens a channel on a draft of no words.
fn put_draft(w: &mut World, s: Slot, n: u8, d: Word, x: Word, y: Word)
    requires channel { n < 16 }
    requires can { IsOk (with_draft (state_of w.old).raw s n (names_of d x y)) }
    requires unmarked { (state_of w.old).mark ≡ None }
    requires tidy { Tidy w.old }
    ensures done { Lands (state_of w.old) (state_of w.new) (with_draft (state_of w.old).raw s n (names_of d x y)) }
    ensures tidy { Tidy w.new }
{
    w.open_draft(s, n, d, x, y);
}

/// Whether words can be added to the end of the draft of a channel of a slot's job. Unfit if the
/// channel is on no draft, Full if there is no room for all of them.
fn fitting(w: &World, s: Slot, n: u8, words: &[Word]) -> Result<(), Refusal>
    requires channel { n < 16 }
    requires some { 1 ≤ length words.now }
    requires unmarked { (state_of w.now).mark ≡ None }
    requires tidy { Tidy w.now }
    ensures can { OnOk result (IsOk (with_all_written (state_of w.now).raw s n words.now)) }
    ensures refused { IfErr result (λ e. with_all_written (state_of w.now).raw s n words.now ≡ Err (reason_of e)) }
{
    within(s);
    w.files.seen();
    match w.channel(s, n) {
        Channel::Writing { draft } => {
            if words.len() > w.files.room(draft) as usize {
                return Err(Refusal::Full);
            }
            Ok(())
        }
        _ => Err(Refusal::Unfit),
    }
}

/// Adds words to the end of the draft of a channel of a slot's job, in their order.
fn put_words(w: &mut World, s: Slot, n: u8, words: &[Word])
    requires channel { n < 16 }
    requires can { IsOk (with_words_written (state_of w.old).raw s n words.now) }
    requires unmarked { (state_of w.old).mark ≡ None }
    requires tidy { Tidy w.old }
    ensures done { Lands (state_of w.old) (state_of w.new) (with_words_written (state_of w.old).raw s n words.now) }
    ensures tidy { Tidy w.new }
{
    for word in words {
        w.append(s, n, *word);
    }
}

/// Opens a channel on an inferior, at a position.
fn put_usr(w: &mut World, s: Slot, n: u8, t: Slot, write: bool, at: u32)
    requires channel { n < 16 }
    requires can { IsOk (with_usr (state_of w.old).raw s n t write at) }
    requires tidy { Tidy w.old }
    ensures done { Lands (state_of w.old) (state_of w.new) (with_usr (state_of w.old).raw s n t write at) }
    ensures tidy { Tidy w.new }
{
    let slot = t.number();
    w.put_channel(s, n, Channel::Usr { slot, write, at });
}

/// Opens a channel on an end of a link, which is made if it is not there.
fn put_link(w: &mut World, s: Slot, n: u8, l: u8, write: bool, x: Word, y: Word)
    requires channel { n < 16 }
    requires link { l < most_links }
    requires can { IsOk (with_link (state_of w.old).raw s n l write x y) }
    requires tidy { Tidy w.old }
    ensures done { Lands (state_of w.old) (state_of w.new) (with_link (state_of w.old).raw s n l write x y) }
    ensures tidy { Tidy w.new }
{
    w.join(s, n, l, write, x, y);
}

/// More words in a link, in their order, if there is room for them.
fn send_all(w: &mut World, l: u8, words: &[Word])
    requires link { l < most_links }
    requires can { IsOk (with_words_sent (state_of w.old).raw l words.now) }
    requires tidy { Tidy w.old }
    ensures done { Lands (state_of w.old) (state_of w.new) (with_words_sent (state_of w.old).raw l words.now) }
    ensures tidy { Tidy w.new }
{
    for word in words {
        send_one(w, l, *word);
    }
}

/// One of them.
#[tactic(auto, using(its_commit::proofs::Groups::send_laws))]
fn send_one(w: &mut World, l: u8, word: Word)
    requires link { l < most_links }
    requires stands { is_some ((state_of w.old).raw.links l) ≡ true }
    requires room { length (words_in ((state_of w.old).raw.links l)) < most_link_words }
    requires tidy { Tidy w.old }
    ensures done { state_of w.new ≡ with_raw (state_of w.old) (on_link (state_of w.old).raw l (option_map (with_sent word))) }
    ensures tidy { Tidy w.new }
{
    w.send(l, word);
}
