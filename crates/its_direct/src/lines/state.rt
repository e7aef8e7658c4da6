//! The lines of the state part, each with the effect of its definition.
ghost use Rattle.std.specs.Prelude.{◌≡◌, ◌≤◌, ◌+◌, ◌^◌, ℕ, OnErr, length};
ghost use Rattle.its_records.specs.declared.session.Place.TheVariants as places;
ghost use Rattle.its_records.specs.declared.state_line.StateLine.TheVariants as states;
ghost use Rattle.its_direct.specs.Events.{Kept, place_before, spot_place};
ghost use Rattle.its_plain.specs.Machine.Own.{names_of};
ghost use Rattle.its_direct.specs.Plain.{Tidy};
ghost use Rattle.its_direct.specs.State.{LineFits, Restores};
ghost use Rattle.its_direct.specs.declared.plain.Spot.TheVariants as spots;

use crate::lines::events::{Answer, answered};
use crate::plain::{Plain, Spot};
use arrayvec::ArrayVec;
use its_records::{Refusal, Registers, StateLine};
use its_word::{ConsoleNumber, Slot, Word, within};

impl Plain {
    /// A line of the state part, by its kind. It shows nothing.
    pub fn restore(&mut self, line: &StateLine) -> Result<Answer, Refusal>
        requires fits { LineFits line.now }
        requires stands { spot_place self.old.place ≡ place_before line.now }
        requires kept { Kept self.old }
        ensures restores { Restores line.now self.old self.new result }
        ensures same { OnErr result (self.new ≡ self.old) }
        ensures tidy { Tidy self.new }
    {
        match line {
            StateLine::System { v } => self.tell_system(*v),
            StateLine::Clock { n } => answered(self.advance(*n)),
            StateLine::File { d, x, y } => self.tell_file(*d, *x, *y),
            StateLine::FileWords { words } => self.tell_file_words(words),
            StateLine::Job { s, u, j, console } => self.tell_job(*s, *u, *j, *console),
            StateLine::CoreWords { a, words } => self.tell_core_words(*a, words),
            StateLine::ReadOnly { page } => self.tell_page(*page),
            StateLine::Symbol { name, a } => self.tell_name(*name, *a),
            StateLine::Regs { registers } => self.tell_registers(registers),
            StateLine::Alarm { s, period, next } => answered(self.set_alarm(*s, *period, *next)),
            StateLine::Under { s, t } => answered(self.set_superior(*s, *t)),
            StateLine::Tty { s, n, write } => answered(self.restore_tty(*s, *n, *write)),
            StateLine::Disk { s, n, d, x, y, at } => {
                answered(self.restore_disk(*s, *n, *d, *x, *y, *at))
            }
            StateLine::Draft { s, n, d, x, y } => answered(self.restore_draft(*s, *n, *d, *x, *y)),
            StateLine::Wrote { s, n, words } => {
                answered(self.restore_words(*s, *n, words.as_slice()))
            }
            StateLine::Usr { s, n, t, write, at } => {
                answered(self.restore_usr(*s, *n, *t, *write, *at))
            }
            StateLine::Join {
                s,
                n,
                l,
                write,
                x,
                y,
            } => { answered(self.restore_link(*s, *n, *l, *write, *x, *y)) }
            StateLine::Sent { l, words } => answered(self.restore_sent(*l, words.as_slice())),
            StateLine::EndShut { l, write } => answered(self.restore_end(*l, *write)),
            StateLine::Input { c, bytes } => answered(self.restore_input(*c, bytes.as_slice())),
            StateLine::Output { c, bytes } => answered(self.restore_output(*c, bytes.as_slice())),
            StateLine::Hold { c, s } => answered(self.restore_holder(*c, *s)),
            StateLine::Turn { .. } => self.tell_turn(),
            StateLine::Ready => self.tell_ready(),
        }
    }

    /// The slot of the last JOB line, and the directory and the names of the last FILE line.
    fn last_named(&self) -> (Slot, Word, Word, Word)
        requires place { spot_place self.now.place ≡ places.System }
        ensures { self.now.place ≡ spots.System result.0 (names_of result.1 result.2 result.3) }
    {
        match self.place {
            Spot::System { slot, names } => (slot, names[0], names[1], names[2]),
            Spot::Plain => unreachable!(),
            Spot::Load { .. } => unreachable!(),
            Spot::File { .. } => unreachable!(),
        }
    }

    /// SYSTEM, after which the state part has begun.
    #[tactic(auto, using(crate::proofs::LoadLaws::placed_tidy))]
    fn tell_system(&mut self, v: u8) -> Result<Answer, Refusal>
        requires known { (1 ≤ v) × (v ≤ 2) }
        requires tidy { Tidy self.old }
        ensures restores { Restores (states.System v) self.old self.new result }
        ensures same { OnErr result (self.new ≡ self.old) }
        ensures tidy { Tidy self.new }
    {
        self.version(v);
        self.set_place(Spot::System {
            slot: Slot::FIRST,
            names: [Word::ZERO; 3],
        });
        Ok(Answer::Nothing)
    }

    /// FILE, after which words are about this file.
    fn tell_file(&mut self, d: Word, x: Word, y: Word) -> Result<Answer, Refusal>
        requires place { spot_place self.old.place ≡ places.System }
        requires tidy { Tidy self.old }
        ensures restores { Restores (states.File d x y) self.old self.new result }
        ensures same { OnErr result (self.new ≡ self.old) }
        ensures tidy { Tidy self.new }
    {
        let (slot, _, _, _) = self.last_named();
        match self.add_file(d, x, y) {
            Ok(()) => {
                let names = [d, x, y];
                self.set_place(Spot::System { slot, names });
                self.touch_none();
                Ok(Answer::Nothing)
            }
            Err(e) => Err(e),
        }
    }

    /// Words of the file of the last FILE line.
    fn tell_file_words(&mut self, words: &ArrayVec<Word, 16>) -> Result<Answer, Refusal>
        requires place { spot_place self.old.place ≡ places.System }
        requires some { 1 ≤ length words.now.items }
        requires tidy { Tidy self.old }
        ensures restores { Restores (states.FileWords words.now) self.old self.new result }
        ensures same { OnErr result (self.new ≡ self.old) }
        ensures tidy { Tidy self.new }
    {
        let (_, d, x, y) = self.last_named();
        answered(self.append_words(d, x, y, words.as_slice()))
    }

    /// JOB, after which words of a core, RO, SYM and REGS are about this job.
    fn tell_job(
        &mut self,
        s: Slot,
        u: Word,
        j: Word,
        console: Option<ConsoleNumber>,
    ) -> Result<Answer, Refusal>
        requires place { spot_place self.old.place ≡ places.System }
        requires tidy { Tidy self.old }
        ensures restores { Restores (states.Job s u j console) self.old self.new result }
        ensures same { OnErr result (self.new ≡ self.old) }
        ensures tidy { Tidy self.new }
    {
        within(s);
        let (_, d, x, y) = self.last_named();
        match self.make_job_at(s, u, j, console) {
            Ok(()) => {
                let names = [d, x, y];
                self.set_place(Spot::System { slot: s, names });
                self.touch_only(s);
                Ok(Answer::Nothing)
            }
            Err(e) => Err(e),
        }
    }

    /// Words of the core of the job of the last JOB line.
    fn tell_core_words(&mut self, a: u32, words: &ArrayVec<Word, 16>) -> Result<Answer, Refusal>
        requires place { spot_place self.old.place ≡ places.System }
        requires some { 1 ≤ length words.now.items }
        requires end { a + length words.now.items ≤ 2 ^ 18 }
        requires tidy { Tidy self.old }
        ensures restores { Restores (states.CoreWords a words.now) self.old self.new result }
        ensures same { OnErr result (self.new ≡ self.old) }
        ensures tidy { Tidy self.new }
    {
        let (slot, _, _, _) = self.last_named();
        answered(self.load_words(slot, a, words.as_slice()))
    }

    /// RO, about the job of the last JOB line.
    fn tell_page(&mut self, page: u8) -> Result<Answer, Refusal>
        requires place { spot_place self.old.place ≡ places.System }
        requires tidy { Tidy self.old }
        ensures restores { Restores (states.ReadOnly page) self.old self.new result }
        ensures same { OnErr result (self.new ≡ self.old) }
        ensures tidy { Tidy self.new }
    {
        let (slot, _, _, _) = self.last_named();
        answered(self.read_only(slot, page))
    }

    /// SYM, about the job of the last JOB line.
    fn tell_name(&mut self, name: Word, a: u32) -> Result<Answer, Refusal>
        requires place { spot_place self.old.place ≡ places.System }
        requires tidy { Tidy self.old }
        ensures restores { Restores (states.Symbol name a) self.old self.new result }
        ensures same { OnErr result (self.new ≡ self.old) }
        ensures tidy { Tidy self.new }
    {
        let (slot, _, _, _) = self.last_named();
        answered(self.symbol(slot, name, a))
    }

    /// REGS, about the job of the last JOB line.
    fn tell_registers(&mut self, registers: &Registers) -> Result<Answer, Refusal>
        requires place { spot_place self.old.place ≡ places.System }
        requires tidy { Tidy self.old }
        ensures restores { Restores (states.Regs registers.now) self.old self.new result }
        ensures same { OnErr result (self.new ≡ self.old) }
        ensures tidy { Tidy self.new }
    {
        let (slot, _, _, _) = self.last_named();
        answered(self.set_registers(slot, registers))
    }

    /// TURN: whose turn was the last is no part of the machine.
    #[tactic(auto, using(crate::proofs::SlotLaws::touched_tidy))]
    fn tell_turn(&mut self) -> Result<Answer, Refusal>
        requires place { spot_place self.old.place ≡ places.System }
        requires tidy { Tidy self.old }
        ensures restores { (s : ℕ) → Restores (states.Turn s) self.old self.new result }
        ensures same { OnErr result (self.new ≡ self.old) }
        ensures tidy { Tidy self.new }
    {
        self.touch_none();
        Ok(Answer::Nothing)
    }

    /// READY, after which the state part has ended.
    #[tactic(auto, using(crate::proofs::FileLaws::ended_tidy))]
    fn tell_ready(&mut self) -> Result<Answer, Refusal>
        requires tidy { Tidy self.old }
        ensures restores { Restores states.Ready self.old self.new result }
        ensures same { OnErr result (self.new ≡ self.old) }
        ensures tidy { Tidy self.new }
    {
        self.set_place(Spot::Plain);
        self.touch_none();
        Ok(Answer::Nothing)
    }
}
