//! The events of a session, each by its line.
ghost use Rattle.std.specs.Prelude.{◌≡◌, ◌<◌, ◌≤◌, ◌+◌, ◌^◌, IfOk, OnErr, length};
ghost use Rattle.its_records.specs.declared.session.Event.TheVariants as told;
ghost use Rattle.its_records.specs.declared.session.Place.TheVariants as places;
ghost use Rattle.its_session.specs.Events.{place_after};
ghost use Rattle.its_session.specs.Fits.{EventFits};
ghost use Rattle.its_plain.specs.Machine.Own.{names_of};
ghost use Rattle.its_direct.specs.Plain.{machine_of, Tidy};
ghost use Rattle.its_direct.specs.declared.plain.Spot.TheVariants as spots;
ghost use Rattle.its_direct.specs.Events.{answered, spot_place, IsTold, JobsStay, Kept, MayStand, SpotFits, Told};

use crate::plain::{Plain, Spot};
use arrayvec::ArrayVec;
use its_records::{Event, JobShow, Refusal};
use its_word::{ConsoleNumber, Slot, Word, within};

/// What an event shows that was obeyed. What DIR and SHOW show of files is read from the machine
/// after it.
#[derive(Debug, Drop)]
pub enum Answer {
    Nothing,
    /// The slot of the job that LOAD made.
    Loaded {
        s: Slot,
    },
    /// How many bytes TYPE dropped.
    Typed {
        c: ConsoleNumber,
        dropped: u32,
    },
    /// The bytes that DRAIN took.
    Drained {
        c: ConsoleNumber,
        bytes: ArrayVec<u8, 64>,
    },
    /// The words of EXAM.
    Words {
        s: Slot,
        a: u32,
        words: ArrayVec<Word, 8>,
    },
    /// The words of LIST, each in a line of its own.
    Listed {
        s: Slot,
        a: u32,
        words: ArrayVec<Word, 8>,
    },
    State {
        version: u8,
        s: Slot,
        show: JobShow,
    },
    /// PEEK: this machine does not know how far a job is inside a call.
    Peeked,
    /// The files of a directory.
    Files {
        d: Word,
    },
    /// The words of a file with this number and these names.
    File {
        id: u32,
        d: Word,
        x: Word,
        y: Word,
    },
}

impl Plain {
    /// An event of a session other than ticks, turns of RUN and END: the operator's line exactly. A
    /// line that is refused changes nothing. Split for its proof: `event_row` says what is done.
    #[tactic(auto, using(crate::proofs::ToldLaws::told_kept, crate::proofs::ToldLaws::told_jobs))]
    pub fn event(&mut self, event: &Event) -> Result<Answer, Refusal>
        requires told { IsTold event.now }
        requires fits { EventFits 2 event.now }
        requires stands { MayStand (spot_place self.old.place) event.now }
        requires kept { Kept self.old }
        ensures told { Told event.now self.old self.new result }
        ensures same { OnErr result (self.new ≡ self.old) }
        ensures place { IfOk result (λ _. spot_place self.new.place ≡ place_after (spot_place self.old.place) event.now) }
        ensures jobs { JobsStay self.old self.new }
        ensures kept { Kept self.new }
    {
        self.event_row(event)
    }

    /// The line of an event, by its kind.
    #[tactic(auto, unfolding(its_session::specs::Grammar::last_slot))]
    fn event_row(&mut self, event: &Event) -> Result<Answer, Refusal>
        requires told { IsTold event.now }
        requires fits { EventFits 2 event.now }
        requires stands { MayStand (spot_place self.old.place) event.now }
        requires kept { Kept self.old }
        ensures told { Told event.now self.old self.new result }
        ensures same { OnErr result (self.new ≡ self.old) }
        ensures tidy { Tidy self.new }
    {
        match event {
            Event::Nothing => self.tell_nothing(),
            Event::Version { v } => self.tell_version(*v),
            Event::Load { u, j, console } => self.tell_load(*u, *j, *console),
            Event::Words { a, words } => self.tell_words(*a, words),
            Event::ReadOnly { page } => self.tell_read_only(*page),
            Event::Symbol { name, a } => self.tell_symbol(*name, *a),
            Event::Go { a } => self.tell_go(*a),
            Event::File { d, x, y } => answered(self.make_file(*d, *x, *y)),
            Event::Append { words } => self.tell_append(words),
            Event::EndFile => self.tell_end_file(),
            Event::TypeIn { c, bytes } => self.tell_type(*c, bytes),
            Event::Drain { c, n } => self.tell_drain(*c, *n),
            Event::Clock { n } => answered(self.advance(*n)),
            Event::Int { s, v, w } => answered(self.interrupt(*s, *v, *w)),
            Event::Exam { s, a, n } => self.tell_exam(*s, *a, *n),
            Event::List { s, a, n } => self.tell_list(*s, *a, *n),
            Event::State { s } => self.tell_state(*s),
            Event::Deposit { s, a, w } => answered(self.deposit(*s, *a, *w)),
            Event::Stop { s } => answered(self.stop(*s)),
            Event::Cont { s } => answered(self.cont(*s)),
            Event::Peek { s } => self.tell_peek(*s),
            Event::Dir { d } => self.tell_dir(*d),
            Event::Show { d, x, y } => self.tell_show(*d, *x, *y),
            Event::Restore { line } => self.restore(line),
            Event::Tick { .. } => unreachable!(),
            Event::Run { .. } => unreachable!(),
            Event::End => unreachable!(),
        }
    }

    /// An empty line, or one of a comment.
    #[tactic(auto, using(crate::proofs::SlotLaws::touched_tidy))]
    fn tell_nothing(&mut self) -> Result<Answer, Refusal>
        requires tidy { Tidy self.old }
        ensures told { Told told.Nothing self.old self.new result }
        ensures same { OnErr result (self.new ≡ self.old) }
        ensures tidy { Tidy self.new }
    {
        self.touch_none();
        Ok(Answer::Nothing)
    }

    /// An a/ line.
    fn tell_words(&mut self, a: u32, words: &ArrayVec<Word, 16>) -> Result<Answer, Refusal>
        requires place { spot_place self.old.place ≡ places.Load }
        requires placed { SpotFits (machine_of self.old) self.old.place }
        requires some { 1 ≤ length words.now.items }
        requires end { a + length words.now.items ≤ 2 ^ 18 }
        requires tidy { Tidy self.old }
        ensures told { Told (told.Words a words.now) self.old self.new result }
        ensures same { OnErr result (self.new ≡ self.old) }
        ensures tidy { Tidy self.new }
    {
        let slot = self.block_slot();
        answered(self.load_words(slot, a, words.as_slice()))
    }

    /// RO.
    fn tell_read_only(&mut self, page: u8) -> Result<Answer, Refusal>
        requires place { spot_place self.old.place ≡ places.Load }
        requires placed { SpotFits (machine_of self.old) self.old.place }
        requires tidy { Tidy self.old }
        ensures told { Told (told.ReadOnly page) self.old self.new result }
        ensures same { OnErr result (self.new ≡ self.old) }
        ensures tidy { Tidy self.new }
    {
        let slot = self.block_slot();
        answered(self.read_only(slot, page))
    }

    /// SYM.
    fn tell_symbol(&mut self, name: Word, a: u32) -> Result<Answer, Refusal>
        requires place { spot_place self.old.place ≡ places.Load }
        requires placed { SpotFits (machine_of self.old) self.old.place }
        requires tidy { Tidy self.old }
        ensures told { Told (told.Symbol name a) self.old self.new result }
        ensures same { OnErr result (self.new ≡ self.old) }
        ensures tidy { Tidy self.new }
    {
        let slot = self.block_slot();
        answered(self.symbol(slot, name, a))
    }

    /// Words of a FILE block.
    fn tell_append(&mut self, words: &ArrayVec<Word, 16>) -> Result<Answer, Refusal>
        requires place { spot_place self.old.place ≡ places.File }
        requires some { 1 ≤ length words.now.items }
        requires tidy { Tidy self.old }
        ensures told { Told (told.Append words.now) self.old self.new result }
        ensures same { OnErr result (self.new ≡ self.old) }
        ensures tidy { Tidy self.new }
    {
        let (d, x, y) = self.block_file();
        answered(self.append_words(d, x, y, words.as_slice()))
    }

    /// LOAD.
    fn tell_load(
        &mut self,
        u: Word,
        j: Word,
        console: Option<ConsoleNumber>,
    ) -> Result<Answer, Refusal>
        requires tidy { Tidy self.old }
        ensures told { Told (told.Load u j console) self.old self.new result }
        ensures same { OnErr result (self.new ≡ self.old) }
        ensures tidy { Tidy self.new }
    {
        match self.load(u, j, console) {
            Ok(s) => Ok(Answer::Loaded { s }),
            Err(e) => Err(e),
        }
    }

    /// TYPE.
    fn tell_type(&mut self, c: ConsoleNumber, bytes: &ArrayVec<u8, 32>) -> Result<Answer, Refusal>
        requires tidy { Tidy self.old }
        ensures told { Told (told.TypeIn c bytes.now) self.old self.new result }
        ensures same { OnErr result (self.new ≡ self.old) }
        ensures tidy { Tidy self.new }
    {
        let dropped = self.type_in(c, bytes.as_slice());
        Ok(Answer::Typed { c, dropped })
    }

    /// DRAIN.
    fn tell_drain(&mut self, c: ConsoleNumber, n: u32) -> Result<Answer, Refusal>
        requires number { n ≤ 64 }
        requires tidy { Tidy self.old }
        ensures told { Told (told.Drain c n) self.old self.new result }
        ensures same { OnErr result (self.new ≡ self.old) }
        ensures tidy { Tidy self.new }
    {
        let bytes = self.drain(c, n);
        Ok(Answer::Drained { c, bytes })
    }

    /// EXAM: up to eight words of a slot, from an address on. The slot is touched. NoJob if it is
    /// empty, NoPage if a page of the words is absent.
    #[tactic(auto, using(crate::proofs::SlotLaws::touched_tidy))]
    fn tell_exam(&mut self, s: Slot, a: u32, n: u32) -> Result<Answer, Refusal>
        requires address { a < 2 ^ 18 }
        requires number { n ≤ 8 }
        requires tidy { Tidy self.old }
        ensures told { Told (told.Exam s a n) self.old self.new result }
        ensures same { OnErr result (self.new ≡ self.old) }
        ensures tidy { Tidy self.new }
    {
        within(s);
        match self.words(s, a, n) {
            Ok(words) => {
                self.touch_only(s);
                Ok(Answer::Words { s, a, words })
            }
            Err(e) => Err(e),
        }
    }

    /// LIST, which finds the same words, and refuses in the same way.
    #[tactic(auto, using(crate::proofs::SlotLaws::touched_tidy))]
    fn tell_list(&mut self, s: Slot, a: u32, n: u32) -> Result<Answer, Refusal>
        requires address { a < 2 ^ 18 }
        requires number { n ≤ 8 }
        requires some { 1 ≤ n }
        requires tidy { Tidy self.old }
        ensures told { Told (told.List s a n) self.old self.new result }
        ensures same { OnErr result (self.new ≡ self.old) }
        ensures tidy { Tidy self.new }
    {
        within(s);
        match self.words(s, a, n) {
            Ok(words) => {
                self.touch_only(s);
                Ok(Answer::Listed { s, a, words })
            }
            Err(e) => Err(e),
        }
    }

    /// STATE: the slot is touched. NoJob if it is empty.
    #[tactic(auto, using(crate::proofs::SlotLaws::touched_tidy))]
    fn tell_state(&mut self, s: Slot) -> Result<Answer, Refusal>
        requires tidy { Tidy self.old }
        ensures told { Told (told.State s) self.old self.new result }
        ensures same { OnErr result (self.new ≡ self.old) }
        ensures tidy { Tidy self.new }
    {
        within(s);
        match self.shown(s) {
            Ok(show) => {
                self.touch_only(s);
                let version = self.version;
                Ok(Answer::State { version, s, show })
            }
            Err(e) => Err(e),
        }
    }

    /// PEEK.
    fn tell_peek(&mut self, s: Slot) -> Result<Answer, Refusal>
        requires tidy { Tidy self.old }
        ensures told { Told (told.Peek s) self.old self.new result }
        ensures same { OnErr result (self.new ≡ self.old) }
        ensures tidy { Tidy self.new }
    {
        match self.peek(s) {
            Ok(()) => Ok(Answer::Peeked),
            Err(e) => Err(e),
        }
    }

    /// GO, after which the LOAD block has ended.
    #[tactic(auto, using(crate::proofs::LoadLaws::placed_tidy))]
    fn tell_go(&mut self, a: u32) -> Result<Answer, Refusal>
        requires place { spot_place self.old.place ≡ places.Load }
        requires placed { SpotFits (machine_of self.old) self.old.place }
        requires address { a < 2 ^ 18 }
        requires tidy { Tidy self.old }
        ensures told { Told (told.Go a) self.old self.new result }
        ensures same { OnErr result (self.new ≡ self.old) }
        ensures tidy { Tidy self.new }
    {
        let slot = self.block_slot();
        match self.go(slot, a) {
            Ok(()) => {
                self.set_place(Spot::Plain);
                Ok(Answer::Nothing)
            }
            Err(e) => Err(e),
        }
    }

    /// EOF.
    fn tell_end_file(&mut self) -> Result<Answer, Refusal>
        requires tidy { Tidy self.old }
        ensures told { Told told.EndFile self.old self.new result }
        ensures same { OnErr result (self.new ≡ self.old) }
        ensures tidy { Tidy self.new }
    {
        self.end_file();
        Ok(Answer::Nothing)
    }

    /// VERSION.
    fn tell_version(&mut self, v: u8) -> Result<Answer, Refusal>
        requires known { (1 ≤ v) × (v ≤ 2) }
        requires tidy { Tidy self.old }
        ensures told { Told (told.Version v) self.old self.new result }
        ensures same { OnErr result (self.new ≡ self.old) }
        ensures tidy { Tidy self.new }
    {
        self.version(v);
        Ok(Answer::Nothing)
    }

    /// DIR; the files are read from the machine.
    #[tactic(auto, using(crate::proofs::EventLaws::told_dir, crate::proofs::SlotLaws::touched_tidy))]
    fn tell_dir(&mut self, d: Word) -> Result<Answer, Refusal>
        requires tidy { Tidy self.old }
        ensures told { Told (told.Dir d) self.old self.new result }
        ensures same { OnErr result (self.new ≡ self.old) }
        ensures tidy { Tidy self.new }
    {
        self.touch_none();
        Ok(Answer::Files { d })
    }

    /// SHOW; the words are read from the machine. NoFile if there is no such file.
    #[tactic(auto, using(crate::proofs::SlotLaws::touched_tidy))]
    fn tell_show(&mut self, d: Word, x: Word, y: Word) -> Result<Answer, Refusal>
        requires tidy { Tidy self.old }
        ensures told { Told (told.Show d x y) self.old self.new result }
        ensures same { OnErr result (self.new ≡ self.old) }
        ensures tidy { Tidy self.new }
    {
        match self.file(d, x, y) {
            Some(id) => {
                self.touch_none();
                Ok(Answer::File { id, d, x, y })
            }
            None => Err(Refusal::NoFile),
        }
    }

    /// The slot of the job whose LOAD block the next line is in.
    fn block_slot(&self) -> Slot
        requires place { spot_place self.now.place ≡ places.Load }
        requires placed { SpotFits (machine_of self.now) self.now.place }
        ensures place { self.now.place ≡ spots.Load result }
    {
        match self.place {
            Spot::Load { slot } => slot,
            Spot::Plain => unreachable!(),
            Spot::System { .. } => unreachable!(),
            Spot::File { .. } => unreachable!(),
        }
    }

    /// The directory and the names of the file whose FILE block the next line is in.
    fn block_file(&self) -> (Word, Word, Word)
        requires place { spot_place self.now.place ≡ places.File }
        ensures { self.now.place ≡ spots.File (names_of result.0 result.1 result.2) }
    {
        match self.place {
            Spot::File { names } => (names[0], names[1], names[2]),
            Spot::Plain => unreachable!(),
            Spot::System { .. } => unreachable!(),
            Spot::Load { .. } => unreachable!(),
        }
    }
}

/// A line without an answer.
pub fn answered(r: Result<(), Refusal>) -> Result<Answer, Refusal>
    ensures { result ≡ answered r }
{
    match r {
        Ok(()) => Ok(Answer::Nothing),
        Err(e) => Err(e),
    }
}
