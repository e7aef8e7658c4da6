//! The step of a slot's job, whole: a delivery, a unit, or a call, which is decoded, decided and
//! carried out at once.
ghost use Rattle.std.specs.Prelude.{◌≡◌, ◌<◌, ◌≤◌, ◌+◌, ◌++◌, [], ℕ, false, Ok, Some, IfSome, IsTrue, is_some, length, slice_index_or};
ghost use Rattle.std.specs.List.{list_any};
ghost use Rattle.its_word.specs.Byte.{has_size};
ghost use Rattle.its_word.specs.Limits.{slots};
ghost use Rattle.its_core.specs.Cores.{core_at};
ghost use Rattle.its_jobs.specs.Table.{job_at, superior_at};
ghost use Rattle.its_plain.specs.Call.Arguments.{debts, input, with_new_values, store_of};
ghost use Rattle.its_plain.specs.Call.Step.{acted, quiet_step, by_ask, decision, deposited, with_fault, after_moves, transition, with_held};
ghost use Rattle.its_plain.specs.Machine.Change.{effects, in_job};
ghost use Rattle.its_plain.specs.Call.Decide.{listed, reach};
ghost use Rattle.its_plain.specs.Call.Footprint.{among};
ghost use Rattle.its_plain.specs.Machine.{core_of};
ghost use Rattle.its_plain.specs.Transcript.Turns.{is_running};
ghost use Rattle.its_shared.specs.Can.{HasJob};
ghost use Rattle.its_decide.specs.Reach.{slots_of};
ghost use Rattle.its_decide.specs.Seen.{machine_seen};
ghost use Rattle.its_direct.specs.Effects.{Becomes};
ghost use Rattle.its_direct.specs.Events.{Kept};
ghost use Rattle.its_direct.specs.Plain.{machine_of, is_touched, Tidy};
ghost use Rattle.its_direct.specs.Ready.{Carries, GoesOn, HeldFits, CanCarryOut, core_behind};
ghost use Rattle.its_direct.specs.Waiting.{AtHand};
ghost use Rattle.its_direct.specs.Steps.{Acts, CallsAt, Lent, LosesOnly, Makes, Steps, marked_by, is_making, makes_job, own_of};

use crate::plain::{Plain, Spot};
use crate::step::asking::{no_ask, put_near};
use crate::step::user_mode::Begun;
use arrayvec::ArrayVec;
use its_bytes::deposit;
use its_core::Core;
use its_decide::{Disturbed, Seen, decide, disturbed_by, disturbs};
use its_frame::{Change, Decision, Held};
use its_records::{Ask, Job, Site};
use its_word::{Fault, SLOTS, Slot, Store, Word, within};
use pdp_exec::Near;

/// For each slot whether something holds.
type Marks = [bool; 96];

impl Plain {
    /// Whether a slot's job runs.
    #[tactic(auto, using(crate::proofs::CallStepLaws::running, crate::proofs::CallStepLaws::idle))]
    pub fn runs(&self, slot: Slot) -> bool
        ensures { result ≡ is_running ((machine_of self.now).jobs slot) }
    {
        match self.job(slot) {
            Some(job) => !job.stopped,
            None => false,
        }
    }

    /// Performs the step of a slot's job: the delivery of an interrupt, a unit, or a whole call. If
    /// there is none, because the slot is empty, its job is stopped, or its call waits, nothing
    /// changes. No block of lines may be open. Split for its proof: `step_row` says what is done.
    #[tactic(auto, using(crate::proofs::CallStepLaws::loses_only, crate::proofs::CallStepLaws::place_stays, crate::proofs::CallStepLaws::kept_after))]
    pub fn step(&mut self, slot: Slot) -> bool
        requires outside { self.old.place ≡ Spot.Plain }
        requires kept { Kept self.old }
        ensures row { Makes result (transition (machine_of self.old) slot) self.old self.new }
        ensures loses { LosesOnly self.old self.new slot }
        ensures place { self.new.place ≡ self.old.place }
        ensures kept { Kept self.new }
    {
        self.step_row(slot)
    }

    /// Performs the step of a slot's job, if there is one.
    fn step_row(&mut self, slot: Slot) -> bool
        requires kept { Kept self.old }
        ensures row { Makes result (transition (machine_of self.old) slot) self.old self.new }
        ensures tidy { Tidy self.new }
    {
        match self.call_at_hand(slot) {
            Some(near) => self.make_call(slot, near),
            None => self.make_any(slot),
        }
    }

    /// Performs the step of a slot's job, if there is one: a delivery, a unit or a call.
    #[inline(never)]
    fn make_any(&mut self, slot: Slot) -> bool
        requires kept { Kept self.old }
        ensures row { Makes result (transition (machine_of self.old) slot) self.old self.new }
        ensures tidy { Tidy self.new }
    {
        match self.begin(slot) {
            Begun::Still => false,
            Begun::Stepped => true,
            Begun::Calls(site) => self.call(slot, &site),
        }
    }

    /// Performs the step of a slot's job whose call is at hand, unless it waits.
    #[inline(always)]
    fn make_call(&mut self, slot: Slot, near: Near) -> bool
        requires hand { AtHand self.old slot near }
        requires kept { Kept self.old }
        ensures row { Makes result (transition (machine_of self.old) slot) self.old self.new }
        ensures tidy { Tidy self.new }
    {
        if self.lacks_input(slot, near) {
            return false;
        }
        self.call_near(slot, near)
    }

    /// The step of the call of a slot's job that is at hand: the fault of its decoding, or what it
    /// decides. What it asks for is decoded in its place.
    #[inline(never)]
    fn call_near(&mut self, slot: Slot, near: Near) -> bool
        requires hand { AtHand self.old slot near }
        requires kept { Kept self.old }
        ensures row { Makes result (transition (machine_of self.old) slot) self.old self.new }
        ensures tidy { Tidy self.new }
    {
        let Some(job) = self.job(slot) else {
            unreachable!()
        };
        let mut ask = no_ask();
        match put_near(&self.core, slot, job.pc, near, &mut ask) {
            Ok(()) => self.act(slot, &job, &ask),
            Err(fault) => {
                self.fault(slot, job, fault);
                true
            }
        }
    }

    /// The step of the call of a slot's job at a site: the fault of its decoding, or what it
    /// decides.
    #[inline(never)]
    fn call(&mut self, slot: Slot, site: &Site) -> bool
        requires calls { CallsAt (machine_of self.old) slot site.now (transition (machine_of self.old) slot) }
        requires kept { Kept self.old }
        ensures row { Makes result (transition (machine_of self.old) slot) self.old self.new }
        ensures tidy { Tidy self.new }
    {
        let Some(job) = self.job(slot) else {
            unreachable!()
        };
        match self.ask(slot, site) {
            Ok(ask) => self.act(slot, &job, &ask),
            Err(fault) => {
                self.fault(slot, job, fault);
                true
            }
        }
    }

    /// The decoding of a call of a slot's job, which has these registers, faults: the bit of the
    /// fault is set in the job.
    fn fault(&mut self, slot: Slot, job: Job, fault: Fault)
        requires job { job_at self.old.jobs slot ≡ Some job }
        requires tidy { Tidy self.old }
        ensures row { Steps self.old self.new (quiet_step (in_job (machine_of self.old) slot (with_fault fault))) }
        ensures tidy { Tidy self.new }
    {
        let after = Job {
            pend1: job.pend1 | fault.bit(),
            ..job
        };
        self.put_job(slot, after);
        self.touch_none();
    }

    /// Decides what a call of a slot's job asks for, which has these registers, and carries it out.
    /// A call that waits takes no step.
    fn act(&mut self, slot: Slot, job: &Job, ask: &Ask) -> bool
        requires job { job_at self.old.jobs slot ≡ Some job.now }
        requires ready { CanCarryOut (machine_of self.old) slot ask.now (decision (machine_of self.old) slot (own_of self.old slot job.now) ask.now) }
        requires kept { Kept self.old }
        ensures row { Makes result (by_ask (machine_of self.old) slot (own_of self.old slot job.now) (Ok ask.now)) self.old self.new }
        ensures tidy { Tidy self.new }
    {
        let decision = self.decided(slot, job, ask);
        match self.disturbed(slot, job, ask) {
            Disturbed::Target(target) => self.act_on(slot, target, ask, decision),
            disturbed => self.act_widely(slot, disturbed, ask, decision),
        }
    }

    /// Carries out what a call of a slot's job has decided that disturbs at most one other job.
    fn act_on(&mut self, slot: Slot, target: Option<u8>, ask: &Ask, decision: Decision) -> bool
        requires target { IfSome target (λ t. t < slots) }
        requires ready { CanCarryOut (machine_of self.old) slot ask.now decision }
        requires tidy { Tidy self.old }
        ensures row { Makes result (acted (machine_of self.old) slot ask.now (listed target) decision) self.old self.new }
        ensures tidy { Tidy self.new }
    {
        if makes_job(&decision) {
            return self.act_widely(slot, Disturbed::Target(target), ask, decision);
        }
        let made = self.carry_out(slot, ask, decision);
        if made {
            self.touch_target(target);
        }
        made
    }

    /// Carries out what a call of a slot's job has decided, and looks at each slot: whether its job
    /// is disturbed, or made.
    #[inline(never)]
    fn act_widely(
        &mut self,
        slot: Slot,
        disturbed: Disturbed,
        ask: &Ask,
        decision: Decision,
    ) -> bool
        requires few { (k : ℕ) → slots ≤ k → among k (slots_of disturbed (machine_of self.old) slot (superior_at self.old.jobs slot)) ≡ false }
        requires ready { CanCarryOut (machine_of self.old) slot ask.now decision }
        requires tidy { Tidy self.old }
        ensures row { Makes result (acted (machine_of self.old) slot ask.now (slots_of disturbed (machine_of self.old) slot (superior_at self.old.jobs slot)) decision) self.old self.new }
        ensures tidy { Tidy self.new }
    {
        let marks = self.marks_of(slot, disturbed);
        let stood = self.standing();
        let made = self.carry_out(slot, ask, decision);
        if made {
            self.mark(&marks, &stood);
        }
        made
    }

    /// The parts of the machine, lent.
    #[inline(always)]
    pub(crate) fn seen(&self) -> Seen<'_>
        ensures { Lent self.now result }
    {
        Seen {
            core: &self.core,
            jobs: &self.jobs,
            consoles: &self.consoles,
            holders: &self.holders,
            files: &self.files,
            clock: self.clock,
            alarms: &self.alarms,
            version: self.version,
            symbols: &self.symbols,
            pipes: &self.pipes,
        }
    }

    /// The decision of a call of a slot's job, which has these registers.
    fn decided(&self, slot: Slot, job: &Job, ask: &Ask) -> Decision
        requires job { job_at self.now.jobs slot ≡ Some job.now }
        requires kept { Kept self.now }
        ensures { result ≡ decision (machine_of self.now) slot (own_of self.now slot job.now) ask.now }
    {
        decide(&self.seen(), slot, job, ask)
    }

    /// Whom the commit of a call of a slot's job disturbs, which has these registers.
    fn disturbed(&self, slot: Slot, job: &Job, ask: &Ask) -> Disturbed
        ensures { slots_of result (machine_of self.now) slot (superior_at self.now.jobs slot) ≡ reach (machine_of self.now) slot (own_of self.now slot job.now) ask.now }
    {
        disturbed_by(&self.seen(), slot, job, ask)
    }

    /// For each slot whether its job is one of those that a call of a slot's job disturbs.
    fn marks_of(&self, slot: Slot, disturbed: Disturbed) -> Marks
        requires few { (k : ℕ) → slots ≤ k → among k (slots_of disturbed (machine_of self.now) slot (superior_at self.now.jobs slot)) ≡ false }
        ensures { (k : ℕ) → slice_index_or result k false ≡ among k (slots_of disturbed (machine_of self.now) slot (superior_at self.now.jobs slot)) }
    {
        marks_of(&self.seen(), slot, disturbed)
    }

    /// Which slots have a job.
    fn standing(&self) -> Marks
        ensures { (k : ℕ) → slice_index_or result k false ≡ is_some (job_at self.now.jobs k) }
    {
        self.jobs.tree();
        let mut marks = [false; SLOTS];
        for k in 0..SLOTS {
            marks[k] = self.jobs.numbered(k as u8).is_some();
        }
        marks
    }

    /// Marks as touched the slots that a step disturbed, and those in which a job is and none was
    /// before.
    fn mark(&mut self, disturbed: &Marks, stood: &Marks)
        ensures same { self.new ≡ record self.old { touched = self.new.touched } }
        ensures touched { (k : ℕ) → is_touched self.new k ≡ marked_by disturbed.now stood.now self.old k }
    {
        let stands = self.standing();
        for k in 0..SLOTS {
            self.touched[k] = disturbed[k] || !stood[k] && stands[k];
        }
    }

    /// Marks as touched one slot, or none.
    fn touch_target(&mut self, target: Option<u8>)
        requires { IfSome target (λ t. t < slots) }
        ensures same { self.new ≡ record self.old { touched = self.new.touched } }
        ensures touched { (k : ℕ) → is_touched self.new k ≡ among k (listed target) }
    {
        self.touch_none();
        if let Some(t) = target {
            self.touch(Slot::new(t));
        }
    }

    /// Carries out what a call of a slot's job has decided.
    #[tactic(auto, unfolding(its_plain::specs::Call::Step::acted))]
    fn carry_out(&mut self, slot: Slot, ask: &Ask, decision: Decision) -> bool
        requires ready { CanCarryOut (machine_of self.old) slot ask.now decision }
        requires tidy { Tidy self.old }
        ensures row { Acts result (acted (machine_of self.old) slot ask.now [] decision) self.old self.new }
        ensures tidy { Tidy self.new }
    {
        match decision {
            Decision::Waits(_) => return false,
            Decision::Goes {
                changes,
                held,
                values,
            } => self.go_on(slot, &changes, ask, held, &values),
            Decision::Ends {
                changes,
                stores,
                exit,
            } => self.finish(slot, &changes, &stores, exit),
            Decision::Gone { changes } => self.depart(slot, &changes),
        }
        true
    }

    /// Carries out a part of a call of slot's job: its changes, then the byte that it holds, and
    /// then the new values of its last arguments.
    pub(crate) fn go_on(
        &mut self,
        slot: Slot,
        changes: &[Change],
        ask: &Ask,
        held: Option<Held>,
        values: &[Word],
    )
        requires carries { Carries (machine_of self.old) slot changes.now }
        requires part { GoesOn (core_behind (machine_of self.old) slot changes.now) ask.now held values.now }
        requires tidy { Tidy self.old }
        ensures row { Becomes self.old self.new (in_job (effects changes.now slot (machine_of self.old)) slot (after_moves ask.now held values.now)) }
        ensures tidy { Tidy self.new }
    {
        self.apply(slot, changes);
        self.put_held(slot, ask, held, values);
        self.store(slot, &new_values(ask, values));
    }

    /// Deposits the byte that a call of slot's job holds in its word, by the pointer that the call
    /// then has.
    pub(crate) fn put_held(&mut self, slot: Slot, ask: &Ask, held: Option<Held>, values: &[Word])
        requires job { HasJob (machine_of self.old) slot }
        requires fits { IfSome held (HeldFits (core_of ((machine_of self.old).jobs slot)) (with_new_values ask.now values.now)) }
        requires tidy { Tidy self.old }
        ensures row { Becomes self.old self.new (in_job (machine_of self.old) slot (with_held (with_new_values ask.now values.now) held)) }
        ensures tidy { Tidy self.new }
    {
        within(slot);
        if let Some(h) = held {
            let pointer = new_input(ask, values, 1);
            let store = deposited(&self.core, slot, pointer, h);
            self.store(slot, &[store]);
        }
    }
}

/// For each slot whether its job is one of those that a call of a slot's job disturbs, in a machine
/// whose parts are lent.
fn marks_of(seen: &Seen<'_>, slot: Slot, disturbed: Disturbed) -> Marks
    requires few { (k : ℕ) → slots ≤ k → among k (slots_of disturbed (machine_seen seen.now) slot (superior_at seen.now.jobs.now slot)) ≡ false }
    ensures { (k : ℕ) → slice_index_or result k false ≡ among k (slots_of disturbed (machine_seen seen.now) slot (superior_at seen.now.jobs.now slot)) }
{
    let mut marks = [false; SLOTS];
    for k in 0..SLOTS {
        marks[k] = disturbs(seen, slot, disturbed, Slot::new(k as u8));
    }
    marks
}

/// Whether a decision makes a job.
fn makes_job(decision: &Decision) -> bool
    ensures { result ≡ makes_job decision.now }
{
    match decision {
        Decision::Waits(_) => false,
        Decision::Goes { changes, .. } => make_job(changes),
        Decision::Ends { changes, .. } => make_job(changes),
        Decision::Gone { changes } => make_job(changes),
    }
}

/// Whether one of these changes makes a job.
fn make_job(changes: &[Change]) -> bool
    ensures { result ≡ list_any is_making changes.now }
{
    changes.iter().any(|c| is_making(c))
}

/// Whether a change makes a job.
fn is_making(change: &Change) -> bool
    ensures { result ≡ is_making change.now }
{
    matches!(change, Change::Make { .. })
}

/// The store of a byte that is held, by a pointer, into its word of a slot's core.
fn deposited(core: &Core, slot: Slot, pointer: Word, held: Held) -> Store
    requires size { IsTrue (has_size pointer) }
    ensures { result ≡ deposited (core_at core.now slot) pointer held }
{
    let word = core.word(slot, held.place).unwrap_or(Word::ZERO);
    Store {
        at: held.place,
        word: deposit(pointer, word, held.byte.value()),
    }
}

/// The value of an input of a call whose last inputs have these new values; 0 if there is no such
/// input.
fn new_input(ask: &Ask, values: &[Word], k: usize) -> Word
    ensures { result ≡ input (with_new_values ask.now values.now) k }
{
    let kept = ask.inputs.len().saturating_sub(values.len());
    let Some(operand) = ask.inputs.get(k) else {
        return Word::ZERO;
    };
    if k < kept {
        operand.value
    } else {
        values[k - kept]
    }
}

/// The new values of the last inputs of a call, as stores at their places.
pub(crate) fn new_values(ask: &Ask, values: &[Word]) -> ArrayVec<Store, 2>
    requires { length values.now ≤ 2 }
    ensures { result.items ≡ debts (with_new_values ask.now values.now) (length values.now) }
{
    let kept = ask.inputs.len().saturating_sub(values.len());
    let mut stores = ArrayVec::new();
    for k in 0..values.len() {
        if kept + k < ask.inputs.len() {
            push_store(&mut stores, ask.inputs[kept + k].place, values[k]);
        }
    }
    stores
}

/// Adds the store of a word, if it has a place.
fn push_store(stores: &mut ArrayVec<Store, 2>, place: Option<u32>, word: Word)
    requires room { length stores.old.items < 2 }
    ensures more { stores.new.items ≡ stores.old.items ++ store_of (record { value = word; place = place }) [] }
    ensures few { length stores.new.items ≤ length stores.old.items + 1 }
{
    if let Some(at) = place {
        stores.push(Store { at, word });
    }
}
