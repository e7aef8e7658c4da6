//! From an instruction word to the instruction at the end of its chain of XCTs.
ghost use Rattle.std.specs.Prelude.{◌≡◌, ◌<◌, ◌≤◌, ◌+◌, ◌*◌, ◌^◌, ◌++◌, [], length, Ok, IfOk, IfSome};
ghost use Rattle.its_core.specs.Cores.{core_at};
ghost use Rattle.its_word.specs.Address.{is_indirect};
ghost use Rattle.its_word.specs.Limits.{budget};
ghost use Rattle.its_word.specs.Opcode.{IsRow, ac_of, opcode_of};
ghost use Rattle.its_plain.specs.Unit.Plans.{ContextFits};
ghost use Rattle.its_plain.specs.Unit.Trace.{word as word_of};
ghost use Rattle.its_plain.specs.Unit.{chain, decoded, has_row, reached, target_of, chain_step as step_of, chain_step_at};
ghost use Rattle.pdp_exec.specs.Ready.{HasFew, IsReady, Stands};

use super::reads::read;
use arrayvec::ArrayVec;
use its_core::Core;
use its_records::Job;
use its_word::{
    Address, BUDGET, BranchOp, ChainStep, Context, Fault, Instruction, Reached, Slot, Word, decode,
};

/// How many instruction words a unit can have: its own, and the targets of its XCTs.
const WORDS: u32 = BUDGET + 1;

/// The places of the words that are read, in their order.
pub type Places = ArrayVec<u32, 160>;

/// The AC field of an instruction word.
pub(crate) fn ac_field(w: Word) -> u32
    ensures value { result ≡ ac_of w }
    ensures below { result < 16 }
{
    (w.value() >> 23 & 0o17) as u32
}

/// The opcode of an instruction word.
fn opcode(w: Word) -> u32
    ensures value { result ≡ opcode_of w }
    ensures below { result < 512 }
{
    (w.value() >> 27) as u32
}

/// Whether an instruction is in the tables with this A.
fn is_legal(i: Instruction, a: u32) -> bool
    ensures { result ≡ has_row i a }
{
    match i {
        Instruction::Branch { op: BranchOp::Jrst } => a == 0 || a == 2,
        Instruction::Break => a == 0o16,
        Instruction::Call => a == 0,
        Instruction::Illegal => false,
        _ => true,
    }
}

/// The instruction of a word; Ilo if it is not in the tables.
#[inline(always)]
#[tactic(auto, unfolding(its_plain::specs::Unit::decoded))]
pub(crate) fn instruction(w: Word) -> Result<Instruction, Fault>
    ensures instruction { result ≡ decoded w }
    ensures numbers { IfOk result IsRow }
{
    let i = decode(opcode(w));
    if is_legal(i, ac_field(w)) {
        Ok(i)
    } else {
        Err(Fault::Ilo)
    }
}

/// I of an address word.
pub(crate) fn is_indirect(w: Word) -> bool
    ensures { result ≡ is_indirect w }
{
    w.value() >> 22 & 1 == 1
}

/// What is at a PC: the opcode of its word, and what the row of the word finds.
#[derive(Clone, Copy, Debug, PartialEq, Eq)]
pub struct AtHand {
    pub opcode: u32,
    pub context: Context,
}

/// What is at the PC of a job; then no place that is read has to be noted. None at a fault, and if
/// its address is indirect.
#[inline(always)]
#[tactic(auto, using(crate::proofs::ChainLaws::stands_at))]
pub fn at_hand(core: &Core, slot: Slot, job: &Job) -> Option<AtHand>
    requires pc { job.now.pc < 2 ^ 18 }
    ensures stands { IfSome result (λ f. Stands (core_at core.now slot) job.now f.opcode f.context) }
    ensures fits { IfSome result (λ f. ContextFits f.context) }
{
    let w = read(core, slot, job.pc).ok()?;
    if is_indirect(w) {
        return None;
    }
    let mut used = 0;
    let Address { e, flags_word } = core.effective(slot, w, &mut used).ok()?;
    Some(AtHand {
        opcode: opcode(w),
        context: Context {
            pc: job.pc,
            flags: job.flags,
            a: ac_field(w),
            e,
            flags_word,
            used,
        },
    })
}

/// The word at an address, which is noted; Mpv if its page is absent.
#[tactic(auto, unfolding(its_plain::specs::Unit::Trace::word))]
fn noted(core: &Core, slot: Slot, a: u32, reads: &mut Places) -> Result<Word, Fault>
    requires address { a < 2 ^ 18 }
    requires room { length reads.old.items < 160 }
    ensures answer { result ≡ (word_of (core_at core.now slot) a).answer }
    ensures reads { reads.new.items ≡ reads.old.items ++ (word_of (core_at core.now slot) a).reads }
    ensures few { length reads.new.items ≡ length reads.old.items + 1 }
{
    reads.push(a);
    read(core, slot, a)
}

/// The target of an XCT; Ilo if the budget is at its end.
#[tactic(auto, using(its_plain::proofs::TracedLaws::joined, its_plain::proofs::TracedLaws::ended), unfolding(its_plain::specs::Unit::target_of, its_plain::specs::Unit::Trace::also))]
fn target(core: &Core, slot: Slot, x: &Context, reads: &mut Places) -> Result<ChainStep, Fault>
    requires fits { ContextFits x.now }
    requires few { length reads.old.items ≤ 2 * x.now.used + 2 }
    ensures step { result ≡ (target_of (core_at core.now slot) x.now).answer }
    ensures reads { reads.new.items ≡ reads.old.items ++ (target_of (core_at core.now slot) x.now).reads }
    ensures ready { IfOk result IsReady }
    ensures few { IfOk result (HasFew (length reads.new.items)) }
{
    if x.used == BUDGET {
        return Err(Fault::Ilo);
    }
    Ok(ChainStep::Target {
        word: noted(core, slot, x.e, reads)?,
        used: x.used + 1,
    })
}

/// The place at which an instruction goes on: at the target of an XCT, else at itself.
#[tactic(auto, using(its_plain::proofs::TracedLaws::ended), unfolding(its_plain::specs::Unit::chain_step_at))]
fn step_by(
    core: &Core,
    slot: Slot,
    i: Instruction,
    x: &Context,
    reads: &mut Places,
) -> Result<ChainStep, Fault>
    requires fits { ContextFits x.now }
    requires numbers { IsRow i }
    requires few { length reads.old.items ≤ 2 * x.now.used + 2 }
    ensures step { result ≡ (chain_step_at (core_at core.now slot) i x.now).answer }
    ensures reads { reads.new.items ≡ reads.old.items ++ (chain_step_at (core_at core.now slot) i x.now).reads }
    ensures ready { IfOk result IsReady }
    ensures few { IfOk result (HasFew (length reads.new.items)) }
{
    match i {
        Instruction::Xct => target(core, slot, x, reads),
        _ => Ok(ChainStep::Found(Reached {
            instruction: i,
            context: *x,
        })),
    }
}

/// The place to which an instruction word leads, under what is left of the budget.
#[tactic(auto, using(crate::proofs::Groups::chain_step_laws), unfolding(its_plain::specs::Unit::chain_step, its_plain::specs::Unit::Trace::also, its_plain::specs::Unit::Trace::located))]
fn chain_step(
    core: &Core,
    slot: Slot,
    job: &Job,
    w: Word,
    used: u32,
    reads: &mut Places,
) -> Result<ChainStep, Fault>
    requires pc { job.now.pc < 2 ^ 18 }
    requires used { used ≤ budget }
    requires few { length reads.old.items ≤ 2 * used + 1 }
    ensures step { result ≡ (step_of (core_at core.now slot) job.now w used).answer }
    ensures reads { reads.new.items ≡ reads.old.items ++ (step_of (core_at core.now slot) job.now w used).reads }
    ensures ready { IfOk result IsReady }
    ensures few { IfOk result (HasFew (length reads.new.items)) }
{
    let i = instruction(w)?;
    let mut after = used;
    let Address { e, flags_word } = core.address(slot, w, &mut after, reads)?;
    let x = Context {
        pc: job.pc,
        flags: job.flags,
        a: ac_field(w),
        e,
        flags_word,
        used: after,
    };
    step_by(core, slot, i, &x, reads)
}

/// The instruction of a job's unit: the one at its PC, or the one at the end of its chain of XCTs.
/// The places of the words that are read to come there are noted.
#[tactic(auto, using(crate::proofs::ChainLaws::no_word, crate::proofs::ChainLaws::step_faults))]
pub fn find(core: &Core, slot: Slot, job: &Job, reads: &mut Places) -> Result<Reached, Fault>
    requires pc { job.now.pc < 2 ^ 18 }
    requires none { reads.old.items ≡ [] }
    ensures found { result ≡ (reached (core_at core.now slot) job.now).answer }
    ensures reads { reads.new.items ≡ (reached (core_at core.now slot) job.now).reads }
    ensures ready { IfOk result (λ r. IsReady (ChainStep.Found r)) }
    ensures few { IfOk result (λ r. length reads.new.items ≤ 2 * r.context.used + 2) }
{
    let mut w = noted(core, slot, job.pc, reads)?;
    let mut used = 0;
    for _step in 0..WORDS {
        match chain_step(core, slot, job, w, used, reads)? {
            ChainStep::Found(r) => return Ok(r),
            ChainStep::Target { word, used: more } => {
                w = word;
                used = more;
            }
        }
    }
    Err(Fault::Ilo)
}

/// The instruction of a job's unit, with no note of the places that are read.
pub fn reach(core: &Core, slot: Slot, job: &Job) -> Result<Reached, Fault>
    requires pc { job.now.pc < 2 ^ 18 }
    ensures found { result ≡ (reached (core_at core.now slot) job.now).answer }
    ensures ready { IfOk result (λ r. IsReady (ChainStep.Found r)) }
{
    let mut reads = Places::new();
    find(core, slot, job, &mut reads)
}
