//! The decoding of opcodes (processor reference manual, "User operations").
ghost use Rattle.std.specs.Prelude.{◌≡◌, ℕ, ◌/◌, ◌%◌, ◌^◌, ◌<◌};
ghost use Rattle.its_word.specs.Opcode.{IsRow, branch_opcode, boolean_for, byte_opcode, compare_opcode, condition_for, full_word_opcode, instruction_of, mask_of, mode_of, modify_for, monitor_opcode, shift_opcode, skip_for, stack_opcode, test_opcode};

use super::instruction::{
    ArithmeticOp, BooleanOp, BranchOp, ByteOp, CompareOp, Condition, Instruction, MaskOp, Mode,
    Modify, MoveOp, ShiftOp, SkipWhen, StackOp,
};

/// The modes, by the two low bits of an opcode.
const MODES: [Mode; 4] = [Mode::Basic, Mode::Immediate, Mode::Memory, Mode::Both];

/// The families of comparisons, by the middle digit of an opcode.
const COMPARES: [CompareOp; 8] = [
    // CAI, CAIL, CAIE, CAILE, CAIA, CAIGE, CAIN, CAIG
    CompareOp::Cai,
    // CAM, CAML, CAME, CAMLE, CAMA, CAMGE, CAMN, CAMG
    CompareOp::Cam,
    // JUMP, JUMPL, JUMPE, JUMPLE, JUMPA, JUMPGE, JUMPN, JUMPG
    CompareOp::Jump,
    // SKIP, SKIPL, SKIPE, SKIPLE, SKIPA, SKIPGE, SKIPN, SKIPG
    CompareOp::Skip,
    // AOJ, AOJL, AOJE, AOJLE, AOJA, AOJGE, AOJN, AOJG
    CompareOp::Aoj,
    // AOS, AOSL, AOSE, AOSLE, AOSA, AOSGE, AOSN, AOSG
    CompareOp::Aos,
    // SOJ, SOJL, SOJE, SOJLE, SOJA, SOJGE, SOJN, SOJG
    CompareOp::Soj,
    // SOS, SOSL, SOSE, SOSLE, SOSA, SOSGE, SOSN, SOSG
    CompareOp::Sos,
];

/// The Boolean functions, in the order of their opcodes.
pub const BOOLEANS: [BooleanOp; 16] = [
    BooleanOp::Setz,
    BooleanOp::And,
    BooleanOp::Andca,
    BooleanOp::Setm,
    BooleanOp::Andcm,
    BooleanOp::Seta,
    BooleanOp::Xor,
    BooleanOp::Ior,
    BooleanOp::Andcb,
    BooleanOp::Eqv,
    BooleanOp::Setca,
    BooleanOp::Orca,
    BooleanOp::Setcm,
    BooleanOp::Orcm,
    BooleanOp::Orcb,
    BooleanOp::Seto,
];

/// The conditions of comparisons, by the low digit of an opcode.
pub const CONDITIONS: [Condition; 8] = [
    Condition::Never,
    Condition::L,
    Condition::E,
    Condition::Le,
    Condition::A,
    Condition::Ge,
    Condition::N,
    Condition::G,
];

/// The skips of tests, by two bits of an opcode.
pub const SKIPS: [SkipWhen; 4] = [
    SkipWhen::NoSkip,
    SkipWhen::AllZero,
    SkipWhen::Always,
    SkipWhen::NotAllZero,
];

/// The modifications of tests, by two bits of an opcode.
pub const MODIFIES: [Modify; 4] = [
    Modify::Unmodified,
    Modify::Zeros,
    Modify::Complement,
    Modify::Ones,
];

/// The masks of tests, by two bits of an opcode.
const MASKS: [MaskOp; 4] = [MaskOp::Tr, MaskOp::Tl, MaskOp::Td, MaskOp::Ts];

/// The instruction of an opcode below 512.
#[tactic(auto, unfolding(crate::specs::Opcode::instruction_of))]
#[inline(always)]
pub fn decode(opcode: u32) -> Instruction
    requires { opcode < 512 }
    ensures instruction { result ≡ instruction_of opcode }
    ensures numbers { IsRow result }
{
    match opcode >> 6 {
        0 => monitor(opcode),
        1 => byte(opcode),
        2 => full_word(opcode),
        3 => compare(opcode),
        // SETZ   SETZI  SETZM  SETZB  AND    ANDI   ANDM   ANDB
        // ANDCA  ANDCAI ANDCAM ANDCAB SETM   SETMI  SETMM  SETMB
        // ANDCM  ANDCMI ANDCMM ANDCMB SETA   SETAI  SETAM  SETAB
        // XOR    XORI   XORM   XORB   IOR    IORI   IORM   IORB
        // ANDCB  ANDCBI ANDCBM ANDCBB EQV    EQVI   EQVM   EQVB
        // SETCA  SETCAI SETCAM SETCAB ORCA   ORCAI  ORCAM  ORCAB
        // SETCM  SETCMI SETCMM SETCMB ORCM   ORCMI  ORCMM  ORCMB
        // ORCB   ORCBI  ORCBM  ORCBB  SETO   SETOI  SETOM  SETOB
        4 => Instruction::Boolean {
            op: boolean(opcode),
            mode: mode(opcode),
        },
        // HLL    HLLI   HLLM   HLLS   HRL    HRLI   HRLM   HRLS
        // HLLZ   HLLZI  HLLZM  HLLZS  HRLZ   HRLZI  HRLZM  HRLZS
        // HLLO   HLLOI  HLLOM  HLLOS  HRLO   HRLOI  HRLOM  HRLOS
        // HLLE   HLLEI  HLLEM  HLLES  HRLE   HRLEI  HRLEM  HRLES
        // HRR    HRRI   HRRM   HRRS   HLR    HLRI   HLRM   HLRS
        // HRRZ   HRRZI  HRRZM  HRRZS  HLRZ   HLRZI  HLRZM  HLRZS
        // HRRO   HRROI  HRROM  HRROS  HLRO   HLROI  HLROM  HLROS
        // HRRE   HRREI  HRREM  HRRES  HLRE   HLREI  HLREM  HLRES
        5 => Instruction::Half {
            k: opcode >> 2 & 0o17,
            mode: mode(opcode),
        },
        // TRN    TLN    TRNE   TLNE   TRNA   TLNA   TRNN   TLNN
        // TDN    TSN    TDNE   TSNE   TDNA   TSNA   TDNN   TSNN
        // TRZ    TLZ    TRZE   TLZE   TRZA   TLZA   TRZN   TLZN
        // TDZ    TSZ    TDZE   TSZE   TDZA   TSZA   TDZN   TSZN
        // TRC    TLC    TRCE   TLCE   TRCA   TLCA   TRCN   TLCN
        // TDC    TSC    TDCE   TSCE   TDCA   TSCA   TDCN   TSCN
        // TRO    TLO    TROE   TLOE   TROA   TLOA   TRON   TLON
        // TDO    TSO    TDOE   TSOE   TDOA   TSOA   TDON   TSON
        6 => test(opcode),
        _ => Instruction::Illegal,
    }
}

#[tactic(auto, unfolding(crate::specs::Opcode::mode_of))]
fn mode(opcode: u32) -> Mode
    ensures { result ≡ mode_of opcode }
{
    MODES
        .get((opcode & 3) as usize)
        .copied()
        .unwrap_or(Mode::Basic)
}

fn boolean(opcode: u32) -> BooleanOp
    ensures { result ≡ boolean_for opcode }
{
    match opcode >> 2 & 0o17 {
        0 => BooleanOp::Setz,
        1 => BooleanOp::And,
        2 => BooleanOp::Andca,
        3 => BooleanOp::Setm,
        4 => BooleanOp::Andcm,
        5 => BooleanOp::Seta,
        6 => BooleanOp::Xor,
        7 => BooleanOp::Ior,
        8 => BooleanOp::Andcb,
        9 => BooleanOp::Eqv,
        10 => BooleanOp::Setca,
        11 => BooleanOp::Orca,
        12 => BooleanOp::Setcm,
        13 => BooleanOp::Orcm,
        14 => BooleanOp::Orcb,
        15 => BooleanOp::Seto,
        _ => BooleanOp::Setz,
    }
}

fn condition(opcode: u32) -> Condition
    ensures { result ≡ condition_for opcode }
{
    CONDITIONS
        .get((opcode & 7) as usize)
        .copied()
        .unwrap_or(Condition::Never)
}

fn skip(opcode: u32) -> SkipWhen
    ensures { result ≡ skip_for opcode }
{
    SKIPS
        .get((opcode >> 1 & 3) as usize)
        .copied()
        .unwrap_or(SkipWhen::NoSkip)
}

fn modify(opcode: u32) -> Modify
    ensures { result ≡ modify_for opcode }
{
    MODIFIES
        .get((opcode >> 4 & 3) as usize)
        .copied()
        .unwrap_or(Modify::Unmodified)
}

#[tactic(auto, unfolding(crate::specs::Opcode::monitor_opcode))]
fn monitor(opcode: u32) -> Instruction
    ensures instruction { result ≡ monitor_opcode opcode }
    ensures numbers { IsRow result }
{
    match opcode {
        0o40 => Instruction::Iot, // .IOT
        0o43 => Instruction::Call, // .CALL
        0o45 => Instruction::Break, // .BREAK
        _ => Instruction::Illegal,
    }
}

#[tactic(auto, unfolding(crate::specs::Opcode::byte_opcode))]
fn byte(opcode: u32) -> Instruction
    ensures instruction { result ≡ byte_opcode opcode }
    ensures numbers { IsRow result }
{
    match opcode {
        0o133 => Instruction::Byte { op: ByteOp::Ibp }, // IBP
        0o134 => Instruction::Byte { op: ByteOp::Ildb }, // ILDB
        0o135 => Instruction::Byte { op: ByteOp::Ldb }, // LDB
        0o136 => Instruction::Byte { op: ByteOp::Idpb }, // IDPB
        0o137 => Instruction::Byte { op: ByteOp::Dpb }, // DPB
        _ => Instruction::Illegal,
    }
}

#[tactic(auto, unfolding(crate::specs::Opcode::shift_opcode))]
fn shift(opcode: u32) -> Instruction
    ensures instruction { result ≡ shift_opcode opcode }
    ensures numbers { IsRow result }
{
    match opcode & 7 {
        0 => Instruction::Shift { op: ShiftOp::Ash }, // ASH
        1 => Instruction::Shift { op: ShiftOp::Rot }, // ROT
        2 => Instruction::Shift { op: ShiftOp::Lsh }, // LSH
        3 => Instruction::Shift { op: ShiftOp::Jffo }, // JFFO
        4 => Instruction::Shift { op: ShiftOp::Ashc }, // ASHC
        5 => Instruction::Shift { op: ShiftOp::Rotc }, // ROTC
        6 => Instruction::Shift { op: ShiftOp::Lshc }, // LSHC
        7 => Instruction::Illegal,
        _ => Instruction::Illegal,
    }
}

#[tactic(auto, unfolding(crate::specs::Opcode::branch_opcode))]
fn branch(opcode: u32) -> Instruction
    ensures instruction { result ≡ branch_opcode opcode }
    ensures numbers { IsRow result }
{
    match opcode & 7 {
        0 => Instruction::Exch, // EXCH
        1 => Instruction::Branch { op: BranchOp::Blt }, // BLT
        // AOBJP
        2 => Instruction::Branch {
            op: BranchOp::Aobjp,
        },
        // AOBJN
        3 => Instruction::Branch {
            op: BranchOp::Aobjn,
        },
        4 => Instruction::Branch { op: BranchOp::Jrst }, // JRST
        5 => Instruction::Branch { op: BranchOp::Jfcl }, // JFCL
        6 => Instruction::Xct, // XCT
        7 => Instruction::Illegal,
        _ => Instruction::Illegal,
    }
}

#[tactic(auto, unfolding(crate::specs::Opcode::stack_opcode))]
fn stack(opcode: u32) -> Instruction
    ensures instruction { result ≡ stack_opcode opcode }
    ensures numbers { IsRow result }
{
    match opcode & 7 {
        0 => Instruction::Stack { op: StackOp::Pushj }, // PUSHJ
        1 => Instruction::Stack { op: StackOp::Push }, // PUSH
        2 => Instruction::Stack { op: StackOp::Pop }, // POP
        3 => Instruction::Stack { op: StackOp::Popj }, // POPJ
        4 => Instruction::Stack { op: StackOp::Jsr }, // JSR
        5 => Instruction::Stack { op: StackOp::Jsp }, // JSP
        6 => Instruction::Stack { op: StackOp::Jsa }, // JSA
        7 => Instruction::Stack { op: StackOp::Jra }, // JRA
        _ => Instruction::Illegal,
    }
}

#[inline(always)]
#[tactic(auto, unfolding(crate::specs::Opcode::full_word_opcode))]
fn full_word(opcode: u32) -> Instruction
    ensures instruction { result ≡ full_word_opcode opcode }
    ensures numbers { IsRow result }
{
    let mode = mode(opcode);
    match opcode >> 2 & 0o17 {
        // MOVE, MOVEI, MOVEM, MOVES
        0 => Instruction::Move {
            op: MoveOp::Plain,
            mode,
        },
        // MOVS, MOVSI, MOVSM, MOVSS
        1 => Instruction::Move {
            op: MoveOp::Swap,
            mode,
        },
        // MOVN, MOVNI, MOVNM, MOVNS
        2 => Instruction::Move {
            op: MoveOp::Negate,
            mode,
        },
        // MOVM, MOVMI, MOVMM, MOVMS
        3 => Instruction::Move {
            op: MoveOp::Magnitude,
            mode,
        },
        // IMUL, IMULI, IMULM, IMULB
        4 => Instruction::Arithmetic {
            op: ArithmeticOp::Imul,
            mode,
        },
        // MUL, MULI, MULM, MULB
        5 => Instruction::Arithmetic {
            op: ArithmeticOp::Mul,
            mode,
        },
        // IDIV, IDIVI, IDIVM, IDIVB
        6 => Instruction::Arithmetic {
            op: ArithmeticOp::Idiv,
            mode,
        },
        // DIV, DIVI, DIVM, DIVB
        7 => Instruction::Arithmetic {
            op: ArithmeticOp::Div,
            mode,
        },
        8 => shift(opcode),
        9 => shift(opcode),
        10 => branch(opcode),
        11 => branch(opcode),
        12 => stack(opcode),
        13 => stack(opcode),
        // ADD, ADDI, ADDM, ADDB
        14 => Instruction::Arithmetic {
            op: ArithmeticOp::Add,
            mode,
        },
        // SUB, SUBI, SUBM, SUBB
        15 => Instruction::Arithmetic {
            op: ArithmeticOp::Sub,
            mode,
        },
        _ => Instruction::Illegal,
    }
}

#[tactic(auto, unfolding(crate::specs::Opcode::compare_opcode))]
fn compare(opcode: u32) -> Instruction
    ensures instruction { result ≡ compare_opcode opcode }
    ensures numbers { IsRow result }
{
    Instruction::Compare {
        op: COMPARES
            .get((opcode >> 3 & 7) as usize)
            .copied()
            .unwrap_or(CompareOp::Cai),
        condition: condition(opcode),
    }
}

#[tactic(auto, unfolding(crate::specs::Opcode::test_opcode))]
fn test(opcode: u32) -> Instruction
    ensures instruction { result ≡ test_opcode opcode }
    ensures numbers { IsRow result }
{
    Instruction::Test {
        mask: mask(opcode),
        skip: skip(opcode),
        modify: modify(opcode),
    }
}

#[tactic(auto, unfolding(crate::specs::Opcode::mask_of))]
fn mask(opcode: u32) -> MaskOp
    ensures { result ≡ mask_of opcode }
{
    let place = opcode / 8 % 2 * 2 + opcode % 2;
    MASKS.get(place as usize).copied().unwrap_or(MaskOp::Tr)
}
