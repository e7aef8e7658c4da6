//! Instructions by their families (processor reference manual, "User operations").

/// The source of an instruction of four opcodes in a row, and the destination of its result.
///
/// | Mode | Letter | Moves and halves | Arithmetic and Boolean functions |
/// |---|---|---|---|
/// | `Basic` | none | C(E), to AC | C(E), to AC |
/// | `Immediate` | I | 0,,E, to AC | 0,,E, to AC |
/// | `Memory` | M | AC, to C(E) | C(E), to C(E) only |
/// | `Both` | S, or B | C(E), to C(E), and to AC if A is not 0 | C(E), to both |
#[derive(Clone, Copy, Debug, PartialEq, Eq)]
pub enum Mode {
    Basic,
    Immediate,
    Memory,
    Both,
}

/// MOVE, MOVS, MOVN, MOVM.
#[derive(Clone, Copy, Debug, PartialEq, Eq)]
pub enum MoveOp {
    Plain,
    Swap,
    Negate,
    Magnitude,
}

/// Integer arithmetic with four modes each.
#[derive(Clone, Copy, Debug, PartialEq, Eq)]
pub enum ArithmeticOp {
    Add,
    Sub,
    Imul,
    Mul,
    Idiv,
    Div,
}

/// Shifts of one word and of two, and the count of zeros.
#[derive(Clone, Copy, Debug, PartialEq, Eq)]
pub enum ShiftOp {
    Ash,
    Rot,
    Lsh,
    Jffo,
    Ashc,
    Rotc,
    Lshc,
}

/// The block transfer, and jumps by AC, A or the flags.
#[derive(Clone, Copy, Debug, PartialEq, Eq)]
pub enum BranchOp {
    Blt,
    Aobjp,
    Aobjn,
    Jrst,
    Jfcl,
}

/// The stack, and the calls of subroutines.
#[derive(Clone, Copy, Debug, PartialEq, Eq)]
pub enum StackOp {
    Pushj,
    Push,
    Pop,
    Popj,
    Jsr,
    Jsp,
    Jsa,
    Jra,
}

/// The Boolean functions of AC and the source, in the order of their opcodes.
#[derive(Clone, Copy, Debug, PartialEq, Eq)]
pub enum BooleanOp {
    Setz,
    And,
    Andca,
    Setm,
    Andcm,
    Seta,
    Xor,
    Ior,
    Andcb,
    Eqv,
    Setca,
    Orca,
    Setcm,
    Orcm,
    Orcb,
    Seto,
}

/// When a comparison or count skips or jumps: by the last letters of its mnemonic, of which `Never`
/// has none.
///
/// | Condition | Letters | If |
/// |---|---|---|
/// | `Never` | none | never |
/// | `L` | L | less |
/// | `E` | E | equal |
/// | `Le` | LE | less or equal |
/// | `A` | A | always |
/// | `Ge` | GE | greater or equal |
/// | `N` | N | not equal |
/// | `G` | G | greater |
#[derive(Clone, Copy, Debug, PartialEq, Eq)]
pub enum Condition {
    Never,
    L,
    E,
    Le,
    A,
    Ge,
    N,
    G,
}

/// Comparisons and counts, with eight conditions each.
#[derive(Clone, Copy, Debug, PartialEq, Eq)]
pub enum CompareOp {
    Cai,
    Cam,
    Jump,
    Skip,
    Aoj,
    Aos,
    Soj,
    Sos,
}

/// The mask of a test: 0,,E (TR), E,,0 (TL), C(E) (TD), or C(E) with its halves swapped (TS).
#[derive(Clone, Copy, Debug, PartialEq, Eq)]
pub enum MaskOp {
    Tr,
    Tl,
    Td,
    Ts,
}

/// When a test skips: by the last letter of its mnemonic, of which `NoSkip` has none.
///
/// | Skip | Letter | If |
/// |---|---|---|
/// | `NoSkip` | none | never |
/// | `AllZero` | E | all masked bits are 0 |
/// | `Always` | A | always |
/// | `NotAllZero` | N | not all masked bits are 0 |
#[derive(Clone, Copy, Debug, PartialEq, Eq)]
pub enum SkipWhen {
    NoSkip,
    AllZero,
    Always,
    NotAllZero,
}

/// What a test does to the masked bits of AC: nothing (N), zeros (Z), the complement (C), ones (O),
/// by the third letter of its mnemonic.
#[derive(Clone, Copy, Debug, PartialEq, Eq)]
pub enum Modify {
    Unmodified,
    Zeros,
    Complement,
    Ones,
}

/// Byte instructions.
#[derive(Clone, Copy, Debug, PartialEq, Eq)]
pub enum ByteOp {
    Ibp,
    Ildb,
    Ldb,
    Idpb,
    Dpb,
}

/// An instruction, by its opcode alone. `k` of a half move is its place in the order of their
/// opcodes, below 16.
#[derive(Clone, Copy, Debug, PartialEq, Eq)]
pub enum Instruction {
    Move {
        op: MoveOp,
        mode: Mode,
    },
    Exch,
    Arithmetic {
        op: ArithmeticOp,
        mode: Mode,
    },
    Shift {
        op: ShiftOp,
    },
    Branch {
        op: BranchOp,
    },
    Xct,
    Stack {
        op: StackOp,
    },
    Compare {
        op: CompareOp,
        condition: Condition,
    },
    Boolean {
        op: BooleanOp,
        mode: Mode,
    },
    Half {
        k: u32,
        mode: Mode,
    },
    Test {
        mask: MaskOp,
        skip: SkipWhen,
        modify: Modify,
    },
    Byte {
        op: ByteOp,
    },
    Iot,
    Call,
    Break,
    Illegal,
}
