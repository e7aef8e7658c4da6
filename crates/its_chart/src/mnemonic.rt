//! The names of opcodes (processor reference manual, "User operations").
ghost use Rattle.std.specs.Prelude.{◌≡◌, ◌<◌, ◌≤◌, ℕ, length, option_map, IfSome};
ghost use Rattle.its_chart.specs.Mnemonic.{is_named, mnemonic_of, opcode_named};
ghost use Rattle.its_chart.specs.Reading.{cell_of};
ghost use Rattle.its_chart.specs.Table.{IsNamed};

use super::text::up_to;

/// How many opcodes there are, and how many of them the chart has.
const OPCODES: u32 = 0o1000;

const CHARTED: u32 = 0o700;

/// How many bytes each opcode has in the chart.
const CELL: usize = 7;

/// The names of the opcodes from 000 to 677, eight opcodes a row; `-` if an opcode has none. Moves
/// and half words have four modes in a row, basic, immediate, memory and self; arithmetic and
/// Boolean functions basic, immediate, memory and both. Comparisons have the eight conditions in a
/// row: never, less, equal, less or equal, always, greater or equal, not equal, greater. Tests have
/// the masks right and left, then direct and swapped, under the skips never, equal, always and not.
#[rattlefmt::skip]
const CHART: &[u8; 3136] = b"\
    -      -      -      -      -      -      -      -      \
    -      -      -      -      -      -      -      -      \
    -      -      -      -      -      -      -      -      \
    -      -      -      -      -      -      -      -      \
    .IOT   -      -      .CALL  -      .BREAK -      -      \
    -      -      -      -      -      -      -      -      \
    -      -      -      -      -      -      -      -      \
    -      -      -      -      -      -      -      -      \
    -      -      -      -      -      -      -      -      \
    -      -      -      -      -      -      -      -      \
    -      -      -      -      -      -      -      -      \
    -      -      -      IBP    ILDB   LDB    IDPB   DPB    \
    -      -      -      -      -      -      -      -      \
    -      -      -      -      -      -      -      -      \
    -      -      -      -      -      -      -      -      \
    -      -      -      -      -      -      -      -      \
    MOVE   MOVEI  MOVEM  MOVES  MOVS   MOVSI  MOVSM  MOVSS  \
    MOVN   MOVNI  MOVNM  MOVNS  MOVM   MOVMI  MOVMM  MOVMS  \
    IMUL   IMULI  IMULM  IMULB  MUL    MULI   MULM   MULB   \
    IDIV   IDIVI  IDIVM  IDIVB  DIV    DIVI   DIVM   DIVB   \
    ASH    ROT    LSH    JFFO   ASHC   ROTC   LSHC   -      \
    EXCH   BLT    AOBJP  AOBJN  JRST   JFCL   XCT    -      \
    PUSHJ  PUSH   POP    POPJ   JSR    JSP    JSA    JRA    \
    ADD    ADDI   ADDM   ADDB   SUB    SUBI   SUBM   SUBB   \
    CAI    CAIL   CAIE   CAILE  CAIA   CAIGE  CAIN   CAIG   \
    CAM    CAML   CAME   CAMLE  CAMA   CAMGE  CAMN   CAMG   \
    JUMP   JUMPL  JUMPE  JUMPLE JUMPA  JUMPGE JUMPN  JUMPG  \
    SKIP   SKIPL  SKIPE  SKIPLE SKIPA  SKIPGE SKIPN  SKIPG  \
    AOJ    AOJL   AOJE   AOJLE  AOJA   AOJGE  AOJN   AOJG   \
    AOS    AOSL   AOSE   AOSLE  AOSA   AOSGE  AOSN   AOSG   \
    SOJ    SOJL   SOJE   SOJLE  SOJA   SOJGE  SOJN   SOJG   \
    SOS    SOSL   SOSE   SOSLE  SOSA   SOSGE  SOSN   SOSG   \
    SETZ   SETZI  SETZM  SETZB  AND    ANDI   ANDM   ANDB   \
    ANDCA  ANDCAI ANDCAM ANDCAB SETM   SETMI  SETMM  SETMB  \
    ANDCM  ANDCMI ANDCMM ANDCMB SETA   SETAI  SETAM  SETAB  \
    XOR    XORI   XORM   XORB   IOR    IORI   IORM   IORB   \
    ANDCB  ANDCBI ANDCBM ANDCBB EQV    EQVI   EQVM   EQVB   \
    SETCA  SETCAI SETCAM SETCAB ORCA   ORCAI  ORCAM  ORCAB  \
    SETCM  SETCMI SETCMM SETCMB ORCM   ORCMI  ORCMM  ORCMB  \
    ORCB   ORCBI  ORCBM  ORCBB  SETO   SETOI  SETOM  SETOB  \
    HLL    HLLI   HLLM   HLLS   HRL    HRLI   HRLM   HRLS   \
    HLLZ   HLLZI  HLLZM  HLLZS  HRLZ   HRLZI  HRLZM  HRLZS  \
    HLLO   HLLOI  HLLOM  HLLOS  HRLO   HRLOI  HRLOM  HRLOS  \
    HLLE   HLLEI  HLLEM  HLLES  HRLE   HRLEI  HRLEM  HRLES  \
    HRR    HRRI   HRRM   HRRS   HLR    HLRI   HLRM   HLRS   \
    HRRZ   HRRZI  HRRZM  HRRZS  HLRZ   HLRZI  HLRZM  HLRZS  \
    HRRO   HRROI  HRROM  HRROS  HLRO   HLROI  HLROM  HLROS  \
    HRRE   HRREI  HRREM  HRRES  HLRE   HLREI  HLREM  HLRES  \
    TRN    TLN    TRNE   TLNE   TRNA   TLNA   TRNN   TLNN   \
    TDN    TSN    TDNE   TSNE   TDNA   TSNA   TDNN   TSNN   \
    TRZ    TLZ    TRZE   TLZE   TRZA   TLZA   TRZN   TLZN   \
    TDZ    TSZ    TDZE   TSZE   TDZA   TSZA   TDZN   TSZN   \
    TRC    TLC    TRCE   TLCE   TRCA   TLCA   TRCN   TLCN   \
    TDC    TSC    TDCE   TSCE   TDCA   TSCA   TDCN   TSCN   \
    TRO    TLO    TROE   TLOE   TROA   TLOA   TRON   TLON   \
    TDO    TSO    TDOE   TSOE   TDOA   TSOA   TDON   TSON   \
";

/// The name of the chart for an opcode below 700.
#[tactic(auto, using(crate::proofs::ChartLaws::charted, crate::proofs::ChartLaws::chart_length))]
fn cell(opcode: u32) -> &'static [u8]
    requires { opcode < 448 }
    ensures value { result.now ≡ cell_of (mnemonic_of opcode) }
    ensures short { length result.now ≤ 7 }
{
    let place = opcode as usize * CELL;
    let chart: &[u8] = CHART;
    up_to(&chart[place..place + CELL], b" ")
}

/// The name of an opcode; None if it has none.
#[tactic(auto, using(crate::proofs::ChartLaws::no_more_names, crate::proofs::ChartLaws::unnamed, crate::proofs::ChartLaws::has_name))]
pub fn mnemonic(opcode: u32) -> Option<&'static [u8]>
    ensures value { option_map (λ n. n.now) result ≡ mnemonic_of opcode }
    ensures short { IfSome result (λ n. length n.now ≤ 7) }
{
    if opcode >= CHARTED {
        return None;
    }
    let name = cell(opcode);
    if name == b"-".as_slice() {
        None
    } else {
        Some(name)
    }
}

/// Whether a text is the name of an opcode.
fn is_named(text: &[u8], opcode: u32) -> bool
    ensures { result ≡ is_named text.now (mnemonic_of opcode) }
{
    match mnemonic(opcode) {
        Some(name) => name == text,
        None => false,
    }
}

/// The opcode of a name; None if there is no such name.
#[tactic(auto, using(crate::proofs::ChartLaws::found_here, crate::proofs::ChartLaws::found_later, crate::proofs::ChartLaws::not_found))]
pub fn opcode_named(text: &[u8]) -> Option<u32>
    ensures value { result ≡ opcode_named text.now }
    ensures below { IfSome result (λ op. op < 512) }
{
    for opcode in 0..OPCODES {
        if is_named(text, opcode) {
            return Some(opcode);
        }
    }
    None
}

/// The opcodes that have names are those that are instructions, and no name occurs twice.
pub fn each_opcode_named()
    ensures { (op : ℕ) → op < 512 → IsNamed op }
{}
