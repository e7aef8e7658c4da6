//! Blocks at 0, which are in the accumulators, and what comes of their decoding. Numbers are octal.
ghost use Rattle.std.specs.Prelude.{◌<◌, ◌^◌, IfSome};
ghost use Rattle.its_plain.specs.Call.Footprint.{SiteFits};

use arrayvec::ArrayVec;
use its_core::Core;
use its_decode::{fetch_site, parse_site};
use its_records::{Ask, Block, Operand, Site};
use its_word::{Fault, Slot, Word, read_octal};
use std::process::Abort;
use std::test::Fail;

/// The words of a block and those after it, and its error, or its fault.
static BLOCKS: &str = "400000000000 504156470000 405000000000 = 0;
400000000000 435457634500 1000000001 402000000002 = 3;
400000000000 435457634500 1000000001 3000000005 403000000006 = 3;
400000000000 435762425453 1000000001 401000777777 = 2;
400000000000 515764000000 401000000001 = 1;
400000000000 435457634500 0 0 0 0 0 0 0 0 400000000000 = 3;
0 435457634500 401000000001 = ILO;
400000000000 435457634500 407000000001 = ILO;
400000000000 435457634500 400020000002 = ILO;
400000000000 435457634500 401000002000 = 0;
400000000000 435457634500 402000002000 = MPV";

fn number(rt: &impl Abort, text: &str) -> Word {
    read_octal(text.as_bytes()).expect(rt, "octal digits")
}

/// Puts words into the accumulators, from 0 on.
fn load(rt: &impl Abort, core: &mut Core, words: &str) {
    core.drop_all(Slot::FIRST);
    for (k, text) in words.split_whitespace().enumerate() {
        if k < 16 {
            assert!(rt; core.put(Slot::FIRST, k as u32, number(rt, text)).is_ok());
        }
    }
}

/// The site of a call at 17.
fn site_at(e: u32, channel: Option<u8>) -> Site
    requires address { e < 2 ^ 18 }
    requires channel { IfSome channel (λ n. n < 16) }
    ensures { SiteFits result }
{
    let mut decode = ArrayVec::new();
    decode.push(0o17);
    Site {
        pc: 0o17,
        e,
        channel,
        used: 0,
        decode,
    }
}

/// A block and an ask that another call has left.
fn left_over() -> (Block, Ask) {
    let mut block = ArrayVec::new();
    block.push(Word::new(7));
    let mut places = ArrayVec::new();
    places.push(9);
    let ask = Ask {
        name: Word::new(7),
        fail: 3,
        inputs: ArrayVec::new(),
        outputs: ArrayVec::new(),
        error: Some(8),
        control: Some(Word::new(8)),
        decode: places,
        operand: ArrayVec::new(),
    };
    (block, ask)
}

/// A call, decoded in both parts.
fn decoded(core: &Core, site: &Site) -> Result<Ask, Fault>
    requires { SiteFits site.now }
{
    let (mut block, mut ask) = left_over();
    parse_site(core, Slot::new(0), site, &mut block)?;
    // for the proof alone: no clause of `parse_site` says that a block has two words
    if site.channel.is_none() && block.len() < 2 {
        return Err(Fault::Ilo);
    }
    fetch_site(core, Slot::new(0), site, &block, &mut ask)?;
    Ok(ask)
}

#[test]
fn blocks(rt: HostRuntime) -> Result<(), Fail> {
    let mut core = Core::open(rt.alloc())?;
    for row in BLOCKS.split(';') {
        let mut fields = row.split('=');
        load(&rt, &mut core, fields.next().expect(&rt, "words"));
        let told = match decoded(&core, &site_at(0, None)) {
            Ok(ask) => number(&rt, fields.next().expect(&rt, "an error").trim())
                == Word::new(u64::from(ask.fail)),
            Err(Fault::Mpv) => fields.next().expect(&rt, "a fault").trim() == "MPV",
            Err(Fault::Wro) => fields.next().expect(&rt, "a fault").trim() == "WRO",
            Err(Fault::Ilo) => fields.next().expect(&rt, "a fault").trim() == "ILO",
        };
        assert!(rt; told, "{row}");
    }
    Ok(())
}

#[test]
fn a_transfer(rt: HostRuntime) -> Result<(), Fail> {
    let mut core = Core::open(rt.alloc())?;
    load(
        &rt,
        &mut core,
        "400000000000 635157640000 1000000001 5 400000000006 440700001000 3",
    );
    let ask = decoded(&core, &site_at(0, None)).expect(&rt, "an ask");
    let pointer = Operand {
        value: Word::new(0o440700001000),
        place: Some(5),
    };
    assert_eq!(rt; ask.fail, 0);
    assert_eq!(rt; ask.inputs.len(), 3);
    assert_eq!(rt; ask.inputs.get(1).copied(), Some(pointer));
    assert_eq!(rt; ask.decode.as_slice(), [0o17, 0, 1, 2, 3, 4].as_slice());
    assert_eq!(rt; ask.operand.as_slice(), [5, 6].as_slice());
    Ok(())
}

#[test]
fn an_iot(rt: HostRuntime) -> Result<(), Fail> {
    let core = Core::open(rt.alloc())?;
    let ask = decoded(&core, &site_at(3, Some(4))).expect(&rt, "an ask");
    assert_eq!(rt; ask.fail, 0);
    assert_eq!(rt; ask.error, None);
    assert_eq!(rt; ask.control, None);
    assert_eq!(rt; ask.inputs.len(), 1);
    assert_eq!(rt; ask.outputs.as_slice(), [3].as_slice());
    assert_eq!(rt; ask.decode.as_slice(), [0o17].as_slice());
    Ok(())
}
