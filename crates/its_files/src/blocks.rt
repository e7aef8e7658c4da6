//! The words of files and drafts in blocks: lists of blocks, of which each is used once or not at
//! all.

ghost use Rattle.std.specs.Prelude.{◌≡◌, ◌≢◌, ◌<◌, ◌≤◌, ◌+◌, ◌-◌, ◌*◌, ◌/◌, ◌%◌, ◌^◌, ℕ, List, [], ◌∷◌, ◌++◌, true, false, Some, None, length, slice_get, slice_set, is_err, IfOk, OnOk, OnErr};
ghost use Rattle.its_links.specs.Lists.{first};
ghost use Rattle.its_files.specs.Blocks.{text_at, free_blocks, blocks_for, blocks_of, blocks_used, is_full, room_behind, with_word_appended, after_giving_up, needs_block, with_block, block_ready, PlaceIn, numbers, blocks, block_words};
ghost use Rattle.its_files.specs.Opening.{first_has, nothing_stored};

use its_links::Links;
use its_word::{NoMemory, ReadyWords, SLOTS, Word, filled};
use std::alloc::Global;
use std::marker::Model;

/// How many blocks there are.
const BLOCKS: u32 = 2048;

/// How many words a block has.
const BLOCK_WORDS: u32 = 128;

/// How many files and drafts there are at most: 256 files, and a draft for each of the 16 channels
/// of each slot.
pub(crate) const NUMBERS: u32 = 256 + 16 * SLOTS as u32;

/// The list of the free blocks; those of the numbers come after it.
const FREE: u32 = 0;

/// All blocks are in use.
#[derive(Clone, Copy, Debug, PartialEq, Eq)]
pub struct Full;

/// A block, with the number of the text that it belongs to and its index there.
#[derive(Clone, Copy)]
pub(crate) struct Place {
    id: u32,
    index: u32,
    block: u32,
}

/// The words of files and drafts, by number. Contracts see the words of each number, and which
/// blocks are free and which are in use by whom.
///
/// The last block of each number is kept, so that a word is appended without a walk; how many
/// blocks are free; and one place, from which the walk to a later block goes on. A block's words
/// are made ready when the first of them is appended.
#[derive(Drop)]
pub(crate) struct Blocks {
    words: ReadyWords,
    lengths: Vec<u32>,
    lasts: Vec<u32>,
    free: u32,
    place: Option<Place>,
    links: Links,
}

impl Model for Blocks {
    ghost use Rattle.its_files.specs.Blocks.{Stored, stored_in, IsBlocks};

    ghost Value = { Stored };

    ghost view = { λ b. stored_in b.words.words b.links.lists b.lengths.items };

    ghost invariant = { λ b. IsBlocks b.words.words b.words.most b.lengths.items b.lasts.items b.free b.place b.links };
}

/// Lists of which the first has the nodes below n, in order, and the others are empty.
#[tactic(auto, using(crate::proofs::OpenLaws::first_has_none, crate::proofs::OpenLaws::first_has_more, its_links::proofs::CountLaws::lists))]
fn all_free(alloc: Global, n: u32, heads: u32) -> Result<Links, NoMemory>
    requires fits { n + heads < 2 ^ 32 }
    requires some { 0 < heads }
    ensures { IfOk result (λ l. l ≡ record { nodes = n; lists = first_has heads n }) }
{
    let mut links = Links::open(alloc, n, heads)?;
    for block in 0..n {
        links.push_back(FREE, block);
    }
    Ok(links)
}

/// The block for the next word of a text: its last one, or if that has no room the first free one,
/// which becomes its last.
fn block_for(links: &mut Links, id: u32, count: u32, last: u32) -> Result<u32, Full>
    requires id { id < numbers }
    requires heads { length links.old.lists ≡ numbers + 1 }
    ensures old_block { IfOk result (λ b. needs_block count ≡ false → (links.new ≡ links.old) × (b ≡ last)) }
    ensures new_block { IfOk result (λ b. needs_block count ≡ true → (first (free_blocks links.old.lists) ≡ Some b) × (links.new ≡ record links.old { lists = with_block links.old.lists id })) }
    ensures full { OnErr result ((needs_block count ≡ true) × (free_blocks links.old.lists ≡ [])) }
    ensures same { OnErr result (links.new ≡ links.old) }
{
    if count % BLOCK_WORDS != 0 {
        return Ok(last);
    }
    let Some(block) = links.pop_front(FREE) else {
        return Err(Full);
    };
    links.push_back(id + 1, block);
    Ok(block)
}

/// A place of a number from which the walk to a block goes on: the one that is kept, if that is on
/// the way, else the first.
fn start(links: &Links, place: Option<Place>, id: u32, index: u32) -> Place
    requires number { id < numbers }
    requires heads { length links.now.lists ≡ numbers + 1 }
    requires kept { PlaceIn links.now.lists place }
    requires index { index < length (blocks_of links.now.lists id) }
    ensures block { slice_get (blocks_of links.now.lists id) result.index ≡ Some result.block }
    ensures behind { result.index ≤ index }
{
    match place {
        Some(place) if place.id == id && place.index <= index => place,
        _ => Place {
            id,
            index: 0,
            block: links.front(id + 1).unwrap(),
        },
    }
}

/// The block of a number with an index that it has.
#[tactic(auto, using(crate::proofs::ChainLaws::standing))]
fn block_at(links: &Links, place: Option<Place>, id: u32, index: u32) -> u32
    requires number { id < numbers }
    requires heads { length links.now.lists ≡ numbers + 1 }
    requires kept { PlaceIn links.now.lists place }
    requires index { index < length (blocks_of links.now.lists id) }
    ensures block { slice_get (blocks_of links.now.lists id) index ≡ Some result }
    ensures within { result < links.now.nodes }
{
    links.seen();
    let Place {
        index: first,
        mut block,
        ..
    } = start(links, place, id, index);
    for _at in first..index {
        block = links.next(block).unwrap();
    }
    block
}

/// The place of a word of a block.
fn word_index(block: u32, k: u32) -> usize
    requires { block < blocks }
    ensures { result ≡ 128 * block + k % 128 }
{
    (block * BLOCK_WORDS + k % BLOCK_WORDS) as usize
}

/// Puts a word into a block, whose words it makes ready if they are not.
fn put_word(words: &mut ReadyWords, block: u32, k: u32, w: Word)
    requires block { block < blocks }
    requires most { words.old.most ≡ blocks * block_words }
    ensures words { words.new.words ≡ slice_set (block_ready words.old.words block) (128 * block + k % 128) w }
    ensures most { words.new.most ≡ words.old.most }
{
    words.make_ready((block * BLOCK_WORDS + BLOCK_WORDS) as usize);
    words.set(word_index(block, k), w);
}

/// How many blocks so many words take.
fn blocks_for(words: u32) -> u32
    requires { words < 2 ^ 32 - 127 }
    ensures { result ≡ blocks_for words }
{
    (words + (BLOCK_WORDS - 1)) / BLOCK_WORDS
}

impl Blocks {
    /// No number has words. Takes all the memory that the words ever need.
    pub(crate) fn open(alloc: Global) -> Result<Blocks, NoMemory>
        ensures { IfOk result (λ b. b ≡ nothing_stored) }
    {
        Ok(Blocks {
            words: ReadyWords::open(alloc, (BLOCKS * BLOCK_WORDS) as usize)?,
            lengths: filled(alloc, 0, NUMBERS as usize)?,
            lasts: filled(alloc, 0, NUMBERS as usize)?,
            free: BLOCKS,
            place: None,
            links: all_free(alloc, BLOCKS, NUMBERS + 1)?,
        })
    }

    /// Does nothing, and says that each block is free or in use.
    pub(crate) fn seen(&self)
        ensures { length (free_blocks self.now.chains) + blocks_used self.now ≡ blocks }
    {
        let _ = &self.lengths;
    }

    /// How many words a number has.
    #[tactic(auto, using(crate::proofs::BlockLaws::length_is))]
    pub(crate) fn length(&self, id: u32) -> u32
        requires { id < numbers }
        ensures { result ≡ length (text_at self.now.texts id) }
    {
        self.lengths[id as usize]
    }

    /// The k-th word of a number, from 0; None past the last.
    pub(crate) fn word(&self, id: u32, k: u32) -> Option<Word>
        requires { id < numbers }
        ensures { result ≡ slice_get (text_at self.now.texts id) k }
    {
        if k >= self.lengths[id as usize] {
            return None;
        }
        let block = block_at(&self.links, self.place, id, k / BLOCK_WORDS);
        Some(self.words.get(word_index(block, k)))
    }

    /// Keeps the place of the k-th word of a number, so that the walk to it and to later ones is
    /// short.
    pub(crate) fn seek(&mut self, id: u32, k: u32)
        requires { id < numbers }
        ensures { self.new ≡ self.old }
    {
        if k < self.lengths[id as usize] {
            let index = k / BLOCK_WORDS;
            let block = block_at(&self.links, self.place, id, index);
            self.place = Some(Place { id, index, block });
        }
    }

    /// One more word at the end of a number's words. Full if it needs a block and all are in use.
    #[tactic(auto, using(crate::proofs::BlockLaws::length_is))]
    pub(crate) fn append(&mut self, id: u32, w: Word) -> Result<(), Full>
        requires { id < numbers }
        ensures ok { OnOk result (self.new ≡ with_word_appended self.old id w) }
        ensures full { is_err result ≡ is_full self.old id }
        ensures same { OnErr result (self.new ≡ self.old) }
    {
        let length = self.lengths[id as usize];
        let last = self.lasts[id as usize];
        let Ok(block) = block_for(&mut self.links, id, length, last) else {
            return Err(Full);
        };
        self.links.seen();
        put_word(&mut self.words, block, length, w);
        self.lengths[id as usize] = length + 1;
        self.lasts[id as usize] = block;
        self.free -= blocks_for(length + 1) - blocks_for(length);
        Ok(())
    }

    /// Whether there is no room for a word more at the end of a number's words.
    #[tactic(auto, using(crate::proofs::RoomBehindLaws::no_room))]
    pub(crate) fn is_full(&self, id: u32) -> bool
        requires { id < numbers }
        ensures { result ≡ is_full self.now id }
    {
        self.seen();
        self.room(id) == 0
    }

    /// For how many words more there is room at the end of a number's words.
    pub(crate) fn room(&self, id: u32) -> u32
        requires { id < numbers }
        ensures { result ≡ room_behind self.now id }
    {
        let length = self.lengths[id as usize];
        (BLOCK_WORDS - length % BLOCK_WORDS) % BLOCK_WORDS + self.free * BLOCK_WORDS
    }

    /// A number loses its words, and its blocks are free.
    pub(crate) fn give_up(&mut self, id: u32)
        requires { id < numbers }
        ensures { self.new ≡ after_giving_up self.old id }
    {
        self.free += blocks_for(self.lengths[id as usize]);
        self.links.splice(id + 1, FREE);
        self.lengths[id as usize] = 0;
        self.place = None;
    }
}
