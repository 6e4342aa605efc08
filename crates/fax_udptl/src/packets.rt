//! The packets that a datagram decides, in the order of their slots.
ghost use Rattle.std.specs.Prelude.{ℕ, ◌≡◌, ◌≤◌, ◌++◌, [], length, reverse};
ghost use Rattle.fax_udptl.specs.Reading.{AreBlocks, packets_of, texts, text_list};

use crate::secondaries::Secondaries;
use arrayvec::ArrayVec;
use std::marker::Model;

/// How many packets a block has at most.
const BLOCK: u16 = 64;

/// How many packets are sought at once: 64 blocks.
const SOUGHT: u16 = 4096;

/// Packets in the order of their slots: an iterator that walks the octets anew, once where there are up to
/// 64 secondaries, and five times at most. The octets list the nearest secondaries first, and the farthest
/// are wanted first. So a walk finds where blocks of 64 begin, for 64 blocks at a time, and a walk over the
/// last block fetches its packets.
#[derive(Drop)]
pub struct Packets<'a> {
    /// The secondaries that stand in no block yet, the nearest first.
    secondaries: Secondaries<'a>,
    /// The blocks after these.
    blocks: ArrayVec<Secondaries<'a>, 64>,
    /// The packets after these, which were fetched.
    fetched: ArrayVec<&'a [u8], 64>,
    /// What comes last.
    primary: Option<&'a [u8]>,
}

impl<'a> Model for Packets<'a> {
    ghost use Rattle.std.specs.Prelude.{List, ℕ, ◌++◌, reverse};
    ghost use Rattle.fax_udptl.specs.Reading.{AreBlocks, packets_of, texts, text_list};

    ghost Value = { List (List ℕ) };

    ghost view = { λ p. reverse (p.secondaries
        ++ packets_of p.blocks.items ++ texts p.fetched.items) ++ text_list p.primary };

    ghost invariant = { λ p. AreBlocks p.blocks.items };
}

impl<'a> Packets<'a> {
    /// These secondaries, the last first, and then the primary.
    pub(crate) fn new(secondaries: Secondaries<'a>, primary: Option<&'a [u8]>) -> Self
        ensures { result ≡ reverse secondaries.entry ++ text_list primary.entry }
    {
        Packets {
            secondaries,
            blocks: ArrayVec::new(),
            fetched: ArrayVec::new(),
            primary,
        }
    }
}

impl<'a> Iterator for Packets<'a> {
    type Item = &'a [u8];

    ghost use Rattle.std.specs.Iterator.{YieldsFirstRef, item_count};

    ghost next_gives = { YieldsFirstRef (λ p. p) };

    ghost remaining = { item_count (λ p. p) };

    fn next(&mut self) -> Option<&'a [u8]> {
        if self.fetched.is_empty() {
            fetch_last(&mut self.secondaries, &mut self.blocks, &mut self.fetched);
        }
        match self.fetched.pop() {
            Some(packet) => Some(packet),
            None => self.primary.take(),
        }
    }
}

/// Fetches the last of these secondaries.
fn fetch_last<'a>(
    secondaries: &mut Secondaries<'a>,
    blocks: &mut ArrayVec<Secondaries<'a>, 64>,
    fetched: &mut ArrayVec<&'a [u8], 64>,
)
    requires none { fetched.old.items ≡ [] }
    requires found { AreBlocks blocks.old.items }
    ensures all { secondaries.old ++ packets_of blocks.old.items
        ≡ secondaries.new ++ packets_of blocks.new.items ++ texts fetched.new.items }
    ensures some { fetched.new.items ≡ [] → secondaries.old ++ packets_of blocks.old.items ≡ [] }
    ensures found { AreBlocks blocks.new.items }
{
    if blocks.is_empty() {
        find_blocks(secondaries, blocks);
    }
    if let Some(block) = blocks.pop() {
        fetch(block, fetched);
    }
}

/// Finds the blocks of the last secondaries.
fn find_blocks<'a>(secondaries: &mut Secondaries<'a>, blocks: &mut ArrayVec<Secondaries<'a>, 64>)
    requires { blocks.old.items ≡ [] }
    ensures all { secondaries.old ≡ secondaries.new ++ packets_of blocks.new.items }
    ensures some { blocks.new.items ≡ [] → secondaries.old ≡ [] }
    ensures found { AreBlocks blocks.new.items }
{
    let kept = secondaries.left().saturating_sub(SOUGHT);
    let mut rest = secondaries.copy();
    *secondaries = rest.take_first(kept);
    while rest.left() > 0 {
        blocks.push(rest.take_first(BLOCK));
    }
}

/// Fetches the packets of a block.
fn fetch<'a>(block: Secondaries<'a>, fetched: &mut ArrayVec<&'a [u8], 64>)
    requires none { fetched.old.items ≡ [] }
    requires few { length block ≤ 64 }
    ensures { texts fetched.new.items ≡ block.entry }
{
    for packet in block {
        fetched.push(packet);
    }
}
