//! What no contract says: that memory is there, and worked bits from outside.
use fax_bits::*;
use std::alloc::Global;
use std::test::Fail;

/// 1010 0101 0000 1111
const OCTETS: [u8; 2] = [0xa5, 0x0f];

/// What is peeked at after three bits: five, the last thirteen and one more; and how many bits are passed and left there.
fn after_three_bits() -> Option<([Option<u32>; 3], [u128; 2])> {
    let mut reader = BitReader::new(&OCTETS);
    if !reader.has(3) {
        return None;
    }
    reader.skip(3);
    let peeked = [reader.peek(5), reader.peek(13), reader.peek(14)];
    Some((peeked, [reader.place(), reader.left()]))
}

/// Writes so many of a number's bits, its low ones: all of it where it has no more.
fn put(writer: &mut BitWriter, number: u32, bits: u32) -> Result<(), NoMemory> {
    writer.put(number, bits.min(32))
}

/// Numbers, and how many of their bits are put.
const PUT: &[(u32, u32)] = &[(0b101, 3), (0xffff_ff05, 5), (0xdead_beef, 32), (1, 1)];

/// The octets of these numbers, of zeros, and of what is cut again.
const WRITTEN: &[u8] = &[0xa5, 0xde, 0xad, 0xbe, 0xef, 0x80, 0x30];

/// Whether these are written, and how many bits that makes.
fn written(alloc: Global) -> Result<(u128, bool), NoMemory> {
    let mut writer = BitWriter::new(alloc);
    for (number, bits) in PUT {
        put(&mut writer, *number, *bits)?;
    }
    writer.zeros(9)?;
    put(&mut writer, 0b111, 3)?;
    writer.cut(writer.bits().min(52));
    Ok((writer.bits(), writer.finish().as_slice() == WRITTEN))
}

#[test]
fn reads_the_most_significant_bit_first(rt: HostRuntime) {
    assert!(rt; after_three_bits() == Some(([Some(0b00101), Some(0x050f), None], [3, 13])));
}

#[test]
fn writes_the_most_significant_bit_first(rt: HostRuntime) {
    assert!(rt; written(rt.alloc()) == Ok((52, true)));
}

#[test]
fn want_of_memory_has_a_text(rt: HostRuntime) -> Result<(), Fail> {
    assert!(rt; NoMemory.to_string(rt.alloc())?.as_str() == "out of memory");
    Ok(())
}
