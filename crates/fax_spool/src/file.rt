//! A file of records: before each stands a header of 15 octets, a gate of one octet three times and its length in four octets three
//! times. A record counts where its gate is open (1). Each octet of a header is read as the value that two of its copies have, so
//! that one turned octet harms at most one record. A shut gate (0) stands after the last one, three times too, and is on the disk
//! before anything is written after it.
ghost use Rattle.std.specs.Prelude.{◌≡◌, ◌≢◌, ◌⊎◌, ◌+◌, ◌<◌, ◌≤◌, ◌^◌, ◌++◌, [], ◌∷◌, List, ℕ, drop, length, map, false, IfOk, OnOk, IsTrue, MatchOption, ◌↔◌};
ghost use Rattle.std.specs.List.{All};
ghost use Rattle.std.specs.Int.{w32, to_be_bytes};
ghost use Rattle.fax_spool.specs.Records.{Stands, body, blocks, shut, BeginsWith, Ends, IsShort, is_open, length_in, voted};
ghost use Rattle.fax_spool.specs.Found.{IsFoundIn, IsFoundOf, is_destroyed, items_of, passed_over};
ghost use Rattle.sqlite_disk.specs.Disk.{Torn, Holds, Only, Follows};
ghost use Rattle.fax_spool.specs.Settled.{IsSettled};

use sqlite_disk::Disk;
use std::alloc::{AllocError, Global};
use std::io;

/// The most octets of a file to which records are put.
pub(crate) const MOST: usize = 1 << 60;

/// The most octets of a record.
const MOST_OCTETS: usize = 0xffff_ffff;

/// How many octets a gate has.
const GATE: usize = 3;

/// How many octets a header has.
pub(crate) const HEADER: usize = 15;

/// A file of records, with the place after the last of them, in octets. What `recover` answers begins one.
#[derive(Drop)]
pub struct RecordFile<D: Disk> {
    pub disk: D,
    pub end: usize,
}

/// The length of a record, three times, and the record go after other octets. It refuses a record of 2 ^ 32 octets or more.
fn push_body(octets: &mut Vec<u8>, item: &[u8]) -> io::Result<()>
    ensures short { OnOk result (IsShort item.now) }
    ensures octets { OnOk result (octets.new.items ≡ octets.old.items ++ body item.now) }
{
    if item.len() > MOST_OCTETS {
        return Err(io::ErrorKind::FileTooLarge.into());
    }
    let length = (item.len() as u32).to_be_bytes();
    octets.extend_from_slice(&length)?;
    octets.extend_from_slice(&length)?;
    octets.extend_from_slice(&length)?;
    octets.extend_from_slice(item)?;
    Ok(())
}

/// What is written after the gate of the first of some records: its length three times, the record, the others with open gates,
/// and the gate of the next one, shut.
fn bodies_of(alloc: Global, first: &[u8], others: &[Vec<u8>]) -> io::Result<Vec<u8>>
    ensures short { OnOk result (All IsShort (first.now ∷ map (λ v. v.items) others.now)) }
    ensures octets { IfOk result
        (λ v. v.items ≡ body first.now ++ blocks (map (λ v. v.items) others.now) ++ shut) }
{
    let mut octets = Vec::new(alloc);
    push_body(&mut octets, first)?;
    let mut rest = others;
    while let Some((item, after)) = rest.split_first() {
        octets.extend_from_slice(&[1, 1, 1])?;
        push_body(&mut octets, item.as_slice())?;
        rest = after;
    }
    octets.extend_from_slice(&[0, 0, 0])?;
    Ok(octets)
}

impl<D: Disk> RecordFile<D> {
    /// Adds a record. At `Ok` it is on the disk, and each later crash leaves it. At `Err` (the disk's failure, no memory,
    /// `FileTooLarge` of a record of 2 ^ 32 octets or more, or `StorageFull`) it may be on the disk or not, and the file has to be
    /// recovered before it is used again.
    pub fn put(&mut self, alloc: Global, item: &[u8]) -> io::Result<()>
        requires usable { IsTrue (D.is_usable self.old.disk) }

        ensures usable { OnOk result (IsTrue (D.is_usable self.new.disk)) }
        ensures clean { IsTrue (D.is_clean self.new.disk) → IsTrue (D.is_clean self.old.disk) }

        ensures acknowledged { OnOk result ((rs : List (List ℕ))
            → IsSettled D.seen D.may_leave D.is_usable self.old.disk self.old.end rs
            → IsSettled D.seen D.may_leave D.is_usable self.new.disk self.new.end (rs
            ++ item.now ∷ [])) }

        // Whenever the machine stops, the file stands for the records from before, with the new one or without.
        ensures crash { (rs : List (List ℕ))
            → IsSettled D.seen D.may_leave D.is_usable self.old.disk self.old.end rs → (c : List ℕ)
            → D.may_leave self.new.disk c → Stands c rs ⊎ Stands c (rs ++ item.now ∷ []) }
    {
        let octets = bodies_of(alloc, item, &[])?;
        self.write(octets.as_slice())?;
        Ok(())
    }

    /// Adds records, by two syncs for all of them. At `Ok` each is on the disk, and each later crash leaves them. At `Err` all of
    /// them are on the disk or none, and the file has to be recovered before it is used again.
    pub fn put_all(&mut self, alloc: Global, items: &[Vec<u8>]) -> io::Result<()>
        requires usable { IsTrue (D.is_usable self.old.disk) }

        ensures usable { OnOk result (IsTrue (D.is_usable self.new.disk)) }
        ensures clean { IsTrue (D.is_clean self.new.disk) → IsTrue (D.is_clean self.old.disk) }

        ensures acknowledged { OnOk result ((rs : List (List ℕ))
            → IsSettled D.seen D.may_leave D.is_usable self.old.disk self.old.end rs
            → IsSettled D.seen D.may_leave D.is_usable self.new.disk self.new.end (rs ++ map
            (λ v. v.items) items.now)) }

        // Whenever the machine stops, the file stands for the records from before, with all of the new ones or with none.
        ensures crash { (rs : List (List ℕ))
            → IsSettled D.seen D.may_leave D.is_usable self.old.disk self.old.end rs
            → (c : List ℕ) → D.may_leave self.new.disk c
            → Stands c rs ⊎ Stands c (rs ++ map (λ v. v.items) items.now) }
    {
        let Some((first, others)) = items.split_first() else {
            return Ok(());
        };
        let octets = bodies_of(alloc, first.as_slice(), others)?;
        self.write(octets.as_slice())?;
        Ok(())
    }

    /// Writes records after the shut gate, and opens it once they are on the disk. The octets are what stands after the gate of
    /// the first, and a shut gate.
    fn write(&mut self, octets: &[u8]) -> io::Result<()>
        requires usable { IsTrue (D.is_usable self.old.disk) }

        ensures usable { OnOk result (IsTrue (D.is_usable self.new.disk)) }
        ensures clean { IsTrue (D.is_clean self.new.disk) → IsTrue (D.is_clean self.old.disk) }

        ensures acknowledged { OnOk result ((rs others : List (List ℕ)) (r : List ℕ)
            → octets.now ≡ body r ++ blocks others ++ shut → All IsShort (r ∷ others)
            → IsSettled D.seen D.may_leave D.is_usable self.old.disk self.old.end rs
            → IsSettled D.seen D.may_leave D.is_usable self.new.disk self.new.end (rs
            ++ r ∷ others)) }

        ensures crash { (rs others : List (List ℕ)) (r : List ℕ)
            → octets.now ≡ body r ++ blocks others ++ shut → All IsShort (r ∷ others)
            → IsSettled D.seen D.may_leave D.is_usable self.old.disk self.old.end rs → (c : List ℕ)
            → D.may_leave self.new.disk c → Stands c rs ⊎ Stands c (rs ++ r ∷ others) }
    {
        if self.end > MOST {
            return Err(io::ErrorKind::StorageFull.into());
        }
        self.disk.write_at(self.end + GATE, octets)?;
        self.disk.sync()?;
        self.disk.write_at(self.end, &[1, 1, 1])?;
        self.disk.sync()?;
        self.end += octets.len();
        Ok(())
    }

    /// Drops all records, and gives their room on the disk back. At `Ok` each later crash leaves none of them. At `Err` the file has to
    /// be recovered before it is used again.
    pub fn clear(&mut self) -> io::Result<()>
        requires usable { IsTrue (D.is_usable self.old.disk) }

        ensures usable { OnOk result (IsTrue (D.is_usable self.new.disk)) }

        ensures acknowledged { OnOk result ((rs : List (List ℕ))
            → IsSettled D.seen D.may_leave D.is_usable self.old.disk self.old.end rs
            → IsSettled D.seen D.may_leave D.is_usable self.new.disk self.new.end []) }

        ensures room { OnOk result (self.old.end ≢ 0 → length (D.seen self.new.disk) ≡ 3) }

        // Whenever the machine stops, the file stands for all of the records or for none.
        ensures crash { (rs : List (List ℕ))
            → IsSettled D.seen D.may_leave D.is_usable self.old.disk self.old.end rs
            → (c : List ℕ) → D.may_leave self.new.disk c → Stands c rs ⊎ Stands c [] }
    {
        if self.end == 0 {
            return Ok(());
        }
        self.disk.write_at(0, &[0, 0, 0])?;
        self.disk.sync()?;
        self.end = 0;
        self.cut()?;
        Ok(())
    }

    /// Cuts a file without a record after its shut gate, so that it takes no room on the disk.
    fn cut(&mut self) -> io::Result<()>
        requires usable { IsTrue (D.is_usable self.old.disk) }

        ensures usable { OnOk result (IsTrue (D.is_usable self.new.disk)) }
        ensures end { self.new.end ≡ self.old.end }
        ensures room { OnOk result (length (D.seen self.new.disk) ≡ 3) }

        ensures acknowledged { OnOk result
            (IsSettled D.seen D.may_leave D.is_usable self.old.disk 0 []
            → IsSettled D.seen D.may_leave D.is_usable self.new.disk 0 []) }

        // Whenever the machine stops, it stands for no record.
        ensures crash { IsSettled D.seen D.may_leave D.is_usable self.old.disk 0 []
            → (c : List ℕ) → D.may_leave self.new.disk c → Stands c [] }
    {
        self.disk.set_len(GATE)?;
        self.disk.sync()?;
        Ok(())
    }
}

/// What a file was found to hold.
pub struct FileContents {
    /// Its records, in the order in which they were put.
    pub items: Vec<Vec<u8>>,
    /// The place after the last, in octets.
    pub end: usize,
    /// How many octets are passed over after them, where no shut gate stands there as it is written.
    pub passed_over: usize,
    /// Whether an open gate stands there, and no record can be read: a header is destroyed.
    pub is_destroyed: bool,
}

impl Drop for FileContents {
    fn drop(self) {
        let FileContents {
            items: _items,
            end: _end,
            passed_over: _passed_over,
            is_destroyed: _is_destroyed,
        } = self;
    }
}

/// The value that two of three copies of an octet have.
fn voted(first: u8, second: u8, third: u8) -> Option<u8>
    ensures { result ≡ voted first second third }
{
    if first == second || first == third {
        return Some(first);
    }
    if second == third {
        return Some(second);
    }
    None
}

/// Whether octets begin with a gate that is read as open.
fn is_open(head: &[u8]) -> bool
    requires { 3 ≤ length head.now }
    ensures { result ≡ is_open head.now }
{
    match voted(head[0], head[1], head[2]) {
        Some(gate) => gate == 1,
        None => false,
    }
}

/// The length of a record, as its header is read.
fn length_in(head: &[u8]) -> Option<u32>
    requires { 15 ≤ length head.now }
    ensures { result ≡ length_in head.now }
{
    let first = voted(head[3], head[7], head[11])?;
    let second = voted(head[4], head[8], head[12])?;
    let third = voted(head[5], head[9], head[13])?;
    let fourth = voted(head[6], head[10], head[14])?;
    Some(u32::from_be_bytes([first, second, third, fourth]))
}

/// How many octets are passed over, where these stand after the records.
fn passed_over(octets: &[u8]) -> usize
    ensures { result ≡ passed_over octets.now }
{
    let gate = &octets[..octets.len().min(GATE)];
    if gate.iter().all(|octet| *octet == 0) {
        return 0;
    }
    octets.len()
}

/// Whether octets, with which no record begins, begin with an open gate, and have room for a header.
fn is_destroyed(octets: &[u8]) -> bool
    ensures { result ≡ is_destroyed octets.now }
{
    octets.len() >= HEADER && is_open(octets)
}

/// The record that octets begin with, and what stands after it.
fn first_record(octets: &[u8]) -> Option<(&[u8], &[u8])>
    ensures { MatchOption result (Ends octets.now) (λ p. BeginsWith octets.now p.0.now p.1.now) }
{
    if octets.len() < HEADER {
        return None;
    }
    let (head, after) = octets.split_at(HEADER);
    if !is_open(head) {
        return None;
    }
    let len = length_in(head)? as usize;
    if len > after.len() {
        return None;
    }
    Some(after.split_at(len))
}

/// The records that octets begin with, and where they end.
pub(crate) fn records_of(alloc: Global, octets: &[u8]) -> Result<FileContents, AllocError>
    ensures { IfOk result (IsFoundIn octets.now) }
{
    let mut items = Vec::new(alloc);
    let mut rest = octets;
    while let Some((item, after)) = first_record(rest) {
        items.push(item.to_vec(alloc)?)?;
        rest = after;
    }
    Ok(FileContents {
        items,
        end: octets.len() - rest.len(),
        passed_over: passed_over(rest),
        is_destroyed: is_destroyed(rest),
    })
}

/// All octets of a file.
pub(crate) fn read_all<D: Disk>(alloc: Global, disk: &mut D) -> io::Result<Vec<u8>>
    requires usable { IsTrue (D.is_usable disk.old) }
    ensures usable { IsTrue (D.is_usable disk.new) }
    ensures octets { IfOk result (λ v. IsTrue (D.is_clean disk.new) → v.items ≡ D.seen disk.old) }
    ensures seen { D.seen disk.new ≡ D.seen disk.old }
    ensures crash { (c : List ℕ) → D.may_leave disk.new c → D.may_leave disk.old c }
{
    let len = disk.len()?;
    let mut octets = Vec::from_elem(alloc, 0u8, len)?;
    if len > 0 {
        disk.read_at(0, octets.as_mut_slice())?;
    }
    Ok(octets)
}

/// Whether a shut gate stands at a place.
fn is_shut(octets: &[u8], at: usize) -> bool
    requires { at ≤ length octets.now }
    ensures { IsTrue result
        ↔ ((3 ≤ length (drop at octets.now)) × (is_open (drop at octets.now) ≡ false)) }
{
    let after = &octets[at..];
    after.len() >= GATE && !is_open(after)
}

/// Writes a shut gate.
fn shut<D: Disk>(disk: &mut D, at: usize) -> io::Result<()>
    requires usable { IsTrue (D.is_usable disk.old) }
    ensures usable { OnOk result (IsTrue (D.is_usable disk.new)) }
    ensures crash { Follows (Torn at 3) (D.may_leave disk.old) (D.may_leave disk.new) }
    ensures others { Torn at 3 (D.seen disk.old) (D.seen disk.new) }
    ensures written { OnOk result (Holds (D.seen disk.new) at shut) }
    ensures durable { OnOk result (Only (D.seen disk.new) (D.may_leave disk.new)) }
    ensures clean { IsTrue (D.is_clean disk.new) → IsTrue (D.is_clean disk.old) }
{
    disk.write_at(at, &[0, 0, 0])?;
    disk.sync()?;
    Ok(())
}

/// Reads the records of a file that a crash may have left, and shuts the gate after them. It may crash too.
pub fn recover<D: Disk>(alloc: Global, disk: &mut D) -> io::Result<FileContents>
    requires usable { IsTrue (D.is_usable disk.old) }
    // After a restart, what is read is what is on the disk.
    requires durable { Only (D.seen disk.old) (D.may_leave disk.old) }
    ensures usable { OnOk result (IsTrue (D.is_usable disk.new)) }
    ensures found { IfOk result
        (λ f. IsTrue (D.is_clean disk.new) → IsFoundOf (D.seen disk.old) f) }
    ensures settled { IfOk result (λ f. IsTrue (D.is_clean disk.new)
        → IsSettled D.seen D.may_leave D.is_usable disk.new f.end (items_of f)) }
    // Whenever the machine stops, the file stands for the same records.
    ensures crash { IsTrue (D.is_clean disk.new) → (rs : List (List ℕ))
        → Stands (D.seen disk.old) rs → (c : List ℕ) → D.may_leave disk.new c → Stands c rs }
{
    let octets = read_all(alloc, disk)?;
    let found = records_of(alloc, octets.as_slice())?;
    if !is_shut(octets.as_slice(), found.end) {
        shut(disk, found.end)?;
    }
    Ok(found)
}
