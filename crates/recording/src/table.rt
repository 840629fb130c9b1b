//! The table of counts: a row for each key.
ghost use Rattle.std.specs.Prelude.{◌≡◌, ◌↔◌, ◌<◌, ◌≤◌, ℕ, [], IsTrue, length, true, IfOk, IfSome, OnErr, OnOk};
ghost use Rattle.std.specs.Vec.{vec_capacity};
ghost use Rattle.rv_model.specs.instructions.Table.{scan, table};
ghost use Rattle.recording.specs.Classes.{class_of as class_of_instruction};
ghost use Rattle.recording.specs.Sums.{HasMore, IsRowOf, more_of, no_more, no_sums, once};
ghost use Rattle.recording.specs.Rows.{AreFull};
ghost use Rattle.recording.specs.declared.key.Key.{Key};
ghost use Rattle.recording.specs.declared.key.Key.TheVariants.{Jump, Length, Word};

use crate::class::{Class, class_of};
use crate::fault::TableFull;
use crate::key::Key;
use crate::row::Row;
use crate::sums::Sums;
use std::alloc::{AllocError, Allocator, Global};

/// Number of bits of an index into the hash table.
const PLACE_BITS: u32 = 17;

/// Largest number of rows, one for each distinct word, length or jump of a run. They take about 10 MB.
pub const ROWS: usize = 1 << PLACE_BITS;

/// Number of slots of the hash table.
const PLACES: usize = ROWS;

/// Value of an empty slot.
const NO_ROW: u32 = u32::MAX;

/// An odd number near 2^64 divided by the golden ratio, the multiplier of the hash function.
const SCATTER: u64 = 0x9e37_79b9_7f4a_7c15;

/// The used rows, in the order of their first use, and a hash table of their indices, which only speeds up the search.
///
/// Only `new` allocates memory, and the memory of unused rows isn't touched.
#[derive(Drop)]
pub struct Table<A: Allocator = Global> {
    pub rows: Vec<Row, A>,
    places: Vec<u32, A>,
    last_length: usize,
}

/// Return the first slot of the search for a key of two numbers. The result affects only the speed.
#[inline(always)]
fn start_of(first: u64, second: u64) -> usize {
    let mixed = first.wrapping_add(second << 32);
    (mixed.wrapping_mul(SCATTER) >> (64 - PLACE_BITS)) as usize
}

/// Return the slot at a distance from `start`, wrapping around at the end; this reaches each slot if their number is a
/// power of two.
#[tactic(auto, using(std::proofs::lemmas::Nat::and_le_r))]
#[inline(always)]
fn place_at(start: usize, distance: usize, places: usize) -> usize
    requires { 0 < places }
    ensures { result < places }
{
    start.wrapping_add(distance) & (places - 1)
}

/// Return the class for the row of a key: that of the instruction for a word, otherwise `Plain`.
fn class_for(key: Key) -> Class
    ensures { (pc word : ℕ) → key ≡ Word pc word → result ≡ class_of_instruction (scan table word) }
{
    match key {
        Key::Word { pc: _, word } => class_of(word),
        Key::Length { vtype: _, vl: _ } | Key::Jump { pc: _, target: _ } => Class::Plain,
    }
}

/// Return a row for a key, with zero counts.
fn new_row(key: Key) -> Row
    ensures key { result.key ≡ key }
    ensures sums { result.sums ≡ no_sums }
{
    Row {
        key,
        class: class_for(key),
        sums: Sums::none(),
    }
}

/// Return whether a row has a key.
fn is_of(row: &Row, key: Key) -> bool
    ensures { IsTrue result ↔ (row.now.key ≡ key) }
{
    row.key == key
}

/// Return whether a row is that of a word at an address.
#[inline(always)]
fn is_of_word(row: &Row, pc: u64, word: u32) -> bool
    ensures { result ≡ true → row.now.key ≡ Word pc word }
{
    match row.key {
        Key::Word {
            pc: its_pc,
            word: its_word,
        } => its_pc == pc && its_word == word,
        Key::Length { vtype: _, vl: _ } | Key::Jump { pc: _, target: _ } => false,
    }
}

/// Return whether a row is that of a vector type and length.
#[inline(always)]
fn is_of_length(row: &Row, vtype: u64, vl: u16) -> bool
    ensures { result ≡ true → row.now.key ≡ Length vtype vl }
{
    match row.key {
        Key::Length {
            vtype: its_vtype,
            vl: its_vl,
        } => its_vtype == vtype && its_vl == vl,
        Key::Word { pc: _, word: _ } | Key::Jump { pc: _, target: _ } => false,
    }
}

/// Return the index if a row with this index exists and has the key, otherwise `None`.
fn row_at(rows: &[Row], index: u32, key: Key) -> Option<usize>
    ensures { IfSome result (λ i. IsRowOf key i rows.now) }
{
    let index = index as usize;
    if index < rows.len() && is_of(&rows[index], key) {
        return Some(index);
    }
    None
}

impl<A: Allocator + Copy> Table<A> {
    /// Return a table without rows. Fails if the allocator has no room for the largest number of rows.
    pub fn new(alloc: A) -> Result<Self, AllocError>
        ensures empty { IfOk result (λ table. table.rows.items ≡ []) }
        ensures room { IfOk result (λ table. vec_capacity table.rows ≡ 131072) }
    {
        Ok(Table {
            rows: Vec::with_capacity(alloc, ROWS)?,
            places: vec![in alloc; NO_ROW; PLACES]?,
            last_length: 0,
        })
    }
}

impl<A: Allocator> Table<A> {
    /// Add a row for a key, and put its index into a slot, if one is given. Return its index, or an index past the last
    /// row if the table is full.
    fn add_row(&mut self, key: Key, place: Option<usize>) -> usize
        requires { IfSome place (λ place. place < length self.old.places.items) }
        ensures row { result < length self.new.rows.items → IsRowOf key result self.new.rows.items }
        ensures totals { HasMore no_more self.old.rows.items self.new.rows.items }
        ensures full { length self.new.rows.items ≤ result → AreFull (vec_capacity self.new.rows) self.new.rows.items }
    {
        let index = self.rows.len();
        if index >= ROWS || index >= self.rows.capacity() {
            return index;
        }
        self.rows.push_reserved(new_row(key));
        if let Some(place) = place {
            self.places[place] = index as u32;
        }
        index
    }

    /// Return the first slot, from `start` on and wrapping around, that is empty or has the row of a key.
    fn find(&self, key: Key, start: usize) -> Option<usize>
        ensures { IfSome result (λ place. place < length self.now.places.items) }
    {
        for distance in 0..self.places.len() {
            let place = place_at(start, distance, self.places.len());
            let index = self.places[place];
            if index == NO_ROW || row_at(self.rows.as_slice(), index, key).is_some() {
                return Some(place);
            }
        }
        None
    }

    /// Return the index of the row of a key after a search from the slot `start` on. Add a row if there is none yet.
    /// The index is past the last row if the table is full.
    #[inline(never)]
    fn found_row(&mut self, key: Key, start: usize) -> usize
        ensures row { result < length self.new.rows.items → IsRowOf key result self.new.rows.items }
        ensures totals { HasMore no_more self.old.rows.items self.new.rows.items }
        ensures full { length self.new.rows.items ≤ result → AreFull (vec_capacity self.new.rows) self.new.rows.items }
    {
        // While the table has room for a row, a slot is empty; the proof doesn't need that.
        let Some(place) = self.find(key, start) else {
            return self.add_row(key, None);
        };
        match row_at(self.rows.as_slice(), self.places[place], key) {
            Some(index) => index,
            None => self.add_row(key, Some(place)),
        }
    }

    /// Return the index of the row of a key; add a row if there is none yet. Fails if the table is full.
    #[inline(always)]
    fn row_of(&mut self, key: Key, start: usize) -> Result<usize, TableFull>
        ensures row { IfOk result (λ i. IsRowOf key i self.new.rows.items) }
        ensures totals { HasMore no_more self.old.rows.items self.new.rows.items }
        ensures full { OnErr result (AreFull (vec_capacity self.new.rows) self.new.rows.items) }
    {
        let index = self.found_row(key, start);
        if index < self.rows.len() {
            return Ok(index);
        }
        Err(TableFull)
    }

    /// Return the index of the row of a word at an address, usually from the first slot. Fails if the table is full.
    #[inline(always)]
    pub(crate) fn word_row(&mut self, pc: u64, word: u32) -> Result<usize, TableFull>
        ensures row { IfOk result (λ i. IsRowOf (Word pc word) i self.new.rows.items) }
        ensures totals { HasMore no_more self.old.rows.items self.new.rows.items }
        ensures full { OnErr result (AreFull (vec_capacity self.new.rows) self.new.rows.items) }
    {
        let start = start_of(pc, u64::from(word));
        if start < self.places.len() {
            let index = self.places[start] as usize;
            if index < self.rows.len() && is_of_word(&self.rows[index], pc, word) {
                return Ok(index);
            }
        }
        self.row_of(Key::Word { pc, word }, start)
    }

    /// Return the index of the row of a vector type and length, usually the last one used. Fails if the table is full.
    #[inline(always)]
    fn length_row(&mut self, vtype: u64, vl: u16) -> Result<usize, TableFull>
        ensures row { IfOk result (λ i. IsRowOf (Length vtype vl) i self.new.rows.items) }
        ensures totals { HasMore no_more self.old.rows.items self.new.rows.items }
        ensures full { OnErr result (AreFull (vec_capacity self.new.rows) self.new.rows.items) }
    {
        let last = self.last_length;
        if last < self.rows.len() && is_of_length(&self.rows[last], vtype, vl) {
            return Ok(last);
        }
        let index = self.row_of(Key::Length { vtype, vl }, start_of(vtype, u64::from(vl)))?;
        self.last_length = index;
        Ok(index)
    }

    /// Add sums to the row with an index.
    #[inline(always)]
    pub(crate) fn count_at(&mut self, index: usize, sums: Sums)
        requires { index < length self.old.rows.items }
        ensures { (key : Key) → IsRowOf key index self.old.rows.items
            → HasMore (more_of key sums) self.old.rows.items self.new.rows.items }
    {
        let row = &mut self.rows[index];
        row.sums = row.sums.added(sums);
    }

    /// Count a vector type and length once. Fails if the table is full.
    #[inline(always)]
    pub(crate) fn count_length(&mut self, vtype: u64, vl: u16) -> Result<(), TableFull>
        ensures counted { OnOk result (HasMore (more_of (Length vtype vl) once) self.old.rows.items self.new.rows.items) }
        ensures full { OnErr result (AreFull (vec_capacity self.new.rows) self.new.rows.items) }
    {
        let index = self.length_row(vtype, vl)?;
        self.count_at(index, Sums::once());
        Ok(())
    }

    /// Count a jump from one address to another once. Fails if the table is full.
    #[inline(never)]
    pub(crate) fn count_jump(&mut self, pc: u64, target: u64) -> Result<(), TableFull>
        ensures counted { OnOk result (HasMore (more_of (Jump pc target) once) self.old.rows.items self.new.rows.items) }
        ensures full { OnErr result (AreFull (vec_capacity self.new.rows) self.new.rows.items) }
    {
        let index = self.row_of(Key::Jump { pc, target }, start_of(pc, target))?;
        self.count_at(index, Sums::once());
        Ok(())
    }
}
