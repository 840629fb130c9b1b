//! A faster path for loads and stores whose bytes are in a short span of memory ("V" Vector Extension 1.0,
//! sections 7.4, 7.5, 7.8 and 7.9). The span is read and written at once, and its elements are copied from
//! and to a buffer, field by field or as a blend. A function that returns `None` or `false` changes nothing;
//! the caller then uses the index-by-index path of `loads` and `stores`.
ghost use Rattle.std.specs.Prelude.{◌≡◌, length};
ghost use Rattle.rv_model.specs.vector.Groups.{width_bytes};
ghost use Rattle.vector_memory.specs.Spans.{IsSpan};

use crate::addresses::Addresses;
use crate::moves::Moves;
use crate::segments::Segments;
use crate::user_bytes::UserBytes;
use lane_arith::{Body, Lane};
use rv_model::{Access, FILE_BYTES, GROUP_BYTES, VFile};

/// Segments of the indices of a body up to `stop`, and the `length` bytes of memory from the start of the
/// first segment to the end of the last. Each segment starts `distance` bytes after the one before it.
#[derive(Drop)]
pub(crate) struct Span<'a> {
    pub segments: Segments,
    pub body: Body<'a>,
    pub stop: usize,
    pub address: u64,
    pub length: usize,
    pub distance: usize,
    ghost span: { IsSpan segments body stop address length distance },
}

impl<'a, A: Addresses> Moves<'a, A> {
    ghost use Rattle.std.specs.Prelude.{◌≤◌, IfSome};
    ghost use Rattle.vector_memory.specs.SpanAccess.{IsSpanOf};

    /// Return the span of the indices up to `stop`, if no two segments overlap and it is at most as long as a
    /// register group.
    #[inline(always)]
    pub(crate) fn span(&self, stop: usize) -> Option<Span<'a>>
        requires { stop ≤ self.now.body.end }
        ensures { IfSome result
            (IsSpanOf self.now.segments self.now.body (A.address self.now.addresses) stop) }
    {
        let start = self.body.start();
        if stop <= start {
            return None;
        }
        let segment = self.segments.fields * self.segments.size;
        let distance = self.addresses.distance()?;
        if distance < segment || GROUP_BYTES < distance {
            return None;
        }
        let length = (stop - start - 1) * distance + segment;
        if GROUP_BYTES < length {
            return None;
        }
        let address = self.addresses.address(start);
        address.checked_add(length as u64)?;
        Some(Span {
            segments: self.segments,
            body: self.body.copied(),
            stop,
            address,
            length,
            distance,
        })
    }
}

impl<'a> Span<'a> {
    ghost use Rattle.std.specs.Prelude.{◌≡◌, false, length, true};
    ghost use Rattle.rv_model.specs.accesses.Transfers.{memory_stored, registers_loaded};
    ghost use Rattle.rv_model.specs.declared.memory.Access.TheVariants.{Load, Store};
    ghost use Rattle.rv_model.specs.memory.Memory.{can_access};
    ghost use Rattle.rv_model.specs.vector.Groups.{width_bytes};
    ghost use Rattle.vector_memory.specs.SegmentRoom.{place_in};
    ghost use Rattle.vector_memory.specs.SpanAccess.{IsRead, IsWritten, span_access, span_transfers};

    /// Return a copy of the span with the field size that the caller passes as a constant, so that the
    /// compiler copies each element at once. Writes to the registers or to the bytes don't change the copy,
    /// so its fields are read once.
    #[inline(always)]
    fn sized(&self, size: usize) -> Span<'a>
        requires { size ≡ self.now.segments.size }
        ensures { result ≡ self.now }
    {
        Span {
            segments: Segments {
                size,
                ..self.segments
            },
            body: self.body.copied(),
            stop: self.stop,
            address: self.address,
            length: self.length,
            distance: self.distance,
        }
    }

    /// Copy its elements, which are lanes, from its bytes to the registers; with `fill`, masked-off elements
    /// become all ones.
    #[inline(always)]
    fn read_lanes<L: Lane>(&self, bytes: &[u8], fill: bool, file: &mut VFile)
        requires length { length bytes.now ≡ self.now.length }
        requires size { self.now.segments.size ≡ width_bytes L.width }
        ensures { IsRead self.now fill bytes.now file.old file.new }
    {
        if self.is_blend() {
            self.read_blend::<L>(bytes, fill, file);
        } else {
            for field in 0..self.segments.fields {
                self.read_field::<L>(bytes, field, fill, file);
            }
        }
    }

    /// Copy its elements from its bytes to the registers, if they are lanes. Return whether they are.
    #[inline(never)]
    fn read(&self, bytes: &[u8], fill: bool, file: &mut VFile) -> bool
        requires length { length bytes.now ≡ self.now.length }
        ensures value { result ≡ true → IsRead self.now fill bytes.now file.old file.new }
        ensures unchanged { result ≡ false → file.new ≡ file.old }
    {
        match self.segments.size {
            1 => self.sized(1).read_lanes::<u8>(bytes, fill, file),
            2 => self.sized(2).read_lanes::<u16>(bytes, fill, file),
            4 => self.sized(4).read_lanes::<u32>(bytes, fill, file),
            8 => self.sized(8).read_lanes::<u64>(bytes, fill, file),
            _ => return false,
        }
        true
    }

    /// Copy its elements, which are lanes, from the registers to its bytes.
    #[inline(always)]
    fn write_lanes<L: Lane>(&self, file: &VFile, bytes: &mut [u8])
        requires length { length bytes.old ≡ self.now.length }
        requires size { self.now.segments.size ≡ width_bytes L.width }
        ensures { IsWritten self.now file.now bytes.old bytes.new }
    {
        if self.is_blend() {
            self.write_blend::<L>(file, bytes);
        } else {
            for field in 0..self.segments.fields {
                self.write_field::<L>(file, field, bytes);
            }
        }
    }

    /// Copy its elements from the registers to its bytes, if they are lanes. Return whether they are.
    #[inline(never)]
    fn write(&self, file: &VFile, bytes: &mut [u8]) -> bool
        requires length { length bytes.old ≡ self.now.length }
        ensures value { result ≡ true → IsWritten self.now file.now bytes.old bytes.new }
        ensures unchanged { result ≡ false → bytes.new ≡ bytes.old }
    {
        match self.segments.size {
            1 => self.sized(1).write_lanes::<u8>(file, bytes),
            2 => self.sized(2).write_lanes::<u16>(file, bytes),
            4 => self.sized(4).write_lanes::<u32>(file, bytes),
            8 => self.sized(8).write_lanes::<u64>(file, bytes),
            _ => return false,
        }
        true
    }

    /// Load its elements, if each byte of the span may be loaded. Return whether they were loaded.
    #[inline(always)]
    pub(crate) fn load<M: UserBytes>(&self, memory: &M, fill: bool, file: &mut VFile) -> bool
        ensures allowed { result ≡ true
            → can_access Load (M.memory memory.now) self.now.address self.now.length ≡ true }
        ensures value { result ≡ true → file.new
            ≡ registers_loaded (M.memory memory.now) (place_in self.now.segments) file.old
            (span_transfers self.now fill) }
        ensures unchanged { result ≡ false → file.new ≡ file.old }
    {
        if let Some(block) = self.block() {
            return block.load(memory, file);
        }
        let mut buffer = [0; GROUP_BYTES];
        let bytes = &mut buffer[..self.length];
        memory.read(self.address, Access::Load, bytes).is_ok() && self.read(bytes, fill, file)
    }

    /// Store its elements, if each byte of the span may be stored. Return whether they were stored.
    #[inline(always)]
    pub(crate) fn store<M: UserBytes>(&self, file: &VFile, memory: &mut M) -> bool
        ensures allowed { result ≡ true
            → can_access Store (M.memory memory.old) self.now.address self.now.length ≡ true }
        ensures value { result ≡ true → M.memory memory.new
            ≡ memory_stored (M.memory memory.old) (place_in self.now.segments) file.now
            (span_transfers self.now false) }
        ensures others { result ≡ true → memory.new ≡ M.with_memory memory.old (M.memory memory.new) }
        ensures unchanged { result ≡ false → memory.new ≡ memory.old }
    {
        if let Some(block) = self.block() {
            return block.store(file, memory);
        }
        let mut buffer = [0; GROUP_BYTES];
        let bytes = &mut buffer[..self.length];
        let Ok(()) = memory.read(self.address, Access::Store, bytes) else {
            return false;
        };
        if !self.write(file, bytes) {
            return false;
        }
        let Ok(()) = memory.write(self.address, Access::Store, bytes) else {
            return false;
        };
        true
    }
}

/// Copy the bytes of an element.
#[inline(always)]
pub(crate) fn copy_lane<L: Lane>(source: &[u8], destination: &mut [u8])
    requires source { length source.now ≡ width_bytes L.width }
    requires destination { length destination.old ≡ width_bytes L.width }
    ensures { destination.new ≡ source.now }
{
    L::load(source, 0).store(destination, 0);
}

impl Span<'_> {
    ghost use Rattle.std.specs.Prelude.{◌≡◌, ◌-◌, ◌<◌, ◌≤◌, length};
    ghost use Rattle.rv_model.specs.memory.Memory.{Memory, bytes_at, put_bytes};
    ghost use Rattle.rv_model.specs.vector.Groups.{width_bytes};
    ghost use Rattle.vector_memory.specs.FieldOrder.{for_each, load_field, store_field};
    ghost use Rattle.vector_memory.specs.SpanAccess.{span_access};

    /// Return the distance in bytes between the starts of segments. The compiler learns that it is at least
    /// the size of a field.
    #[inline(always)]
    fn step(&self) -> usize
        requires { 1 ≤ self.now.segments.fields }
        ensures { result ≡ self.now.distance }
    {
        self.distance.max(self.segments.size)
    }

    /// Return the number of segments. The compiler learns that they have room in a register group.
    #[inline(always)]
    fn count(&self) -> usize
        requires fields { 1 ≤ self.now.segments.fields }
        requires size { 1 ≤ self.now.segments.size }
        ensures { result ≡ self.now.stop - self.now.body.start }
    {
        (self.stop - self.body.start()).min(GROUP_BYTES / self.segments.size)
    }

    /// Copy one field of the active indices from its bytes to the registers; with `fill`, masked-off elements
    /// become all ones.
    #[inline(always)]
    pub(crate) fn read_field<L: Lane>(
        &self,
        bytes: &[u8],
        field: usize,
        fill: bool,
        file: &mut VFile,
    )
        requires length { length bytes.now ≡ self.now.length }
        requires size { self.now.segments.size ≡ width_bytes L.width }
        requires field { field < self.now.segments.fields }
        ensures { (m : Memory) → bytes.now ≡ bytes_at m self.now.address self.now.length
            → file.new ≡ for_each (load_field m (span_access self.now) fill field) file.old
            self.now.body.start (self.now.stop - self.now.body.start) }
    {
        let start = self.body.start();
        let size = self.segments.size;
        let distance = self.step();
        let first = self.segments.place(start, field);
        let source = &bytes[field * size..];
        let group = file.part_mut(first, FILE_BYTES);
        for segment in 0..self.count() {
            let (at, place) = (segment * distance, segment * size);
            if self.body.is_enabled(start + segment) {
                copy_lane::<L>(&source[at..at + size], &mut group[place..place + size]);
            } else if fill {
                copy_lane::<L>(&[0xff; 8][..size], &mut group[place..place + size]);
            }
        }
    }

    /// Copy one field of the active indices from the registers to its bytes.
    #[inline(always)]
    pub(crate) fn write_field<L: Lane>(&self, file: &VFile, field: usize, bytes: &mut [u8])
        requires length { length bytes.old ≡ self.now.length }
        requires size { self.now.segments.size ≡ width_bytes L.width }
        requires field { field < self.now.segments.fields }
        ensures { (m : Memory) → put_bytes m self.now.address bytes.new
            ≡ for_each (store_field file.now (span_access self.now) field) (put_bytes m self.now.address bytes.old)
            self.now.body.start (self.now.stop - self.now.body.start) }
    {
        let start = self.body.start();
        let size = self.segments.size;
        let distance = self.step();
        let first = self.segments.place(start, field);
        let group = file.part(first, FILE_BYTES);
        let destination = &mut bytes[field * size..];
        for segment in 0..self.count() {
            if self.body.is_enabled(start + segment) {
                let (at, place) = (segment * distance, segment * size);
                copy_lane::<L>(&group[place..place + size], &mut destination[at..at + size]);
            }
        }
    }
}
