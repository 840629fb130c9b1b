//! The fields of an image's headers, at their byte offsets.
ghost use Rattle.std.specs.Prelude.{◌≡◌, ◌+◌, ◌*◌, ◌≤◌, length};
ghost use Rattle.rv_model.specs.images.Fields.{number_in_file, entry_of, table_offset, header_count, header_at};
ghost use Rattle.rv_model.specs.images.Fields.{program_header};

use byteorder::{ByteOrder, LittleEndian};
use rv_model::ProgramHeader;

/// Return the little-endian number in the two bytes at `offset`.
#[tactic(auto, unfolding(rv_model::specs::images::Fields::number_in_file))]
fn number16(image: &[u8], offset: usize) -> u16
    requires { offset + 2 ≤ length image.now }
    ensures { result ≡ number_in_file offset 2 image.now }
{
    LittleEndian::read_u16(&image[offset..])
}

/// Return the little-endian number in the four bytes at `offset`.
#[tactic(auto, unfolding(rv_model::specs::images::Fields::number_in_file))]
fn number32(image: &[u8], offset: usize) -> u32
    requires { offset + 4 ≤ length image.now }
    ensures { result ≡ number_in_file offset 4 image.now }
{
    LittleEndian::read_u32(&image[offset..])
}

/// Return the little-endian number in the eight bytes at `offset`.
#[tactic(auto, unfolding(rv_model::specs::images::Fields::number_in_file))]
fn number64(image: &[u8], offset: usize) -> u64
    requires { offset + 8 ≤ length image.now }
    ensures { result ≡ number_in_file offset 8 image.now }
{
    LittleEndian::read_u64(&image[offset..])
}

/// Return the type of the file: `e_type`.
pub(crate) fn file_type(image: &[u8]) -> u16
    requires { 64 ≤ length image.now }
    ensures { result ≡ number_in_file 16 2 image.now }
{
    number16(image, 16)
}

/// Return the machine that the file is for: `e_machine`.
pub(crate) fn machine(image: &[u8]) -> u16
    requires { 64 ≤ length image.now }
    ensures { result ≡ number_in_file 18 2 image.now }
{
    number16(image, 18)
}

/// Return the address of the program's first instruction: `e_entry`.
pub(crate) fn entry(image: &[u8]) -> u64
    requires { 64 ≤ length image.now }
    ensures { result ≡ entry_of image.now }
{
    number64(image, 24)
}

/// Return the offset of the program header table in the file: `e_phoff`.
pub(crate) fn table_offset(image: &[u8]) -> u64
    requires { 64 ≤ length image.now }
    ensures { result ≡ table_offset image.now }
{
    number64(image, 32)
}

/// Return the size of a program header in bytes: `e_phentsize`.
pub(crate) fn header_size(image: &[u8]) -> u16
    requires { 64 ≤ length image.now }
    ensures { result ≡ number_in_file 54 2 image.now }
{
    number16(image, 54)
}

/// Return the number of program headers: `e_phnum`.
pub(crate) fn header_count(image: &[u8]) -> u16
    requires { 64 ≤ length image.now }
    ensures { result ≡ header_count image.now }
{
    number16(image, 56)
}

/// Return the program header at `offset`.
#[tactic(auto, unfolding(rv_model::specs::images::Fields::header_at))]
fn header_at(image: &[u8], offset: usize) -> ProgramHeader
    requires { offset + 56 ≤ length image.now }
    ensures { result ≡ header_at offset image.now }
{
    ProgramHeader {
        kind: number32(image, offset),
        flags: number32(image, offset + 4),
        offset: number64(image, offset + 8),
        address: number64(image, offset + 16),
        file_size: number64(image, offset + 32),
        memory_size: number64(image, offset + 40),
    }
}

/// Return the program header at index `number`, counted from 0.
#[tactic(auto, unfolding(rv_model::specs::images::Fields::program_header))]
pub(crate) fn program_header(image: &[u8], number: usize) -> ProgramHeader
    requires file { 64 ≤ length image.now }
    requires table { table_offset image.now + 56 * (number + 1) ≤ length image.now }
    ensures { result ≡ program_header image.now number }
{
    header_at(image, table_offset(image) as usize + 56 * number)
}
