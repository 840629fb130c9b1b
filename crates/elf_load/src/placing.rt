//! Loading an image into a user's memory.
ghost use Rattle.std.specs.Prelude.{◌≡◌, ◌+◌, ◌-◌, ◌<◌, ◌≤◌, None, true, length, take, drop, replicate};
ghost use Rattle.std.specs.FinMap.{empty};
ghost use Rattle.rv_model.specs.declared.memory.Access.TheVariants.{Monitor};
ghost use Rattle.rv_model.specs.images.Fields.{header_count};
ghost use Rattle.rv_model.specs.images.Faults.{first_fault};
ghost use Rattle.rv_model.specs.images.Image.{memory_of_image, all_pages};
ghost use Rattle.rv_model.specs.memory.Memory.{can_access, put_bytes, page_count};
ghost use Rattle.rv_model.specs.memory.Sizes.{page_quota, address_end};
ghost use Rattle.user_mem.specs.Users.{memory_of_user, with_memory};
ghost use Rattle.elf_load.specs.Placing.{blank_memory, memory_after};

use crate::faults::LOAD;
use crate::fields::{header_count, program_header};
use crate::pages::next_page;
use crate::permissions::permissions_of;
use rv_model::{Access, PAGE_SIZE, ProgramHeader, USER_COUNT, User};
use std::alloc::Allocator;
use user_mem::Pool;

/// The largest number of zeros in one write.
const ZERO_COUNT: usize = PAGE_SIZE as usize;

/// Write a user's bytes from `addr` on, all of them mapped.
fn write_mapped<A: Allocator>(pool: &mut Pool<A>, user: User, addr: u64, bytes: &[u8])
    requires { can_access Monitor (memory_of_user pool.old user) addr (length bytes.now) ≡ true }
    ensures { pool.new ≡ with_memory pool.old user
        (put_bytes (memory_of_user pool.old user) addr bytes.now) }
{
    let Ok(()) = pool.write(user, addr, Access::Monitor, bytes) else {
        unreachable!();
    };
}

/// Write `count` zeros to a user's bytes from `addr` on, all of them mapped.
fn clear_mapped<A: Allocator>(pool: &mut Pool<A>, user: User, addr: u64, count: u64)
    requires known { user - 1 < length pool.old }
    requires mapped { can_access Monitor (memory_of_user pool.old user) addr count ≡ true }
    requires bound { addr + count ≤ address_end }
    ensures { pool.new ≡ with_memory pool.old user
        (put_bytes (memory_of_user pool.old user) addr (replicate count 0)) }
{
    let zeros = [0; ZERO_COUNT];
    let mut done = 0;
    while done < count {
        let size = (count - done).min(PAGE_SIZE);
        write_mapped(pool, user, addr + done, &zeros[..size as usize]);
        done += size;
    }
}

/// Return a segment's bytes in the file.
fn file_part(image: &[u8], header: ProgramHeader) -> &[u8]
    requires { (header.file_size ≡ 0 → ⊥) → header.offset + header.file_size ≤ length image.now }
    ensures value { result.now ≡ take header.file_size (drop header.offset image.now) }
    ensures size { length result.now ≡ header.file_size }
{
    if header.file_size == 0 {
        return &[];
    }
    let (_, rest) = image.split_at(header.offset as usize);
    let (part, _) = rest.split_at(header.file_size as usize);
    part
}

/// Map the pages of an image, filled with zeros, for a user without pages.
fn map_pages<A: Allocator>(image: &[u8], user: User, pool: &mut Pool<A>)
    requires sound { first_fault image.now ≡ None }
    requires known { user - 1 < length pool.old }
    requires free { memory_of_user pool.old user ≡ empty }
    requires few { page_count (memory_of_image image.now) ≤ page_quota }
    ensures { pool.new ≡ with_memory pool.old user (blank_memory image.now all_pages) }
{
    let mut from = 0;
    while let Some(page) = next_page(image, from) {
        let Ok(()) = pool.map(user, page, 1, permissions_of(image, page)) else {
            unreachable!();
        };
        from = page + 1;
    }
}

/// Write the bytes of a program header's segment, which overwrite those of earlier segments.
fn write_segment<A: Allocator>(image: &[u8], number: usize, user: User, pool: &mut Pool<A>)
    requires sound { first_fault image.now ≡ None }
    requires there { number < header_count image.now }
    requires known { user - 1 < length pool.old }
    requires before { memory_of_user pool.old user ≡ memory_after image.now number }
    ensures { pool.new ≡ with_memory pool.old user (memory_after image.now (number + 1)) }
{
    let header = program_header(image, number);
    if header.kind != LOAD {
        return;
    }
    write_mapped(pool, user, header.address, file_part(image, header));
    let end = header.address + header.file_size;
    clear_mapped(pool, user, end, header.memory_size - header.file_size);
}

/// Write the bytes of all segments to the image's pages, which contain zeros.
fn write_segments<A: Allocator>(image: &[u8], user: User, pool: &mut Pool<A>)
    requires sound { first_fault image.now ≡ None }
    requires known { user - 1 < length pool.old }
    requires blank { memory_of_user pool.old user ≡ blank_memory image.now all_pages }
    ensures { pool.new ≡ with_memory pool.old user (memory_of_image image.now) }
{
    for number in 0..usize::from(header_count(image)) {
        write_segment(image, number, user, pool);
    }
}

/// Replace a user's memory with that of an image.
pub(crate) fn place_image<A: Allocator>(image: &[u8], user: User, pool: &mut Pool<A>)
    requires sound { first_fault image.now ≡ None }
    requires few { page_count (memory_of_image image.now) ≤ page_quota }
    ensures { pool.new ≡ with_memory pool.old user (memory_of_image image.now) }
{
    // Each user has a memory in the pool.
    prove!(user.index() < USER_COUNT);
    pool.drop_user(user);
    map_pages(image, user, pool);
    write_segments(image, user, pool);
}
