//! The permissions of an image's pages.
ghost use Rattle.std.specs.Prelude.{◌≡◌, ◌<◌, ◌&&◌, None};
ghost use Rattle.rv_model.specs.images.Faults.{first_fault};
ghost use Rattle.rv_model.specs.images.Image.{placed_headers, touches_page, is_allowed_by, permissions_of};
ghost use Rattle.rv_model.specs.memory.Sizes.{page_limit};
ghost use Rattle.elf_load.specs.Pages.{EndsInMemory, grants};

use crate::faults::LOAD;
use crate::fields::{header_count, program_header};
use crate::pages::stack;
use rv_model::{PAGE_SIZE, Permissions, ProgramHeader};

/// `PF_X`, the flag of executable segments.
const EXECUTE: u32 = 1;

/// `PF_W`, the flag of writable segments.
const WRITE: u32 = 2;

/// `PF_R`, the flag of readable segments.
const READ: u32 = 4;

/// Return whether a loadable segment has an address in a page.
#[tactic(auto, unfolding(rv_model::specs::images::Image::touches_page))]
fn touches_page(header: ProgramHeader, page: u64) -> bool
    requires ends { EndsInMemory header }
    requires low { page < page_limit }
    ensures { result ≡ touches_page page header }
{
    if header.kind != LOAD {
        return false;
    }
    let start = page * PAGE_SIZE;
    let end = header.address + header.memory_size;
    header.address.max(start) < end.min(start + PAGE_SIZE)
}

/// Return whether a segment touches a page and has a flag.
fn grants(header: ProgramHeader, flag: u32, page: u64) -> bool
    requires ends { EndsInMemory header }
    requires low { page < page_limit }
    ensures { result ≡ grants flag page header }
{
    touches_page(header, page) && header.flags & flag != 0
}

/// Return whether a segment of an image, or its stack, touches a page and has a flag.
fn is_allowed_by(image: &[u8], flag: u32, page: u64) -> bool
    requires sound { first_fault image.now ≡ None }
    requires low { page < page_limit }
    ensures { result ≡ is_allowed_by flag (placed_headers image.now) page }
{
    if grants(stack(), flag, page) {
        return true;
    }
    for number in 0..usize::from(header_count(image)) {
        if grants(program_header(image, number), flag, page) {
            return true;
        }
    }
    false
}

/// Return the permissions of an image's page: the flags of all segments that touch it.
pub(crate) fn permissions_of(image: &[u8], page: u64) -> Permissions
    requires sound { first_fault image.now ≡ None }
    requires low { page < page_limit }
    ensures { result ≡ permissions_of (placed_headers image.now) page }
{
    Permissions {
        read: is_allowed_by(image, READ, page),
        write: is_allowed_by(image, WRITE, page),
        execute: is_allowed_by(image, EXECUTE, page),
    }
}
