//! The pages that an image touches, in ascending order.
ghost use Rattle.std.specs.Prelude.{◌≡◌, ◌+◌, ◌<◌, None, IfSome};
ghost use Rattle.rv_model.specs.images.Faults.{first_fault};
ghost use Rattle.rv_model.specs.images.Image.{stack, placed_headers, touches_page, is_touched};
ghost use Rattle.rv_model.specs.memory.Sizes.{page_limit};
ghost use Rattle.elf_load.specs.Pages.{IsFirstIfAny, EndsInMemory, earlier};

use crate::faults::LOAD;
use crate::fields::{header_count, program_header};
use rv_model::{PAGE_SIZE, ProgramHeader};

/// Return the stack as a loadable segment: readable and writable, four pages.
#[tactic(auto, unfolding(rv_model::specs::images::Image::stack))]
pub(crate) fn stack() -> ProgramHeader
    ensures { result ≡ stack }
{
    ProgramHeader {
        kind: LOAD,
        flags: 6,
        offset: 0,
        address: 0x7fff_b000,
        file_size: 0,
        memory_size: 4 * PAGE_SIZE,
    }
}

/// Return the first page, from page number `from` on, that a segment touches.
fn first_touched(header: ProgramHeader, from: u64) -> Option<u64>
    requires { EndsInMemory header }
    ensures first { IsFirstIfAny (λ page. touches_page page header) from result }
    ensures bound { IfSome result (λ page. page < page_limit) }
{
    if header.kind != LOAD {
        return None;
    }
    if header.memory_size == 0 {
        return None;
    }
    let first = (header.address / PAGE_SIZE).max(from);
    let last = (header.address + header.memory_size - 1) / PAGE_SIZE;
    if first <= last { Some(first) } else { None }
}

/// Return the lower of two optional pages.
fn earlier(first: Option<u64>, second: Option<u64>) -> Option<u64>
    ensures { result ≡ earlier first second }
{
    match (first, second) {
        (None, other) => other,
        (Some(page), None) => Some(page),
        (Some(page), Some(other)) => Some(page.min(other)),
    }
}

/// Return the first page, from page number `from` on, that an image or its stack touches.
pub(crate) fn next_page(image: &[u8], from: u64) -> Option<u64>
    requires { first_fault image.now ≡ None }
    ensures first { IsFirstIfAny (is_touched (placed_headers image.now)) from result }
    ensures bound { IfSome result (λ page. page < page_limit) }
{
    let mut next = first_touched(stack(), from);
    for number in 0..usize::from(header_count(image)) {
        next = earlier(next, first_touched(program_header(image, number), from));
    }
    next
}
