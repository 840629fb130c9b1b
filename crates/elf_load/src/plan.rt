//! A validated image, and loading it into a user's memory.
ghost use Rattle.std.specs.Prelude.{◌≡◌, ◌<◌, ◌≤◌, ◌↔◌, None, Some, Err, IsSome, IfSome, IfOk, IfErr, OnOk, OnErr};
ghost use Rattle.rv_model.specs.images.Fields.{entry_of, header_count, program_header};
ghost use Rattle.rv_model.specs.images.Faults.{first_fault};
ghost use Rattle.rv_model.specs.images.Image.{memory_of_image};
ghost use Rattle.rv_model.specs.memory.Memory.{page_count};
ghost use Rattle.rv_model.specs.memory.Sizes.{page_quota};
ghost use Rattle.user_mem.specs.Users.{with_memory};

use crate::faults::first_fault;
use crate::fields::{entry, header_count, program_header};
use crate::pages::next_page;
use crate::placing::place_image;
use rv_model::{ElfFault, MapRefusal, PAGE_QUOTA, ProgramHeader, User};
use std::alloc::Allocator;
use std::marker::Model;
use user_mem::Pool;

/// An image without a fault, ready to be loaded.
///
/// It borrows the image's bytes, and contracts represent it by these bytes.
#[derive(Drop)]
pub struct Plan<'a> {
    image: &'a [u8],
}

impl<'a> Model for Plan<'a> {
    ghost use Rattle.std.specs.Prelude.{List, ℕ, ◌≡◌, None};
    ghost use Rattle.rv_model.specs.images.Faults.{first_fault};

    ghost Value = { List ℕ };

    ghost view = { λ p. p.image.now };

    ghost invariant = { λ p. first_fault p.image.now ≡ None };
}

/// Check an ELF-64 image (ELF-64 Object File Format, "File header" and "Program header table"). Return the plan to load
/// it, or its first fault in the order of `ElfFault`. Each fault is tested over all program headers before the next.
pub fn check(image: &[u8]) -> Result<Plan<'_>, ElfFault>
    ensures fault { IfErr result (λ fault. first_fault image.now ≡ Some fault) }
    ensures sound { OnOk result (first_fault image.now ≡ None) }
    ensures plan { IfOk result (λ plan. plan ≡ image.now) }
{
    match first_fault(image) {
        Some(fault) => Err(fault),
        None => Ok(Plan { image }),
    }
}

impl Plan<'_> {
    /// Return the address of the program's first instruction.
    pub fn entry(&self) -> u64
        ensures { result ≡ entry_of self.now }
    {
        entry(self.image)
    }

    /// Return the number of program headers.
    pub fn header_count(&self) -> usize
        ensures { result ≡ header_count self.now }
    {
        usize::from(header_count(self.image))
    }

    /// Return the program header at index `number`, counted from 0.
    pub fn program_header(&self, number: usize) -> ProgramHeader
        requires { number < header_count self.now }
        ensures { result ≡ program_header self.now number }
    {
        program_header(self.image, number)
    }

    /// Return the number of pages that the image needs with its stack, or `None` above `PAGE_QUOTA`. It counts at most
    /// one page more than `PAGE_QUOTA`.
    pub fn pages(&self) -> Option<usize>
        ensures count { IfSome result (λ count. count ≡ page_count (memory_of_image self.now)) }
        ensures few { IsSome result ↔ (page_count (memory_of_image self.now) ≤ page_quota) }
    {
        let mut from = 0;
        for count in 0..=PAGE_QUOTA {
            let Some(page) = next_page(self.image, from) else {
                return Some(count);
            };
            from = page + 1;
        }
        None
    }
}

/// Replace all pages of a user with the memory that an image describes, and return the entry address.
///
/// Return `Quota` if the image needs more than `PAGE_QUOTA` pages; the pool is unchanged then. The user's old pages
/// don't count towards the quota.
pub fn place<A: Allocator>(
    plan: &Plan<'_>,
    user: User,
    pool: &mut Pool<A>,
) -> Result<u64, MapRefusal>
    ensures quota { (result ≡ Err MapRefusal.Quota)
        ↔ (page_quota < page_count (memory_of_image plan.now)) }
    ensures only_quota { IfErr result (λ refusal. refusal ≡ MapRefusal.Quota) }
    ensures refused { OnErr result (pool.new ≡ pool.old) }
    ensures entry { IfOk result (λ entry. entry ≡ entry_of plan.now) }
    ensures memory { OnOk result (pool.new ≡ with_memory pool.old user (memory_of_image plan.now)) }
{
    let Some(_) = plan.pages() else {
        return Err(MapRefusal::Quota);
    };
    place_image(plan.image, user, pool);
    Ok(plan.entry())
}
