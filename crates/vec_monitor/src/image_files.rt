//! The files of images.
ghost use Rattle.std.specs.Prelude.{◌≡◌, ◌≤◌, ◌⊎◌, IfErr, IfOk, length, map};
ghost use Rattle.std.specs.List.{AllZip, Any};
ghost use Rattle.monitor_machine.specs.Images.{named_images};
ghost use Rattle.vec_monitor.specs.ImageFiles.{named_file, IsFileOf};
ghost use Rattle.vec_monitor.specs.declared.program_fault.ProgramFault.TheVariants.{ImageRead, NoMemory};

use crate::image_arguments::ImagePath;
use crate::program_fault::ProgramFault;
use devices::{Inputs, ReadFault, read_file};
use monitor_machine::{Image, MAX_IMAGE};
use std::alloc::{AllocError, Allocator};

/// The bytes of an image's file, and the image's name.
#[derive(Drop)]
pub struct ImageFile<'a, A: Allocator> {
    pub name: &'a str,
    pub bytes: Vec<u8, A>,
}

/// The maximum number of bytes read from a file, one more than an image may have.
const MOST_READ: usize = MAX_IMAGE + 1;

/// Read the file of an image. Return `ImageRead` if the file can't be opened or read, and `NoMemory` if memory runs
/// out.
fn read_image<'a, I: Inputs, A: Allocator>(
    inputs: &I,
    alloc: A,
    image: ImagePath<'a>,
) -> Result<ImageFile<'a, A>, ProgramFault<'a>>
    ensures file { IfOk result (IsFileOf (I.file_bytes inputs.now) image.entry) }
    ensures most { IfOk result (λ file. length file.bytes.items ≤ 4194305) }
    ensures refused { IfErr result (λ fault. (fault ≡ NoMemory) ⊎ (fault ≡ ImageRead image.entry.name)) }
{
    match read_file(inputs, alloc, image.path, MOST_READ) {
        Ok(bytes) => Ok(ImageFile {
            name: image.name,
            bytes,
        }),
        Err(ReadFault::NoMemory) => Err(ProgramFault::NoMemory),
        Err(ReadFault::Unreadable) => Err(ProgramFault::ImageRead(image.name)),
    }
}

/// Read the files of the images in order. Return the fault of the first file that can't be read.
pub fn read_images<'a, I: Inputs, A: Allocator + Clone>(
    inputs: &I,
    alloc: A,
    images: &[ImagePath<'a>],
) -> Result<Vec<ImageFile<'a, A>, A>, ProgramFault<'a>>
    ensures files { IfOk result (λ files.
        AllZip (IsFileOf (I.file_bytes inputs.now)) images.now files.items) }
    ensures refused { IfErr result (λ fault. (fault ≡ NoMemory)
        ⊎ Any (λ image. fault ≡ ImageRead image.name) images.now) }
{
    let mut files = Vec::new(alloc.clone()?);
    for image in images {
        files.push(read_image(inputs, alloc.clone()?, *image)?)?;
    }
    Ok(files)
}

/// Return the images of the files, in their order. It fails if memory runs out.
pub fn borrowed_images<'b, A: Allocator>(
    alloc: A,
    files: &'b [ImageFile<'_, A>],
) -> Result<Vec<Image<'b>, A>, AllocError>
    ensures { IfOk result (λ images. named_images images.items ≡ map named_file files.now) }
{
    let mut images = Vec::new(alloc);
    for file in files {
        images.push(Image {
            name: file.name,
            bytes: file.bytes.as_slice(),
        })?;
    }
    Ok(images)
}
