//! Image arguments, `NAME=PATH`.
ghost use Rattle.std.specs.Prelude.{◌≡◌, ◌⊎◌, IfErr, IfOk, MatchOption};
ghost use Rattle.std.specs.List.{AllZip, Any};
ghost use Rattle.clap.specs.Walk.{texts};
ghost use Rattle.vec_monitor.specs.ImageArguments.{IsNameAndPath, IsPathOf, LacksEqualsSign};
ghost use Rattle.vec_monitor.specs.declared.program_fault.ProgramFault.TheVariants.{ImageArgument, NoMemory};

use crate::program_fault::ProgramFault;
use std::alloc::Allocator;

/// The name of an image, and the path of its file.
#[derive(Clone, Copy)]
pub struct ImagePath<'a> {
    pub name: &'a str,
    pub path: &'a str,
}

/// Split an image argument at its first `=`; return `None` if it contains none.
pub fn image_path(word: &str) -> Option<ImagePath<'_>>
    ensures { MatchOption result (LacksEqualsSign word.now)
        (λ image. IsNameAndPath word.now image.name.now image.path.now) }
{
    let (name, path) = word.split_once('=')?;
    Some(ImagePath { name, path })
}

/// Split each image argument, in order. Return `ImageArgument` if an argument contains no `=`, and `NoMemory` if memory
/// runs out.
pub fn image_paths<'a, A: Allocator>(
    alloc: A,
    arguments: &[&'a str],
) -> Result<Vec<ImagePath<'a>, A>, ProgramFault<'a>>
    ensures images { IfOk result (λ images. AllZip IsPathOf arguments.now images.items) }
    ensures refused { IfErr result (λ fault. (fault ≡ NoMemory)
        ⊎ ((fault ≡ ImageArgument) × Any LacksEqualsSign (texts arguments.now))) }
{
    let mut paths = Vec::new(alloc);
    for word in arguments {
        let Some(path) = image_path(word) else {
            return Err(ProgramFault::ImageArgument);
        };
        paths.push(path)?;
    }
    Ok(paths)
}
