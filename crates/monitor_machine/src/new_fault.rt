//! Reasons to refuse a new machine.
ghost use Rattle.std.specs.Prelude.{◌≡◌, length, map, nat_le};
ghost use Rattle.std.specs.List.{list_all, list_any};
ghost use Rattle.std.specs.Str.{bytes_eq};
ghost use Rattle.monitor_machine.specs.Images.{named_images, setup_of};
ghost use Rattle.monitor_machine.specs.NewFaults.{
  is_name as is_name_spec,
  is_name_byte as is_name_byte_spec,
  are_distinct as are_distinct_spec,
  new_fault,
};

use crate::image::Image;
use thiserror::Error;

/// Maximum number of ticks of a slice.
pub const MAX_QUANTUM: usize = 1000;

/// Maximum number of images of a machine.
pub const MAX_IMAGES: usize = 16;

/// Maximum length of an image's name in bytes.
pub const MAX_NAME: usize = 32;

/// Maximum size of an image in bytes.
pub const MAX_IMAGE: usize = 4_194_304;

/// Reasons to refuse a new machine, in the order of the tests.
#[derive(Debug, Drop, Error)]
pub enum NewFault {
    /// The quantum isn't 1 to 1,000 ticks.
    #[error("quantum out of range")]
    Quantum,
    /// There are more than 16 images.
    #[error("too many images")]
    ImageCount,
    /// A name isn't 1 to 32 letters, digits, `.`, `_` or `-`, or occurs twice.
    #[error("bad image name")]
    ImageName,
    /// An image has more than 4,194,304 bytes.
    #[error("image too large")]
    ImageSize,
    #[error("out of memory")]
    NoMemory,
}

/// Return whether a name may contain this byte: a letter, a digit, `.`, `_` or `-`.
fn is_name_byte(byte: u8) -> bool
    ensures { result ≡ is_name_byte_spec byte }
{
    match byte {
        b'a'..=b'z' => true,
        b'A'..=b'Z' => true,
        b'0'..=b'9' => true,
        b'.' => true,
        b'_' => true,
        b'-' => true,
        _ => false,
    }
}

/// Return whether an image may have this name: 1 to 32 bytes that pass `is_name_byte`.
#[tactic(auto, unfolding(crate::specs::NewFaults::is_name))]
fn is_name(name: &str) -> bool
    ensures { result ≡ is_name_spec name.now }
{
    let bytes = name.as_bytes();
    if bytes.is_empty() || bytes.len() > MAX_NAME {
        return false;
    }
    for byte in bytes {
        if !is_name_byte(*byte) {
            return false;
        }
    }
    true
}

/// Return whether each image has a valid name.
fn are_named(images: &[Image<'_>]) -> bool
    ensures { result ≡ list_all (λ image. is_name_spec image.name) (named_images images.now) }
{
    for image in images {
        if !is_name(image.name) {
            return false;
        }
    }
    true
}

/// Return whether no image has more than 4,194,304 bytes.
fn are_small(images: &[Image<'_>]) -> bool
    ensures { result ≡ list_all (λ image. nat_le (length image.bytes) 4194304) (named_images images.now) }
{
    for image in images {
        if image.bytes.len() > MAX_IMAGE {
            return false;
        }
    }
    true
}

/// Return whether an image has this name.
fn is_named(name: &str, images: &[Image<'_>]) -> bool
    ensures { result ≡ list_any (λ image. bytes_eq image.name name.now) (named_images images.now) }
{
    for image in images {
        if image.name == name {
            return true;
        }
    }
    false
}

/// Return whether no two images have the same name.
#[tactic(auto, unfolding(crate::specs::NewFaults::are_distinct))]
fn are_distinct(images: &[Image<'_>]) -> bool
    ensures { result ≡ are_distinct_spec (named_images images.now) }
{
    for (place, image) in images.iter().enumerate() {
        if is_named(image.name, &images[place + 1..]) {
            return false;
        }
    }
    true
}

/// Return the first fault that applies to this quantum and these images, if any.
#[tactic(auto, unfolding(crate::specs::NewFaults::new_fault))]
pub(crate) fn fault_of(quantum: usize, images: &[Image<'_>]) -> Option<NewFault>
    ensures { result ≡ new_fault (setup_of quantum images.now) }
{
    if quantum < 1 || quantum > MAX_QUANTUM {
        return Some(NewFault::Quantum);
    }
    if images.len() > MAX_IMAGES {
        return Some(NewFault::ImageCount);
    }
    if !are_named(images) || !are_distinct(images) {
        return Some(NewFault::ImageName);
    }
    if !are_small(images) {
        return Some(NewFault::ImageSize);
    }
    None
}
