//! Known images of the attested memory, and the first of them that a report's tag fits.
//!
//! ```rust
//! use image_set::ImageSet;
//!
//! let mut set = ImageSet::new(alloc, shape);
//! let position = set.add("code.img", bytes)?;
//! let found = set.find(key, &report);
//! ```
#![tactic(auto)]

ghost use Rattle.std.specs.Prelude.{◌≡◌};
ghost use Rattle.image_set.specs.Match.{attested_length, is_tag_of};

use chronicle::Shape;
use listed::{Bytes, Items, Text};
use report::{Report, report_tag};
use std::alloc::Global;
use std::marker::Model;
use thiserror::Error;

#[cfg(test)]
mod tests;

/// Why an image was refused.
#[derive(Clone, Copy, Debug, PartialEq, Eq, Error)]
pub enum ImageFault {
    /// The image hasn't as many bytes as the attested blocks.
    #[error("the image has another length than the attested blocks")]
    Length,
    /// The set has an image of this name.
    #[error("an image has this name already")]
    NameTwice,
    /// Memory ran out. It may come at any time.
    #[error("out of memory")]
    Memory,
}

/// A known image: its name, and the bytes of the attested blocks by rising address.
#[derive(Drop)]
pub struct Image {
    /// The name. No other image of its set has it.
    pub name: Text,
    /// The bytes.
    pub bytes: Bytes,
}

/// The known images of one shape, in the order in which they were added.
#[derive(Drop)]
pub struct ImageSet {
    alloc: Global,
    shape: Shape,
    images: Items<Image>,
}

impl Model for ImageSet {
    ghost use Rattle.std.specs.Prelude.{◌^◌, ◌≤◌, length};
    ghost use Rattle.image_set.specs.Match.{Known};

    ghost Value = { Known };

    ghost view = { λ s. record { shape = s.shape; images = s.images } };

    // A position fits a u32.
    ghost invariant = { λ s. length s.images ≤ 2 ^ 32 };
}

// How many bytes the attested blocks have.
fn attested_length(shape: &Shape) -> u64
    ensures { result ≡ attested_length shape.now }
{
    u64::from(shape.size) * u64::from(shape.ranges.total())
}

// The report's tag is that of these bytes.
fn is_tag_of(key: &[u8], report: &Report, bytes: &[u8]) -> bool
    ensures { result ≡ is_tag_of key.now report.now bytes.now }
{
    report_tag(key, report, bytes) == report.tag
}

impl ImageSet {
    ghost use Rattle.std.specs.Prelude.{◌≡◌, ◌≢◌, ◌↔◌, ◌^◌, ◌<◌, length, Some, option_map, slice_get, IsErrOf, IsTrue, IfOk, IfSome, OnOk, OnErr};
    ghost use Rattle.image_set.specs.Match.{attested_length, first_match, has_name, no_images, with_image};

    /// The set of this shape that has no images. It takes no memory.
    pub fn new(alloc: Global, shape: Shape) -> ImageSet
        ensures { result ≡ no_images shape }
    {
        let images = Items::new(alloc);
        ImageSet {
            alloc,
            shape,
            images,
        }
    }

    /// Where the attested blocks lie.
    pub fn shape(&self) -> Shape
        ensures { result ≡ self.now.shape }
    {
        self.shape
    }

    /// How many images there are.
    pub fn len(&self) -> usize
        ensures { result ≡ length self.now.images }
    {
        self.images.len()
    }

    // An image has this name.
    fn has_name(&self, name: &str) -> bool
        ensures { result ≡ has_name name.now self.now.images }
    {
        self.images
            .as_slice()
            .iter()
            .any(|image| image.name.as_str() == name)
    }

    /// Adds an image after the others, and gives its position, from 0. It refuses, in this order, an image
    /// that hasn't as many bytes as the attested blocks, and a name that an image has already. A refusal
    /// leaves the set unchanged.
    pub fn add(&mut self, name: &str, bytes: Vec<u8>) -> Result<u32, ImageFault>
        requires { length self.old.images < 2 ^ 32 }
        ensures position { IfOk result (λ position. position ≡ length self.old.images) }
        ensures added { OnOk result (self.new ≡ with_image self.old name.now bytes.items) }
        ensures kept { OnErr result (self.new ≡ self.old) }
        ensures length { IsErrOf result ImageFault.Length ↔ (length bytes.items ≢ attested_length self.old.shape) }
        ensures twice { IsErrOf result ImageFault.NameTwice
            ↔ ((length bytes.items ≡ attested_length self.old.shape) × IsTrue (has_name name.now self.old.images)) }
    {
        if bytes.len() as u64 != attested_length(&self.shape) {
            return Err(ImageFault::Length);
        }
        if self.has_name(name) {
            return Err(ImageFault::NameTwice);
        }
        let position = self.images.len() as u32;
        let Ok(name) = Text::from_str(self.alloc, name) else {
            return Err(ImageFault::Memory);
        };
        let bytes = Bytes::from_vec(bytes);
        match self.images.push(Image { name, bytes }) {
            Ok(()) => Ok(position),
            Err(_) => Err(ImageFault::Memory),
        }
    }

    // As `find`, with the place in the list.
    #[tactic(auto, unfolding(crate::specs::Match::first_match))]
    fn place_of(&self, key: &[u8], report: &Report) -> Option<usize>
        ensures place { result ≡ first_match key.now report.now self.now.images }
        ensures within { IfSome result (λ place. place < length self.now.images) }
        ensures small { IfSome result (λ place. place < 2 ^ 32) }
    {
        self.images
            .as_slice()
            .iter()
            .position(|image| is_tag_of(key, report, image.bytes.as_slice()))
    }

    /// The least position of an image whose bytes have the report's tag under the key; None exactly where
    /// no image has it. Each image that is tried is digested once, where it lies.
    pub fn find(&self, key: &[u8], report: &Report) -> Option<u32>
        ensures found { result ≡ first_match key.now report.now self.now.images }
        ensures within { IfSome result (λ position. position < length self.now.images) }
    {
        match self.place_of(key, report) {
            Some(place) => Some(place as u32),
            None => None,
        }
    }

    /// The name of the image at this position.
    pub fn name(&self, position: u32) -> &str
        requires { position < length self.now.images }
        ensures { option_map (λ image. image.name) (slice_get self.now.images position) ≡ Some result.now }
    {
        let images = self.images.as_slice();
        images[position as usize].name.as_str()
    }
}
