//! Images.

ghost use Rattle.std.specs.Prelude.{◌≡◌, ◌+◌, ◌<◌, ◌≤◌, All, length, IfOk, OnOk};
ghost use Rattle.att_base.specs.Files.{IsName};
ghost use Rattle.image_set.specs.Match.{no_images, with_image};
ghost use Rattle.command_plans.specs.Answered.{Gives, Reads};
ghost use Rattle.input_files.specs.InputFiles.{ImageIn, ReadImages, checked_image, image_shape, total_bytes};

use att_base::Files;
use block_memory::Geometry;
use chronicle::Shape;
use command_plans::{INPUT_LIMIT, Stop, bad_line, read_file};
use image_set::{ImageFault, ImageSet};
use listed::Text;
use lock_plan::Ranges;
use std::alloc::Global;

/// The most bytes that all images have together: 64 MiB.
const IMAGES_LIMIT: u64 = 67_108_864;

// Adds an image to the set, whose images have `total` bytes together.
#[tactic(auto, unfolding(crate::specs::InputFiles::checked_image))]
fn add_image(
    alloc: Global,
    set: &mut ImageSet,
    total: u64,
    name: &str,
    bytes: Vec<u8>,
) -> Result<(), Stop>
    requires total { total ≡ total_bytes set.old.images }
    requires within { total ≤ 67108864 }
    requires few { length set.old.images < 64 }
    ensures gives { Gives (λ _. set.new) (checked_image set.old name.now bytes.items) result }
    ensures added { OnOk result (set.new ≡ with_image set.old name.now bytes.items) }
    ensures room { OnOk result (total + length bytes.items ≤ 67108864) }
{
    if bytes.len() as u64 > IMAGES_LIMIT - total {
        let line = bad_line(alloc, name, "long", 2, &[])?;
        return Err(Stop::Bad(line));
    }
    let fault = match set.add(name, bytes) {
        Ok(_) => return Ok(()),
        Err(ImageFault::Length) => 1,
        Err(ImageFault::NameTwice) => 2,
        Err(ImageFault::Memory) => return Err(Stop::Memory),
    };
    let line = bad_line(alloc, name, "image", fault, &[])?;
    Err(Stop::Bad(line))
}

// Reads the image of this name into the set, whose images have `total` bytes together, and gives the new number.
fn read_image<F: Files>(
    alloc: Global,
    files: &mut F,
    set: &mut ImageSet,
    total: u64,
    name: &str,
) -> Result<u64, Stop>
    requires named { IsName name.now }
    requires total { total ≡ total_bytes set.old.images }
    requires within { total ≤ 67108864 }
    requires few { length set.old.images < 64 }
    ensures reads { Reads (λ _. set.new) (ImageIn name.now set.old) result (F.shows files.old) (F.shows files.new) }
    ensures shape { OnOk result (set.new.shape ≡ set.old.shape) }
    ensures count { OnOk result (length set.new.images ≡ length set.old.images + 1) }
    ensures sum { IfOk result (λ sum. sum ≡ total_bytes set.new.images) }
    ensures room { IfOk result (λ sum. sum ≤ 67108864) }
{
    let bytes = read_file(alloc, files, name, INPUT_LIMIT)?;
    let count = bytes.len() as u64;
    match add_image(alloc, set, total, name, bytes) {
        Ok(()) => Ok(total + count),
        Err(stop) => Err(stop),
    }
}

/// Where the attested blocks lie, which is the shape of the images that a file of a device or of a verifier names.
pub fn image_shape(geometry: &Geometry, ranges: Ranges) -> Shape
    ensures { result ≡ image_shape geometry.now ranges }
{
    Shape {
        base: geometry.base(),
        size: geometry.size(),
        ranges,
    }
}

/// The images of these names, in their order: each is asked for once the one before it has been added.
pub fn read_images<F: Files>(
    alloc: Global,
    files: &mut F,
    shape: Shape,
    names: &[Text],
) -> Result<ImageSet, Stop>
    requires named { All IsName names.now }
    requires few { length names.now ≤ 64 }
    ensures reads { Reads (λ set. set) (ReadImages names.now (no_images shape)) result (F.shows files.old) (F.shows files.new) }
    ensures shape { IfOk result (λ set. set.shape ≡ shape) }
{
    let mut set = ImageSet::new(alloc, shape);
    let mut total = 0;
    for name in names {
        total = read_image(alloc, files, &mut set, total, name.as_str())?;
    }
    Ok(set)
}
