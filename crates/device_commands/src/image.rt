//! The command `image`: a device's applications are placed, and the attested bytes are to be written.

ghost use Rattle.std.specs.Prelude.{◌≡◌, ◌+◌, ◌≤◌, length, take, drop, Ok, IfOk};
ghost use Rattle.att_base.specs.Files.{IsName};
ghost use Rattle.history.specs.Layout.{byte_count};
ghost use Rattle.device_config.specs.Plans.{IsDevicePlan};
ghost use Rattle.command_plans.specs.Answered.{Gives, Reads};
ghost use Rattle.device_commands.specs.Plans.{attested_image, image_plan, written_image};

use att_base::{Files, NamedFile};
use command_plans::{FileParts, Output, Parts, Planned, Stop};
use device_config::DevicePlan;
use device_inputs::{read_device, read_placed};
use history::blocks_in_order;
use std::alloc::{AllocError, Global};

// So many bytes from a place on.
fn piece(bytes: &[u8], start: usize, count: usize) -> &[u8]
    requires { start + count ≤ length bytes.now }
    ensures { result.now ≡ take count (drop start bytes.now) }
{
    let (_, rest) = bytes.split_at(start);
    let (front, _) = rest.split_at(count);
    front
}

// The attested bytes of a device's memory that begins with this image, by rising address.
#[tactic(auto, unfolding(crate::specs::Plans::attested_image))]
fn attested_image(alloc: Global, plan: &DevicePlan, image: &[u8]) -> Result<Vec<u8>, AllocError>
    requires plan { IsDevicePlan plan.now }
    requires whole { length image.now ≡ byte_count plan.now.geometry }
    ensures { IfOk result (λ bytes. bytes.items ≡ attested_image plan.now image.now) }
{
    blocks_in_order();
    let size = plan.geometry.size() as usize;
    let total = plan.ranges.total();
    let mut bytes = Vec::with_capacity(alloc, size * total as usize)?;
    for index in 0..total {
        let start = size * plan.ranges.block(index) as usize;
        bytes.extend_from_slice(piece(image, start, size))?;
    }
    Ok(bytes)
}

// What is written of a device's memory that begins with this image.
fn image_output<P: Parts + Drop, B: FileParts + Drop>(
    alloc: Global,
    plan: &DevicePlan,
    image: &[u8],
    out: &str,
) -> Result<Output<P, B>, Stop>
    requires plan { IsDevicePlan plan.now }
    requires whole { length image.now ≡ byte_count plan.now.geometry }
    requires named { IsName out.now }
    ensures { Gives (λ o. o) (Ok (written_image out.now (attested_image plan.now image.now))) result }
{
    let bytes = attested_image(alloc, plan, image)?;
    let name = String::from_str(alloc, out)?;
    let mut files = Vec::new(alloc);
    let Ok(()) = files.push(Planned::whole(NamedFile::new(name, bytes))) else {
        return Err(Stop::Memory);
    };
    Ok(Output::accepted(alloc, files, Vec::new(alloc)))
}

/// The output of `image`: the device file is read, then the files of its applications, which are placed right behind the
/// last of them; the file OUT gets the attested bytes of memory as it begins. Nothing is written here, and no file is
/// changed.
pub fn prepare_image<F: Files, P: Parts + Drop, B: FileParts + Drop>(
    alloc: Global,
    files: &mut F,
    device: &str,
    out: &str,
) -> Result<Output<P, B>, Stop>
    requires { IsName device.now × IsName out.now }
    ensures { Reads (λ o. o) (image_plan device.now out.now) result (F.shows files.old) (F.shows files.new) }
{
    let plan = read_device(alloc, files, device)?;
    let placed = read_placed(alloc, files, device, &plan)?;
    image_output(alloc, &plan, placed.image.as_slice(), out)
}
