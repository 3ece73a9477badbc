//! A generated device.

ghost use Rattle.std.specs.Prelude.{◌≡◌, ◌∷◌, [], map, replicate, IfOk};
ghost use Rattle.std.specs.List.{range_with_len};
ghost use Rattle.generated.specs.Generated.{first_address, generated_layout};
ghost use Rattle.generated.specs.Parts.{IsGeneratedPlan, counting_app};

use block_memory::Geometry;
use device_config::{AppPlan, DevicePlan};
use history::Range;
use listed::{Items, Text};
use lock_plan::Ranges;
use std::alloc::{AllocError, Global};

/// How many applications there are.
const APPS: u32 = 8;

// No name: a generated device has no files.
fn no_name(alloc: Global) -> Text
    ensures { result ≡ [] }
{
    Text::from_string(String::new(alloc))
}

// An application of it.
fn app_plan(alloc: Global) -> AppPlan
    ensures { result ≡ counting_app }
{
    AppPlan {
        file: no_name(alloc),
        console: no_name(alloc),
        stack: 0,
        fuel: 20_000,
    }
}

// The applications.
fn app_plans(alloc: Global) -> Result<Items<AppPlan>, AllocError>
    ensures { IfOk result (λ apps. apps ≡ replicate 8 counting_app) }
{
    let mut apps = Vec::with_capacity(alloc, APPS as usize)?;
    for _ in 0..APPS {
        apps.push(app_plan(alloc))?;
    }
    Ok(Items::from_vec(apps))
}

/// The address of each application's first instruction.
pub fn entries_of(alloc: Global) -> Result<Items<u32>, AllocError>
    ensures { IfOk result (λ entries. entries ≡ map first_address (range_with_len 0 8)) }
{
    let mut entries = Vec::with_capacity(alloc, APPS as usize)?;
    for k in 0..APPS {
        entries.push(0x8000_0000 + 256 * k)?;
    }
    Ok(Items::from_vec(entries))
}

// Where memory lies.
fn geometry() -> Geometry
    ensures { result ≡ generated_layout }
{
    match Geometry::new(0x8000_0000, 256, 256) {
        Some(geometry) => geometry,
        None => unreachable!(),
    }
}

// The attested blocks.
fn ranges() -> Ranges
    ensures { result ≡ record { first = 0; attested = 64 } ∷ [] }
{
    let attested = Range {
        first: 0,
        attested: 64,
    };
    match Ranges::new(&[attested]) {
        Some(ranges) => ranges,
        None => unreachable!(),
    }
}

/// What a generated device is made of.
pub fn plan_of(alloc: Global) -> Result<DevicePlan, AllocError>
    ensures { IfOk result IsGeneratedPlan }
{
    let apps = app_plans(alloc)?;
    Ok(DevicePlan {
        geometry: geometry(),
        ranges: ranges(),
        key: no_name(alloc),
        last: 0,
        cap: 400_000,
        trace: no_name(alloc),
        images: Items::new(alloc),
        apps,
        challenges: Items::new(alloc),
    })
}
