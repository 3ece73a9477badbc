//! The files of applications, and their placing.

ghost use Rattle.std.specs.Prelude.{◌≡◌, ◌≤◌, true, All, length, IfOk, IsOk};
ghost use Rattle.att_base.specs.Files.{IsName};
ghost use Rattle.history.specs.Layout.{byte_count};
ghost use Rattle.elf32.specs.Files.{elf_of};
ghost use Rattle.loader.specs.Placing.{is_entry, placed};
ghost use Rattle.command_plans.specs.Answered.{Gives, Reads};
ghost use Rattle.device_config.specs.Plans.{IsAppPlan, IsDevicePlan};
ghost use Rattle.device_inputs.specs.Inputs.{AppFileIn, AppFilesIn, PlacedIn, checked_placing, if_sound};

use att_base::Files;
use block_memory::Geometry;
use command_plans::{INPUT_LIMIT, Stop, bad_line, read_file};
use device_config::{AppPlan, DevicePlan};
use listed::Items;
use loader::{AppFile, PlaceFault, Placed, place};
use std::alloc::Global;

// The file of these bytes, if they are an executable.
fn if_sound(alloc: Global, name: &str, bytes: Vec<u8>) -> Result<AppFile, Stop>
    ensures gives { Gives (λ file. file) (if_sound name.now bytes.items (elf_of bytes.items)) result }
    ensures sound { IfOk result (λ file. IsOk (elf_of file)) }
{
    let number = match elf32::read(&bytes) {
        Ok(_) => None,
        Err(fault) => Some(fault.number()),
    };
    match number {
        None => Ok(AppFile::new(bytes)),
        Some(number) => {
            let line = bad_line(alloc, name, "elf", u64::from(number), &[])?;
            Err(Stop::Bad(line))
        }
    }
}

// The application's file.
fn read_app_file<F: Files>(alloc: Global, files: &mut F, app: &AppPlan) -> Result<AppFile, Stop>
    requires { IsName app.now.file }
    ensures reads { Reads (λ file. file) (AppFileIn app.now) result (F.shows files.old) (F.shows files.new) }
    ensures sound { IfOk result (λ file. IsOk (elf_of file)) }
{
    let bytes = read_file(alloc, files, app.file.as_str(), INPUT_LIMIT)?;
    if_sound(alloc, app.file.as_str(), bytes)
}

/// Each application's file, in order, or of the first that is no executable the line `elf N`.
pub fn read_app_files<F: Files>(
    alloc: Global,
    files: &mut F,
    apps: &[AppPlan],
) -> Result<Items<AppFile>, Stop>
    requires { All IsAppPlan apps.now }
    ensures reads { Reads (λ list. list) (AppFilesIn apps.now) result (F.shows files.old) (F.shows files.new) }
    ensures sound { IfOk result (λ list. All (λ file. IsOk (elf_of file)) list) }
    ensures count { IfOk result (λ list. length list ≡ length apps.now) }
{
    let mut list = Items::new(alloc);
    for app in apps {
        let file = read_app_file(alloc, files, app)?;
        let Ok(()) = list.push(file) else {
            return Err(Stop::Memory);
        };
    }
    Ok(list)
}

// The applications in memory, or the line that says why they can't be placed.
fn checked_placing(
    alloc: Global,
    device: &str,
    geometry: &Geometry,
    apps: &[AppFile],
) -> Result<Placed, Stop>
    requires few { length apps.now ≤ 8 }
    requires sound { All (λ file. IsOk (elf_of file)) apps.now }
    ensures gives { Gives (λ image. image) (checked_placing device.now (placed geometry.now apps.now)) result }
    ensures image { IfOk result (λ given. length given.image ≡ byte_count geometry.now) }
    ensures count { IfOk result (λ given. length given.entries ≡ length apps.now) }
    ensures entries { IfOk result (λ given. All (λ entry. is_entry geometry.now entry ≡ true) given.entries) }
{
    match place(alloc, geometry, apps) {
        Ok(image) => Ok(image),
        Err(PlaceFault::OutsideMemory { app, segment }) => {
            let more = [u64::from(app), u64::from(segment)];
            let line = bad_line(alloc, device, "place", 1, &more)?;
            Err(Stop::Bad(line))
        }
        Err(
            PlaceFault::Overlap {
                app,
                segment,
                with_app,
                with_segment,
            },
        ) => {
            let more = [
                u64::from(app),
                u64::from(segment),
                u64::from(with_app),
                u64::from(with_segment),
            ];
            let line = bad_line(alloc, device, "place", 2, &more)?;
            Err(Stop::Bad(line))
        }
        Err(PlaceFault::EntryOutside { app }) => {
            let line = bad_line(alloc, device, "place", 3, &[u64::from(app)])?;
            Err(Stop::Bad(line))
        }
        Err(PlaceFault::Memory) => Err(Stop::Memory),
    }
}

/// The applications of a plan in memory: each file is read, and right behind the last of them they are placed. Where they
/// can't be, the line `place` names the device file: `1 APP SEG` for a segment outside memory, `2 APP SEG APP SEG` for
/// one that shares a byte with an earlier one, `3 APP` for an entry that is no word of memory. Applications are counted
/// from 1, segments from 0.
pub fn read_placed<F: Files>(
    alloc: Global,
    files: &mut F,
    device: &str,
    plan: &DevicePlan,
) -> Result<Placed, Stop>
    requires { IsDevicePlan plan.now }
    ensures reads { Reads (λ image. image) (PlacedIn device.now plan.now) result (F.shows files.old) (F.shows files.new) }
    ensures image { IfOk result (λ given. length given.image ≡ byte_count plan.now.geometry) }
    ensures count { IfOk result (λ given. length given.entries ≡ length plan.now.apps) }
    ensures entries { IfOk result (λ given. All (λ entry. is_entry plan.now.geometry entry ≡ true) given.entries) }
{
    let apps = read_app_files(alloc, files, plan.apps.as_slice())?;
    checked_placing(alloc, device, &plan.geometry, apps.as_slice())
}
