//! The rules of a device file, one after the other.

ghost use Rattle.std.specs.Prelude.{◌≡◌, IfOk};
ghost use Rattle.toml.specs.View.{table_view};
ghost use Rattle.config_rules.specs.Rules.{AnswersByRules};
ghost use Rattle.device_config.specs.Files.{device_file, device_rules, device_plan};
ghost use Rattle.device_config.specs.Plans.{IsDevicePlan};

use crate::arrays::{read_apps, read_challenges, read_images};
use crate::names::outputs_differ;
use crate::plans::{AppPlan, ChallengePlan, DevicePlan};
use att_base::DeviceFault;
use config_rules::{Common, name_at, number_at, read_common, read_document};
use listed::{Items, Text};
use std::alloc::Global;
use toml::Table;

/// The most entries of a device's history.
const MOST_ENTRIES: u64 = 4_000_000;

// The plan of what both kinds of file say and the rest.
fn device_plan(
    common: Common,
    cap: u64,
    trace: Text,
    images: Items<Text>,
    apps: Items<AppPlan>,
    challenges: Items<ChallengePlan>,
) -> DevicePlan
    ensures { result ≡ device_plan common cap trace images apps challenges }
{
    let Common { region, key, last } = common;
    DevicePlan {
        geometry: region.geometry,
        ranges: region.ranges,
        key,
        last,
        cap,
        trace,
        images,
        apps,
        challenges,
    }
}

// AnswersByRules rules 9 to 14.
#[tactic(auto, unfolding(crate::specs::Files::device_rules))]
fn read_rules(alloc: Global, table: &Table, common: Common) -> Result<DevicePlan, DeviceFault>
    ensures { AnswersByRules (device_rules common (table_view table.now)) result }
{
    let Some(cap) = number_at(table, "cap", 16, MOST_ENTRIES) else {
        return Err(DeviceFault::Rule(9));
    };
    let Some(trace) = name_at(table, "trace") else {
        return Err(DeviceFault::Rule(10));
    };
    let images = match read_images(alloc, table) {
        Ok(Some(images)) => images,
        Ok(None) => return Err(DeviceFault::Rule(11)),
        Err(_) => return Err(DeviceFault::Memory),
    };
    let apps = match read_apps(alloc, table) {
        Ok(Some(apps)) => apps,
        Ok(None) => return Err(DeviceFault::Rule(12)),
        Err(_) => return Err(DeviceFault::Memory),
    };
    let challenges = match read_challenges(alloc, table) {
        Ok(Some(challenges)) => challenges,
        Ok(None) => return Err(DeviceFault::Rule(13)),
        Err(_) => return Err(DeviceFault::Memory),
    };
    match outputs_differ(alloc, trace, apps.as_slice(), challenges.as_slice()) {
        Ok(true) => {}
        Ok(false) => return Err(DeviceFault::Rule(14)),
        Err(_) => return Err(DeviceFault::Memory),
    }
    let Ok(trace) = Text::from_str(alloc, trace) else {
        return Err(DeviceFault::Memory);
    };
    Ok(device_plan(common, cap, trace, images, apps, challenges))
}

/// AnswersByRules a device file, a TOML document. Keys that no rule names are passed over, in the file and in its
/// tables. A refusal gives the number of the first rule that fails, as the table on this crate's page has
/// them. Want of memory may come at any rule.
#[tactic(auto, unfolding(crate::specs::Files::device_file))]
pub fn read_device(alloc: Global, bytes: &[u8]) -> Result<DevicePlan, DeviceFault>
    ensures file { AnswersByRules (device_file bytes.now) result }
    ensures plan { IfOk result IsDevicePlan }
{
    let table = read_document(alloc, bytes)?;
    let common = read_common(alloc, &table)?;
    read_rules(alloc, &table, common)
}
