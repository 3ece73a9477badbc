//! The arrays of a device file.

ghost use Rattle.std.specs.Prelude.{◌≡◌, IfOk};
ghost use Rattle.toml.specs.View.{items_view, table_view, view};
ghost use Rattle.config_rules.specs.Values.{array_in, each_of};
ghost use Rattle.device_config.specs.Arrays.{app_plan_in, app_plan_of, apps_at, challenge_plan_in, challenge_plan_of, challenges_at, images_at};

use crate::plans::{AppPlan, ChallengePlan};
use config_rules::{MOST_IMAGES, MOST_U32, name_at, names_in, number_at, value_at};
use listed::{Items, Text};
use std::alloc::{AllocError, Global};
use toml::{Table, Value};

/// The most applications of a device.
const MOST_APPS: usize = 8;

/// The most challenges of a run.
const MOST_CHALLENGES: usize = 64;

/// The most instructions of an application.
const MOST_FUEL: u64 = 1_000_000;

// At most 64 names of images, none where the key is absent.
#[tactic(auto, unfolding(crate::specs::Arrays::images_at))]
pub(crate) fn read_images(alloc: Global, table: &Table) -> Result<Option<Items<Text>>, AllocError>
    ensures { IfOk result (λ images. images ≡ images_at (table_view table.now)) }
{
    match value_at(table, "images") {
        Some(value) => names_in(alloc, value, 0, MOST_IMAGES),
        None => Ok(Some(Items::new(alloc))),
    }
}

// What the table of an application says.
#[tactic(auto, unfolding(crate::specs::Arrays::app_plan_in))]
fn app_plan_in(alloc: Global, table: &Table) -> Result<Option<AppPlan>, AllocError>
    ensures { IfOk result (λ app. app ≡ app_plan_in (table_view table.now)) }
{
    let Some(file) = name_at(table, "file") else {
        return Ok(None);
    };
    let Some(console) = name_at(table, "console") else {
        return Ok(None);
    };
    let Some(stack) = number_at(table, "stack", 0, MOST_U32) else {
        return Ok(None);
    };
    let Some(fuel) = number_at(table, "fuel", 1, MOST_FUEL) else {
        return Ok(None);
    };
    let file = Text::from_str(alloc, file)?;
    let console = Text::from_str(alloc, console)?;
    let stack = stack as u32;
    Ok(Some(AppPlan {
        file,
        console,
        stack,
        fuel,
    }))
}

// The value is a table of an application.
fn app_plan_of(alloc: Global, value: &Value) -> Result<Option<AppPlan>, AllocError>
    ensures { IfOk result (λ app. app ≡ app_plan_of (view value.now)) }
{
    match value.as_table() {
        Some(table) => app_plan_in(alloc, table),
        None => Ok(None),
    }
}

// The values, each a table of an application.
fn apps_of(alloc: Global, values: &[Value]) -> Result<Option<Items<AppPlan>>, AllocError>
    ensures { IfOk result (λ apps. apps ≡ each_of app_plan_of (items_view values.now)) }
{
    let mut apps = Items::new(alloc);
    for value in values {
        let Some(app) = app_plan_of(alloc, value)? else {
            return Ok(None);
        };
        apps.push(app)?;
    }
    Ok(Some(apps))
}

// The value as an array of 1 to 8 applications.
fn apps_in(alloc: Global, value: &Value) -> Result<Option<Items<AppPlan>>, AllocError>
    ensures { IfOk result (λ apps. apps ≡ array_in app_plan_of 1 8 (view value.now)) }
{
    let Some(array) = value.as_array() else {
        return Ok(None);
    };
    let Some(apps) = apps_of(alloc, array.as_slice())? else {
        return Ok(None);
    };
    if apps.is_empty() || apps.len() > MOST_APPS {
        return Ok(None);
    }
    Ok(Some(apps))
}

// The applications, 1 to 8.
#[tactic(auto, unfolding(crate::specs::Arrays::apps_at))]
pub(crate) fn read_apps(alloc: Global, table: &Table) -> Result<Option<Items<AppPlan>>, AllocError>
    ensures { IfOk result (λ apps. apps ≡ apps_at (table_view table.now)) }
{
    match value_at(table, "app") {
        Some(value) => apps_in(alloc, value),
        None => Ok(None),
    }
}

// What the table of a challenge says.
#[tactic(auto, unfolding(crate::specs::Arrays::challenge_plan_in))]
fn challenge_plan_in(alloc: Global, table: &Table) -> Result<Option<ChallengePlan>, AllocError>
    ensures { IfOk result (λ challenge. challenge ≡ challenge_plan_in (table_view table.now)) }
{
    let Some(file) = name_at(table, "file") else {
        return Ok(None);
    };
    let Some(report) = name_at(table, "report") else {
        return Ok(None);
    };
    let Some(note) = name_at(table, "note") else {
        return Ok(None);
    };
    let file = Text::from_str(alloc, file)?;
    let report = Text::from_str(alloc, report)?;
    let note = Text::from_str(alloc, note)?;
    Ok(Some(ChallengePlan { file, report, note }))
}

// The value is a table of a challenge.
fn challenge_plan_of(alloc: Global, value: &Value) -> Result<Option<ChallengePlan>, AllocError>
    ensures { IfOk result (λ challenge. challenge ≡ challenge_plan_of (view value.now)) }
{
    match value.as_table() {
        Some(table) => challenge_plan_in(alloc, table),
        None => Ok(None),
    }
}

// The values, each a table of a challenge.
fn challenges_of(
    alloc: Global,
    values: &[Value],
) -> Result<Option<Items<ChallengePlan>>, AllocError>
    ensures { IfOk result (λ challenges. challenges ≡ each_of challenge_plan_of (items_view values.now)) }
{
    let mut challenges = Items::new(alloc);
    for value in values {
        let Some(challenge) = challenge_plan_of(alloc, value)? else {
            return Ok(None);
        };
        challenges.push(challenge)?;
    }
    Ok(Some(challenges))
}

// The value as an array of at most 64 challenges.
fn challenges_in(alloc: Global, value: &Value) -> Result<Option<Items<ChallengePlan>>, AllocError>
    ensures { IfOk result (λ challenges. challenges ≡ array_in challenge_plan_of 0 64 (view value.now)) }
{
    let Some(array) = value.as_array() else {
        return Ok(None);
    };
    let Some(challenges) = challenges_of(alloc, array.as_slice())? else {
        return Ok(None);
    };
    if challenges.len() > MOST_CHALLENGES {
        return Ok(None);
    }
    Ok(Some(challenges))
}

// At most 64 challenges, none where the key is absent.
#[tactic(auto, unfolding(crate::specs::Arrays::challenges_at))]
pub(crate) fn read_challenges(
    alloc: Global,
    table: &Table,
) -> Result<Option<Items<ChallengePlan>>, AllocError>
    ensures { IfOk result (λ challenges. challenges ≡ challenges_at (table_view table.now)) }
{
    match value_at(table, "challenge") {
        Some(value) => challenges_in(alloc, value),
        None => Ok(Some(Items::new(alloc))),
    }
}
