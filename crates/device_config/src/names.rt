//! The names of the files that a run of the device writes.

ghost use Rattle.std.specs.Prelude.{◌≡◌, ◌++◌, IfOk};
ghost use Rattle.device_config.specs.Names.{all_different, consoles, is_among, notes, output_names, reports};

use crate::plans::{AppPlan, ChallengePlan};
use listed::{Items, Text};
use std::alloc::{AllocError, Global};

// The names, and then those of the consoles.
fn with_consoles(
    alloc: Global,
    names: Items<Text>,
    apps: &[AppPlan],
) -> Result<Items<Text>, AllocError>
    ensures { IfOk result (λ all. all ≡ names ++ consoles apps.now) }
{
    let mut all = names;
    for app in apps {
        let name = Text::from_str(alloc, app.console.as_str())?;
        all.push(name)?;
    }
    Ok(all)
}

// The names, and then those of the reports.
fn with_reports(
    alloc: Global,
    names: Items<Text>,
    challenges: &[ChallengePlan],
) -> Result<Items<Text>, AllocError>
    ensures { IfOk result (λ all. all ≡ names ++ reports challenges.now) }
{
    let mut all = names;
    for challenge in challenges {
        let name = Text::from_str(alloc, challenge.report.as_str())?;
        all.push(name)?;
    }
    Ok(all)
}

// The names, and then those of the notes.
fn with_notes(
    alloc: Global,
    names: Items<Text>,
    challenges: &[ChallengePlan],
) -> Result<Items<Text>, AllocError>
    ensures { IfOk result (λ all. all ≡ names ++ notes challenges.now) }
{
    let mut all = names;
    for challenge in challenges {
        let name = Text::from_str(alloc, challenge.note.as_str())?;
        all.push(name)?;
    }
    Ok(all)
}

// The names of the files that are written.
#[tactic(auto, unfolding(crate::specs::Names::output_names))]
fn output_names(
    alloc: Global,
    trace: &str,
    apps: &[AppPlan],
    challenges: &[ChallengePlan],
) -> Result<Items<Text>, AllocError>
    ensures { IfOk result (λ names. names ≡ output_names trace.now apps.now challenges.now) }
{
    let mut names = Items::new(alloc);
    names.push(Text::from_str(alloc, trace)?)?;
    let names = with_consoles(alloc, names, apps)?;
    let names = with_reports(alloc, names, challenges)?;
    with_notes(alloc, names, challenges)
}

// The name is among these.
fn is_among(names: &[Text], name: &str) -> bool
    ensures { result ≡ is_among names.now name.now }
{
    names.iter().any(|other| other.as_str() == name)
}

// No name stands twice. A device has at most 137 of them.
fn all_different(names: &[Text]) -> bool
    ensures { result ≡ all_different names.now }
{
    let mut rest = names;
    while let Some((name, more)) = rest.split_first() {
        if is_among(more, name.as_str()) {
            return false;
        }
        rest = more;
    }
    true
}

// The names of the files that are written all differ.
pub(crate) fn outputs_differ(
    alloc: Global,
    trace: &str,
    apps: &[AppPlan],
    challenges: &[ChallengePlan],
) -> Result<bool, AllocError>
    ensures { IfOk result (λ differ. differ ≡ all_different (output_names trace.now apps.now challenges.now)) }
{
    let names = output_names(alloc, trace, apps, challenges)?;
    Ok(all_different(names.as_slice()))
}
