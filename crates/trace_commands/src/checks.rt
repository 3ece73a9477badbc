//! The command `check`: whether a recorded history is legal, and which reports are on its passes.

ghost use Rattle.std.specs.Prelude.{◌≡◌, ◌≤◌, ◌++◌, [], All, length, IfOk, OnOk, Ok};
ghost use Rattle.std.specs.List.{list_all};
ghost use Rattle.att_base.specs.Files.{IsName};
ghost use Rattle.command_plans.specs.Answered.{Gives, Reads};
ghost use Rattle.history.specs.Layout.{byte_count};
ghost use Rattle.trace_commands.specs.Checks.{answer_lines, answers_of, broken_line, check_plan, is_yes, legal_line, named_answer, written_broken, written_legal, written_of_check};

use crate::reading::{read_reports, read_trace};
use crate::report_lines::refusal;
use att_base::Files;
use chronicle::{Chronicle, broken_is_exact};
use command_plans::{Ending, FileParts, Output, Parts, Stop};
use input_files::read_key;
use listed::{Bytes, Text};
use std::alloc::{AllocError, Global};
use text_readers::put_number;
use trace::{CheckFault, Confirmed, Index, check};

// `confirmed NAME`, or `refused NAME V`
fn put_answer(out: &mut Vec<u8>, name: &Text, refusal: Option<u32>) -> Result<(), AllocError>
    ensures { OnOk result (out.new.items ≡ out.old.items ++ named_answer name.now refusal) }
{
    let name = name.as_str().as_bytes();
    match refusal {
        None => {
            out.extend_from_slice(b"confirmed ")?;
            out.extend_from_slice(name)?;
            out.push(b'\n')?;
            Ok(())
        }
        Some(reason) => {
            out.extend_from_slice(b"refused ")?;
            out.extend_from_slice(name)?;
            out.push(b' ')?;
            put_number(out, u64::from(reason))?;
            out.push(b'\n')?;
            Ok(())
        }
    }
}

// What each report is told, by the names of their files.
fn put_answers(out: &mut Vec<u8>, names: &[Text], answers: &[Confirmed]) -> Result<(), AllocError>
    ensures { OnOk result (out.new.items ≡ out.old.items ++ answer_lines names.now answers.now) }
{
    let mut k = 0;
    for name in names {
        if k >= answers.len() {
            return Ok(());
        }
        put_answer(out, name, refusal(answers[k]))?;
        k += 1;
    }
    Ok(())
}

// `legal N`
#[tactic(auto, unfolding(crate::specs::Checks::legal_line))]
fn put_legal(out: &mut Vec<u8>, count: u64) -> Result<(), AllocError>
    ensures { OnOk result (out.new.items ≡ out.old.items ++ legal_line count) }
{
    out.extend_from_slice(b"legal ")?;
    put_number(out, count)?;
    out.push(b'\n')?;
    Ok(())
}

// `broken PLACE rule R`
#[tactic(auto, unfolding(crate::specs::Checks::broken_line))]
fn put_broken(out: &mut Vec<u8>, place: u64, rule: u32) -> Result<(), AllocError>
    ensures { OnOk result (out.new.items ≡ out.old.items ++ broken_line (record { place = place; rule = rule })) }
{
    out.extend_from_slice(b"broken ")?;
    put_number(out, place)?;
    out.extend_from_slice(b" rule ")?;
    put_number(out, u64::from(rule))?;
    out.push(b'\n')?;
    Ok(())
}

fn is_yes(answer: Confirmed) -> bool
    ensures { result ≡ is_yes answer }
{
    match answer {
        Confirmed::Yes => true,
        Confirmed::Malformed | Confirmed::WrongShape | Confirmed::NoPass | Confirmed::WrongTag => {
            false
        }
    }
}

// Each of the reports is confirmed.
fn are_yes(answers: &[Confirmed]) -> bool
    ensures { result ≡ list_all is_yes answers.now }
{
    for answer in answers {
        if !is_yes(*answer) {
            return false;
        }
    }
    true
}

// What each report is told.
fn confirm_each(
    alloc: Global,
    index: &Index<'_>,
    key: &[u8],
    reports: &[Bytes],
    buffer: &mut [u8],
) -> Result<Vec<Confirmed>, AllocError>
    requires { length buffer.old ≡ byte_count index.now.world.layout }
    ensures { IfOk result (λ answers. answers.items ≡ answers_of key.now index.now reports.now) }
{
    let mut answers = Vec::with_capacity(alloc, reports.len())?;
    for report in reports {
        answers.push(index.confirm(key, report.as_slice(), buffer))?;
    }
    Ok(answers)
}

// The same of a recorded history; it is indexed only where there is a report.
fn answers_of(
    alloc: Global,
    chronicle: &Chronicle,
    key: &[u8],
    reports: &[Bytes],
) -> Result<Vec<Confirmed>, AllocError>
    ensures { IfOk result (λ answers. answers.items ≡ answers_of key.now chronicle.now reports.now) }
{
    if reports.is_empty() {
        return Ok(Vec::new(alloc));
    }
    let size = chronicle.world().geometry().byte_count();
    let mut buffer = vec![in alloc; 0u8; size as usize]?;
    let index = Index::new(alloc, chronicle)?;
    confirm_each(alloc, &index, key, reports, &mut buffer)
}

// What is written of a legal history.
#[tactic(auto, unfolding(crate::specs::Checks::written_legal))]
fn legal_output<P: Parts + Drop, B: FileParts + Drop>(
    alloc: Global,
    count: u64,
    names: &[Text],
    answers: &[Confirmed],
) -> Result<Output<P, B>, AllocError>
    ensures { IfOk result (λ o. o ≡ written_legal count names.now answers.now) }
{
    let mut out = Vec::new(alloc);
    put_legal(&mut out, count)?;
    put_answers(&mut out, names, answers)?;
    let ending = if are_yes(answers) {
        Ending::Accepted
    } else {
        Ending::Refused
    };
    Output::ended(alloc, Vec::new(alloc), out, ending)
}

// What is written of a history that breaks this rule first.
fn broken_output<P: Parts + Drop, B: FileParts + Drop>(
    alloc: Global,
    place: u64,
    rule: u32,
) -> Result<Output<P, B>, AllocError>
    ensures { IfOk result (λ o. o ≡ written_broken (record { place = place; rule = rule })) }
{
    let mut out = Vec::new(alloc);
    put_broken(&mut out, place, rule)?;
    Output::ended(alloc, Vec::new(alloc), out, Ending::Refused)
}

// What is written of a recorded history that is legal, and of reports.
fn legal_check<P: Parts + Drop, B: FileParts + Drop>(
    alloc: Global,
    chronicle: &Chronicle,
    key: &[u8],
    names: &[Text],
    reports: &[Bytes],
) -> Result<Output<P, B>, AllocError>
    ensures { IfOk result (λ o. o ≡ written_legal (length chronicle.now.entries) names.now (answers_of key.now chronicle.now reports.now)) }
{
    let answers = answers_of(alloc, chronicle, key, reports)?;
    legal_output(alloc, chronicle.length(), names, &answers)
}

// What is written of a recorded history and of reports.
#[tactic(auto, unfolding(crate::specs::Checks::written_of_check))]
fn check_output<P: Parts + Drop, B: FileParts + Drop>(
    alloc: Global,
    chronicle: &Chronicle,
    key: &[u8],
    names: &[Text],
    reports: &[Bytes],
) -> Result<Output<P, B>, Stop>
    ensures { Gives (λ o. o) (Ok (written_of_check key.now chronicle.now names.now reports.now)) result }
{
    broken_is_exact();
    let output = match check(alloc, chronicle) {
        Ok(()) => legal_check(alloc, chronicle, key, names, reports),
        Err(CheckFault::Broken { place, rule }) => broken_output(alloc, place, rule),
        Err(CheckFault::Memory) => return Err(Stop::Memory),
    };
    match output {
        Ok(output) => Ok(output),
        Err(_) => Err(Stop::Memory),
    }
}

/// The output of `check`: the trace file is read, then the key, then each report. The lines are to be printed: `legal N`,
/// or `broken PLACE rule R`; where the history is legal, for each report `confirmed NAME` or `refused NAME V`. The command
/// ends with `Refused` where the history breaks a rule or a report isn't confirmed. No file is changed.
pub fn prepare_check<F: Files, P: Parts + Drop, B: FileParts + Drop>(
    alloc: Global,
    files: &mut F,
    trace: &str,
    key: &str,
    names: &[Text],
) -> Result<Output<P, B>, Stop>
    requires named { IsName trace.now × IsName key.now }
    requires reports { All IsName names.now }
    ensures { Reads (λ o. o) (check_plan trace.now key.now names.now) result (F.shows files.old) (F.shows files.new) }
{
    let chronicle = read_trace(alloc, files, trace)?;
    let key = read_key(alloc, files, key)?;
    let reports = read_reports(alloc, files, names)?;
    check_output(alloc, &chronicle, &key, names, reports.as_slice())
}
