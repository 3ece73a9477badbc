//! What the challenges of a run have come to, and the verdicts on their reports.

ghost use Rattle.std.specs.Prelude.{◌≡◌, All, drop, IfOk};
ghost use Rattle.report.specs.Reports.{IsReport};
ghost use Rattle.device_inputs.specs.Admissions.{served};
ghost use Rattle.device_commands.specs.ChallengeEnds.{IsNoteIfAny, IsSoundEnd, IsSoundPass, challenge_end, challenge_ends, first_pass, passes_after, release_end, reported, served_end, verdict_on_served};

use challenge::Challenge;
use device::PassEnd;
use device_inputs::Admission;
use image_set::ImageSet;
use listed::{Bytes, Items};
use report::{Note, Report, write_report};
use std::alloc::{AllocError, Global};
use std::marker::Model;
use verifier::{Verdict, Verifier};

/// What has come of the locks of a measurement that has ended.
#[derive(Clone, Copy, Debug, PartialEq, Eq)]
pub enum ReleaseEnd {
    /// They were held no longer than to End.
    NotHeld,
    /// They were given up, as this note says.
    Noted {
        /// The note.
        note: Note,
    },
    /// The history filled before they were given up.
    Stopped,
}

/// What a challenge has come to.
#[derive(Clone, Copy, Debug, PartialEq, Eq)]
pub enum ChallengeEnd {
    /// It was refused: its bytes aren't in the grammar of challenges.
    Malformed,
    /// It was refused: its MAC isn't the one under the device's key.
    BadMac,
    /// It was refused: its counter isn't greater than the greatest before.
    Stale {
        /// The greatest counter before.
        last: u64,
    },
    /// It was admitted, and the history filled before its measurement had ended.
    Stopped,
    /// Its measurement has ended.
    Reported {
        /// The report.
        report: Report,
        /// The verdict on it, by this challenge.
        verdict: Verdict,
        /// What has come of the locks.
        release: ReleaseEnd,
    },
}

/// Who judges a device's reports: its key, and the known images of its attested blocks.
#[derive(Drop)]
pub struct Judge {
    key: Bytes,
    images: ImageSet,
}

impl Model for Judge {
    ghost use Rattle.device_commands.specs.ChallengeEnds.{Judge as Judging};

    ghost Value = { Judging };

    ghost view = { λ j. record { key = j.key; known = j.images } };
}

// What has come of the locks of a measurement that has ended.
fn release_end(challenge: &Challenge, note: Option<Note>) -> ReleaseEnd
    ensures { result ≡ release_end challenge.now note }
{
    match note {
        Some(note) => ReleaseEnd::Noted { note },
        None => {
            if challenge.discipline.extended() {
                ReleaseEnd::Stopped
            } else {
                ReleaseEnd::NotHeld
            }
        }
    }
}

impl Judge {
    /// Who judges with this key and these images.
    pub fn new(key: Bytes, images: ImageSet) -> Judge
        ensures key { result.key ≡ key }
        ensures known { result.known ≡ images }
    {
        Judge { key, images }
    }

    /// The known images.
    pub fn images(&self) -> &ImageSet
        ensures { result.now ≡ self.now.known }
    {
        &self.images
    }

    // The verdict on a report by the challenge that it answers.
    #[tactic(auto, unfolding(crate::specs::ChallengeEnds::verdict_on_served))]
    fn verdict_on_served(&self, challenge: &Challenge, last: u64, report: &Report) -> Verdict
        requires { IsReport report.now }
        ensures { result ≡ verdict_on_served self.now challenge.now last report.now }
    {
        let bytes = write_report(report);
        let mut verifier = Verifier::new(
            self.key.as_slice(),
            *challenge,
            last,
            self.images.shape(),
        );
        verifier.judge(bytes.as_slice(), &self.images)
    }

    // A measurement that has ended.
    fn reported(
        &self,
        challenge: &Challenge,
        last: u64,
        report: Report,
        note: Option<Note>,
    ) -> ChallengeEnd
        requires report { IsReport report }
        requires note { IsNoteIfAny note }
        ensures value { result ≡ reported self.now challenge.now last report note }
        ensures sound { IsSoundEnd result }
    {
        let verdict = self.verdict_on_served(challenge, last, &report);
        let release = release_end(challenge, note);
        ChallengeEnd::Reported {
            report,
            verdict,
            release,
        }
    }

    // What a challenge that was admitted has come to.
    #[tactic(auto, unfolding(crate::specs::ChallengeEnds::served_end))]
    fn served_end(&self, challenge: &Challenge, last: u64, end: &PassEnd) -> ChallengeEnd
        requires { IsSoundPass end.now }
        ensures value { result ≡ served_end self.now challenge.now last end.now }
        ensures sound { IsSoundEnd result }
    {
        match *end {
            PassEnd::Done { report, note } => self.reported(challenge, last, report, note),
            PassEnd::Full {
                report: Some(report),
            } => self.reported(challenge, last, report, None),
            PassEnd::Full { report: None } | PassEnd::NotStarted => ChallengeEnd::Stopped,
        }
    }

    // What a challenge has come to.
    fn challenge_end(&self, admission: &Admission, end: &PassEnd) -> ChallengeEnd
        requires { IsSoundPass end.now }
        ensures value { result ≡ challenge_end self.now admission.now end.now }
        ensures sound { IsSoundEnd result }
    {
        match *admission {
            Admission::Malformed => ChallengeEnd::Malformed,
            Admission::BadMac => ChallengeEnd::BadMac,
            Admission::Stale { last } => ChallengeEnd::Stale { last },
            Admission::Admitted { challenge, last } => self.served_end(&challenge, last, end),
        }
    }
}

// The first of these measurements; one that isn't among them wasn't started.
fn first_pass(passes: &[PassEnd]) -> PassEnd
    requires { All IsSoundPass passes.now }
    ensures value { result ≡ first_pass passes.now }
    ensures sound { IsSoundPass result }
{
    if passes.is_empty() {
        return PassEnd::NotStarted;
    }
    passes[0]
}

// All of them but the first.
fn behind_first(passes: &[PassEnd]) -> &[PassEnd]
    ensures { result.now ≡ drop 1 passes.now }
{
    if passes.is_empty() {
        return passes;
    }
    &passes[1..]
}

// The measurements behind that of this challenge.
fn passes_after<'a>(admission: &Admission, passes: &'a [PassEnd]) -> &'a [PassEnd]
    requires { All IsSoundPass passes.now }
    ensures value { result.now ≡ passes_after admission.now passes.now }
    ensures sound { All IsSoundPass result.now }
{
    match *admission {
        Admission::Admitted { .. } => behind_first(passes),
        Admission::Malformed | Admission::BadMac | Admission::Stale { .. } => passes,
    }
}

/// What each challenge has come to, in order, where these are the measurements for those that were admitted. Each report
/// is judged by the challenge that it answers, the greatest counter before that challenge was admitted, and the known
/// images.
pub fn challenge_ends(
    alloc: Global,
    judge: &Judge,
    admissions: &[Admission],
    passes: &[PassEnd],
) -> Result<Items<ChallengeEnd>, AllocError>
    requires { All IsSoundPass passes.now }
    ensures ends { IfOk result (λ ends. ends ≡ challenge_ends judge.now admissions.now passes.now) }
    ensures sound { IfOk result (λ ends. All IsSoundEnd ends) }
{
    let mut ends = Items::new(alloc);
    let mut left = passes;
    for admission in admissions {
        ends.push(judge.challenge_end(admission, &first_pass(left)))?;
        left = passes_after(admission, left);
    }
    Ok(ends)
}

/// The challenges that were admitted, in order.
pub fn served(alloc: Global, admissions: &[Admission]) -> Result<Vec<Challenge>, AllocError>
    ensures { IfOk result (λ challenges. challenges.items ≡ served admissions.now) }
{
    let mut challenges = Vec::new(alloc);
    for admission in admissions {
        if let Admission::Admitted { challenge, .. } = *admission {
            challenges.push(challenge)?;
        }
    }
    Ok(challenges)
}
