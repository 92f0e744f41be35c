// A job: voids and solids that stand in each other, and the net of the whole in cubic metres. Nothing is written.
#![tactic(auto)]

ghost use Rattle.std.specs.Prelude.{◌≡◌, ◌≤◌, ◌<◌, length};
ghost use Rattle.jobform.specs.Limits.{most_entries};
ghost use Rattle.job.specs.Number.{number};
ghost use Rattle.job.specs.Outcome.{JobAnswered};
ghost use Rattle.job.specs.Inner.{Judged, Settled};

use jobform::Entry;
use nest::Question;

// One case for each number of a job's list: 01's for a bad form, and 02's six.
#[derive(Clone, Copy, Debug, PartialEq, Eq)]
pub enum JobRefusal {
    SheetForm,
    JobCount,
    JobKind,
    JobName,
    JobAlternation,
    JobDepth,
    JobSum,
}

// 02's number of a refusal.
impl From<JobRefusal> for u32 {
    ghost from_gives = { λ r n. n ≡ number r };

    fn from(r: JobRefusal) -> u32 {
        match r {
            JobRefusal::SheetForm => 12,
            JobRefusal::JobCount => 20,
            JobRefusal::JobKind => 21,
            JobRefusal::JobName => 22,
            JobRefusal::JobAlternation => 23,
            JobRefusal::JobDepth => 24,
            JobRefusal::JobSum => 25,
        }
    }
}

// Each question is asked of all entries before the next: nothing stands against the job, or the first refusal that holds.
// One after another, and no loop over them: two of the questions rest on what was asked before.
fn judge(entries: &[Entry]) -> Result<(), JobRefusal>
    ensures { Judged entries.now result }
{
    if !nest::every(Question::Kind, entries) {
        return Err(JobRefusal::JobKind);
    }
    if !nest::every(Question::Name, entries) {
        return Err(JobRefusal::JobName);
    }
    if !nest::every(Question::Alternation, entries) {
        return Err(JobRefusal::JobAlternation);
    }
    if !nest::every(Question::Depth, entries) {
        return Err(JobRefusal::JobDepth);
    }
    if !nest::every(Question::Sum, entries) {
        return Err(JobRefusal::JobSum);
    }
    Ok(())
}

// The net of the topmost of the entries, where no question stands against them.
fn settle(entries: &[Entry]) -> Result<i64, JobRefusal>
    requires { (0 < length entries.now) × (length entries.now ≤ most_entries) }
    ensures { Settled entries.now result }
{
    judge(entries)?;
    Ok(nest::figure_of(entries))
}

// The net of the whole job on a sheet: the figure of its topmost net in cubic metres, or the first refusal that holds.
pub fn job_net(bytes: &[u8]) -> Result<i64, JobRefusal>
    ensures { JobAnswered bytes.now result }
{
    let nobody = Entry {
        letter: 0,
        name: None,
        sum: 0,
    };
    let mut entries = [nobody; jobform::MOST_ENTRIES];
    let Some(count) = jobform::read_job_form(bytes, &mut entries) else {
        return Err(JobRefusal::SheetForm);
    };
    if count == 0 {
        return Err(JobRefusal::JobCount);
    }
    if jobform::MOST_ENTRIES < count {
        return Err(JobRefusal::JobCount);
    }
    settle(&entries[..count])
}
