//! The part of the actors.
ghost use Rattle.std.specs.Prelude.{◌≡◌, ◌++◌, OnOk, zip};
ghost use Rattle.lr_report.specs.Report.{state_word, result_line, results_part, actor_part, actors_part};

use crate::answers::put_answer;
use lr_actors::{ActorState, Trail};
use lr_origin::ImageName;
use lr_spec::OutOfMemory;
use lr_text::put_number;
use lr_walk::JobResult;

fn state_word(state: ActorState) -> &'static [u8]
    ensures { result.now ≡ state_word state }
{
    match state {
        ActorState::Ended => b" ended\n",
        ActorState::Crashed => b" crashed\n",
        ActorState::Unfinished => b" unfinished\n",
    }
}

#[tactic(auto, unfolding(crate::specs::Report::result_line))]
fn put_result(out: &mut Vec<u8>, number: u64, job: &JobResult) -> Result<(), OutOfMemory>
    ensures { OnOk result (out.new.items ≡ out.old.items ++ result_line (number, job.now)) }
{
    put_number(out, number)?;
    out.extend_from_slice(b" ")?;
    put_answer(out, &job.answer)?;
    out.extend_from_slice(b"\n")?;
    Ok(())
}

fn put_results(out: &mut Vec<u8>, results: &[JobResult]) -> Result<(), OutOfMemory>
    ensures { OnOk result (out.new.items ≡ out.old.items ++ results_part results.now) }
{
    for (at, job) in results.iter().enumerate() {
        put_result(out, at as u64 + 1, job)?;
    }
    Ok(())
}

#[tactic(auto, unfolding(crate::specs::Report::actor_part))]
fn put_actor(out: &mut Vec<u8>, name: &ImageName, trail: &Trail) -> Result<(), OutOfMemory>
    ensures { OnOk result (out.new.items ≡ out.old.items ++ actor_part (name.now, trail.now)) }
{
    out.extend_from_slice(b"actor ")?;
    out.extend_from_slice(name.as_bytes())?;
    out.extend_from_slice(state_word(trail.state))?;
    put_results(out, &trail.results)
}

// Adds each actor with the results of its jobs.
pub fn put_actors(
    out: &mut Vec<u8>,
    names: &[ImageName],
    trails: &[Trail],
) -> Result<(), OutOfMemory>
    ensures { OnOk result (out.new.items ≡ out.old.items ++ actors_part (zip names.now trails.now)) }
{
    for (at, name) in names.iter().enumerate() {
        let Some(trail) = trails.get(at) else {
            return Ok(());
        };
        put_actor(out, name, trail)?;
    }
    Ok(())
}
