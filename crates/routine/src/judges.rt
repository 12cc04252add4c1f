// JUDGE: whether a process may take a step.
ghost use Rattle.std.specs.Prelude.{◌≡◌};
ghost use Rattle.terms.specs.Refusal.{refusal_in};
ghost use Rattle.model.specs.Run;

use model::{Place, Row, Shape};
use steps::Step;
use terms::Refusal;

// What refuses a step of the process with this row. Any step: 13, its tick is below the newest; 14, the process has crashed.
// A move: 15, it has decided; 16, it still waits.
#[tactic(auto, unfolding(model::specs::Run::judge))]
pub fn judge(shape: Shape, row: &Row, newest: u32, step: Step) -> Result<(), Refusal>
    ensures { refusal_in result ≡ Run.judge shape row.now newest step }
{
    if step.tick < newest {
        return Err(Refusal::Tick);
    }
    if row.crashed {
        return Err(Refusal::Crashed);
    }
    if step.event != 0 {
        return Ok(());
    }
    if row.local.place == Place::Decided {
        return Err(Refusal::Decided);
    }
    if step.tick < row.local.wake {
        return Err(Refusal::Waiting);
    }
    Ok(())
}
