// The runner for C: the static library exports the call of `runner`, whose clauses it states again.
#![tactic(auto)]

ghost use Rattle.std.specs.Prelude.{◌≡◌};
ghost use Rattle.wellformed.specs.Whole.{well_b};
ghost use Rattle.contract.specs.Meets.{called, Meets};
ghost use Rattle.contract.specs.Call.{run_w};
ghost use Rattle.serve.specs.Serve.{one_r};

// A list of requests on a state. The result is 18, 19 or 20 and no lent word has changed, or 0 and every request has run.
#[unsafe(no_mangle)]
pub extern "C" fn gurtxozal_run(state: &mut [u64], list: &[u64], answers: &mut [u64]) -> u64
    ensures words { called result state.new answers.new ≡ run_w one_r well_b state.old list.now answers.old }
    ensures meets { Meets state.old list.now answers.old (called result state.new answers.new) }
{
    runner::gurtxozal_run(state, list, answers)
}
