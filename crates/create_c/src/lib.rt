// Creation for C: the static library exports the call of `create`, whose clauses it states again.
#![tactic(auto)]

ghost use Rattle.std.specs.Prelude.{◌≡◌};
ghost use Rattle.create.specs.Meets.{Meets};
ghost use Rattle.create.specs.Creation.{after, create_w};

// Creation. Its result is 0, or 18 and no word has changed.
#[unsafe(no_mangle)]
pub extern "C" fn gurtxozal_create(state: &mut [u64], parameters: &[u64]) -> u64
    ensures words { after result state.new ≡ create_w state.old parameters.now }
    ensures meets { Meets state.old parameters.now result state.new }
{
    create::gurtxozal_create(state, parameters)
}
