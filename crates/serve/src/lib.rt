// One request of a list, by its op: the function of its op reads its fields.
#![tactic(auto)]

ghost use Rattle.std.specs.Prelude.{◌≡◌};
ghost use Rattle.answer.specs.Does.{both};
ghost use Rattle.serve.specs.Serve.{serve_r};

use format::op;
use layout::Shape;
use request::Record;

// The request that is a record of a list, by its op. One arm for each number that a list may give. The functions read the fields of their op, call what does the request and put its answer; one function for all would take these three as closures.
#[tactic(auto, unfolding(crate::specs::Serve::serve_r), using(crate::specs::Serve::at_op))]
pub fn serve(s: &mut [u64], sh: Shape, rq: &Record, op: u64, out: &mut [u64], base: usize)
    ensures { both s.new out.new ≡ serve_r op s.old out.old sh rq.now.words.now rq.now.at base }
{
    match op {
        op::OP_NEW_OBJECT => parcel::serve_new_object(s, sh, rq, out, base),
        op::OP_DUPLICATE => parcel::serve_duplicate(s, sh, rq, out, base),
        op::OP_RELEASE_PARCEL => parcel::serve_release_parcel(s, sh, rq, out, base),
        op::OP_RETIRE_OBJECT => parcel::serve_retire_object(s, sh, rq, out, base),
        op::OP_RESERVE => reserve::serve_reserve(s, sh, rq, out, base),
        op::OP_TRIM => claim::serve_trim(s, sh, rq, out, base),
        op::OP_ABORT => claim::serve_abort(s, sh, rq, out, base),
        op::OP_PUBLISH => parcel::serve_publish(s, sh, rq, out, base),
        op::OP_GET_INFO => info::serve_get_info(s, sh, rq, out, base),
        op::OP_RESOLVE => lookup::serve_resolve(s, sh, rq, out, base),
        op::OP_REPLACE => close::serve_replace(s, sh, rq, out, base),
        op::OP_CLOSE => close::serve_close(s, sh, rq, out, base),
        op::OP_SCAN_HANDLES => lookup::serve_scan_handles(s, sh, rq, out, base),
        op::OP_PREPARE_TRANSFER => transfer::serve_prepare_transfer(s, sh, rq, out, base),
        op::OP_PREPARE_CONSUMPTION => transfer::serve_prepare_consumption(s, sh, rq, out, base),
        op::OP_ROLLBACK => claim::serve_rollback(s, sh, rq, out, base),
        op::OP_COMMIT => claim::serve_commit(s, sh, rq, out, base),
        op::OP_DIRECT_COMMIT => claim::serve_direct_commit(s, sh, rq, out, base),
        op::OP_DIRECT_ROLLBACK => claim::serve_direct_rollback(s, sh, rq, out, base),
        op::OP_REMOVE_STOPPING_OWNER => teardown::serve_remove_stopping_owner(s, sh, rq, out, base),
        op::OP_TEARDOWN_START => teardown::serve_teardown_start(s, sh, rq, out, base),
        op::OP_TEARDOWN_STEP => teardown::serve_teardown_step(s, sh, rq, out, base),
        op::OP_TEARDOWN_FINISH => teardown::serve_teardown_finish(s, sh, rq, out, base),
        op::OP_TAKE_EMPTY_PAGE => detach::serve_take_empty_page(s, sh, rq, out, base),
        op::OP_MAKE_PLAN => plan::serve_make_plan(s, sh, rq, out, base),
        op::OP_USE_PLAN => plan::serve_use_plan(s, sh, rq, out, base),
        op::OP_DROP_PLAN => plan::serve_drop_plan(s, sh, rq, out, base),
        op::OP_JUDGE_TRANSFER => transfer::serve_judge_transfer(s, sh, rq, out, base),
        _ => {}
    }
}
