// The plan text of a task file, or its 1F line, into lent memory.
ghost use Rattle.std.specs.Prelude.{◌≡◌};
ghost use Rattle.rack.specs.Rack.{plan_bytes, plan_leaves};

use refusals::Written;

// The text at the start of `out`, and its length; 0 and nothing stored where it does not fit. 2,647 bytes always suffice.
pub fn rack_plan(tasks: &[u8], out: &mut [u8]) -> usize
    ensures value { result ≡ plan_bytes tasks.now out.old }
    ensures out_after { out.new ≡ plan_leaves tasks.now out.old }
{
    let Ok(length) = planfile_code::answer(tasks, out) else {
        return 0;
    };
    length
}
