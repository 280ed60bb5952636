// The writers of a set, of a plan and of its switch list, called with a set and a plan as numbers (crate `handed`), for the outside
// tests. Each answers every input, into lent bytes: a status of 0 says that the text stands at their start, with its length in the
// lent number; any other is the refusal, and both are as before. What is answered stands in specs/Texts.antt.
#![tactic(auto)]

ghost use Rattle.std.specs.Prelude.{◌≡◌};
ghost use Rattle.refusals.specs.Leaves.{leaves};
ghost use Rattle.tasktext.specs.Text.{text_of};
ghost use Rattle.plantext.specs.Text.{plan_text};
ghost use Rattle.switchlist.specs.Write.{plan_switches};
ghost use Rattle.handedset.specs.Set.{set_from};
ghost use Rattle.handedplan.specs.Plan.{plan_from};
ghost use Rattle.toldtext.specs.Length.{written_status, written_length};
ghost use Rattle.calledtexts.specs.Texts.{set_written, plan_written, switches_written};

use handedplan::plan_from;
use handedset::set_from;
use switchlist_code::write_switches;
use taskwrite_code::write;
use toldtext::tell;
use write_plan::write_plan;

// The text of a set.
#[unsafe(no_mangle)]
pub extern "C" fn handed_write(set: &[u64], out: &mut [u8], length: &mut usize) -> u64
    ensures value { result ≡ written_status (set_written set.now out.old) }
    ensures out_after { out.new ≡ leaves (set_written set.now out.old) out.old (text_of (set_from set.now)) }
    ensures length_after { length.new ≡ written_length (set_written set.now out.old) length.old }
{
    let written = write(set_from(set), out);
    tell(written, length)
}

// The text of a plan that is handed in with its set.
#[unsafe(no_mangle)]
pub extern "C" fn handed_write_plan<'a>(
    set: &'a [u64],
    plan: &'a [u64],
    out: &mut [u8],
    length: &mut usize,
) -> u64
    ensures value { result ≡ written_status (plan_written set.now plan.now out.old) }
    ensures out_after { out.new ≡ leaves (plan_written set.now plan.now out.old) out.old (plan_text (set_from set.now) (plan_from plan.now)) }
    ensures length_after { length.new ≡ written_length (plan_written set.now plan.now out.old) length.old }
{
    let written = write_plan(set_from(set), plan_from(plan), out);
    tell(written, length)
}

// The switch list of a plan that is handed in with its set.
#[unsafe(no_mangle)]
pub extern "C" fn handed_write_switches<'a>(
    set: &'a [u64],
    plan: &'a [u64],
    out: &mut [u8],
    length: &mut usize,
) -> u64
    ensures value { result ≡ written_status (switches_written set.now plan.now out.old) }
    ensures out_after { out.new ≡ leaves (switches_written set.now plan.now out.old) out.old (plan_switches (plan_from plan.now)) }
    ensures length_after { length.new ≡ written_length (switches_written set.now plan.now out.old) length.old }
{
    let written = write_switches(set_from(set), plan_from(plan), out);
    tell(written, length)
}
