// The exports of crate `rack` for C and Rust, with their clauses: declared for C in include/rack.h.
#![tactic(auto)]

ghost use Rattle.std.specs.Prelude.{◌≡◌};
ghost use Rattle.told.specs.Told.{status_of, leaves_numbers};
ghost use Rattle.rack.specs.Rack.{plan_bytes, plan_leaves, who_numbers, who_told, pass_numbers, pass_told, list_numbers, list_told, list_leaves};

// The text of a plan.
#[unsafe(no_mangle)]
pub extern "C" fn rack_plan(tasks: &[u8], out: &mut [u8]) -> usize
    ensures value { result ≡ plan_bytes tasks.now out.old }
    ensures out_after { out.new ≡ plan_leaves tasks.now out.old }
{
    rack::text::rack_plan(tasks, out)
}

// The switch list.
#[unsafe(no_mangle)]
pub extern "C" fn rack_switches(tasks: &[u8], out: &mut [u8], answer: &mut [u64]) -> u64
    ensures value { result ≡ status_of (list_told tasks.now out.old answer.old) }
    ensures out_after { out.new ≡ list_leaves tasks.now out.old answer.old }
    ensures answer_after { answer.new ≡ leaves_numbers (list_told tasks.now out.old answer.old) (list_numbers tasks.now) answer.old }
{
    rack::list::rack_switches(tasks, out, answer)
}

// Who runs on a processor at a tick.
#[unsafe(no_mangle)]
pub extern "C" fn rack_who(tasks: &[u8], processor: u64, tick: u64, answer: &mut [u64]) -> u64
    ensures value { result ≡ status_of (who_told tasks.now processor tick answer.old) }
    ensures answer_after { answer.new ≡ leaves_numbers (who_told tasks.now processor tick answer.old) (who_numbers tasks.now processor tick) answer.old }
{
    rack::answers::rack_who(tasks, processor, tick, answer)
}

// Does a server pass with a reserve.
#[unsafe(no_mangle)]
pub extern "C" fn rack_pass(tasks: &[u8], server: u64, reserve: u64, answer: &mut [u64]) -> u64
    ensures value { result ≡ status_of (pass_told tasks.now server reserve answer.old) }
    ensures answer_after { answer.new ≡ leaves_numbers (pass_told tasks.now server reserve answer.old) (pass_numbers tasks.now server reserve) answer.old }
{
    rack::answers::rack_pass(tasks, server, reserve, answer)
}
