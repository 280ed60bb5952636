// A writer's answer, told as a status and the length of what was written. What it says stands in specs/Length.antt.
#![tactic(auto)]

ghost use Rattle.std.specs.Prelude.{◌≡◌};
ghost use Rattle.toldtext.specs.Length.{written_status, written_length};

use refusals::Written;
use told_code::code;

// Tells a writer's answer: its status, and the length of what was written.
pub fn tell(written: Written, length: &mut usize) -> u64
    ensures value { result ≡ written_status written }
    ensures length_after { length.new ≡ written_length written length.old }
{
    match written {
        Ok(bytes) => {
            *length = bytes;
            0
        }
        Err(refusal) => code(refusal),
    }
}
