// The host door for C callers: `door::host_door` under its C name.
#![tactic(auto)]

ghost use Rattle.std.specs.Prelude.{◌≡◌};
ghost use Rattle.rules.specs.Door.{door_call};

// Solution `number` of the problem, from 0: 0 with its depth and option numbers over the front of `out`, 20 where there
// is none, 21 where a visit is due and the allowance for the whole call is spent, or the number of a refusal. Bytes are
// words of 32 bits, the lowest byte first.
#[unsafe(no_mangle)]
pub extern "C" fn host_door(problem: &[u8], number: u64, allowance: u64, out: &mut [u8]) -> u32
    ensures { record { result = result; out = out.new } ≡ door_call problem.now number allowance out.old }
{
    door::host_door(problem, number, allowance, out)
}
