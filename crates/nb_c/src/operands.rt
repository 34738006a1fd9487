// The calls on operands alone.
ghost use Rattle.std.specs.Prelude.{◌≡◌};
ghost use Rattle.operand.specs.Causes.{constant_causes, turn_bytes_causes, sum_bytes_causes, solve_bytes_causes};
ghost use Rattle.operand.specs.Calls.{zero_into, one_into, turn_into, sum_into, solve_into};
ghost use Rattle.nb.specs.Calls.{fault_answer, trace_answer};

#[unsafe(no_mangle)]
pub extern "C" fn nb_zero(width: u64, res: &mut [u8]) -> u64
    ensures { (result ≡ fault_answer (constant_causes width res.old))
        × (res.new ≡ zero_into width res.old) }
{
    nb::nb_zero(width, res)
}

#[unsafe(no_mangle)]
pub extern "C" fn nb_one(width: u64, res: &mut [u8]) -> u64
    ensures { (result ≡ fault_answer (constant_causes width res.old))
        × (res.new ≡ one_into width res.old) }
{
    nb::nb_one(width, res)
}

#[unsafe(no_mangle)]
pub extern "C" fn nb_turn(width: u64, a: &[u8], k: u64, res: &mut [u8]) -> u64
    ensures { (result ≡ fault_answer (turn_bytes_causes width a.now res.old))
        × (res.new ≡ turn_into width a.now k res.old) }
{
    nb::nb_turn(width, a, k, res)
}

#[unsafe(no_mangle)]
pub extern "C" fn nb_sum(width: u64, a: &[u8], b: &[u8], res: &mut [u8]) -> u64
    ensures { (result ≡ fault_answer (sum_bytes_causes width a.now b.now res.old))
        × (res.new ≡ sum_into width a.now b.now res.old) }
{
    nb::nb_sum(width, a, b, res)
}

#[unsafe(no_mangle)]
pub extern "C" fn nb_trace(width: u64, a: &[u8]) -> u64
    ensures { result ≡ trace_answer width a.now }
{
    nb::nb_trace(width, a)
}

#[unsafe(no_mangle)]
pub extern "C" fn nb_solve(width: u64, c: &[u8], res: &mut [u8]) -> u64
    ensures { (result ≡ fault_answer (solve_bytes_causes width c.now res.old))
        × (res.new ≡ solve_into width c.now res.old) }
{
    nb::nb_solve(width, c, res)
}
