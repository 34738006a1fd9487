// The calls on a table: the check, its ones, products and inverses under it.
ghost use Rattle.std.specs.Prelude.{◌≡◌};
ghost use Rattle.judging.specs.FaultTable.{check_causes};
ghost use Rattle.product.specs.Causes.{product_bytes_causes, reduced_bytes_causes};
ghost use Rattle.product.specs.Calls.{product_into, reduced_into, inverse_into};
ghost use Rattle.nb.specs.Calls.{fault_answer, ones_answer, inverse_answer};

#[unsafe(no_mangle)]
pub extern "C" fn nb_check(width: u64, table: &[u8]) -> u64
    ensures { result ≡ fault_answer (check_causes width table.now) }
{
    nb::nb_check(width, table)
}

#[unsafe(no_mangle)]
pub extern "C" fn nb_ones(width: u64, table: &[u8]) -> u64
    ensures { result ≡ ones_answer width table.now }
{
    nb::nb_ones(width, table)
}

#[unsafe(no_mangle)]
pub extern "C" fn nb_product(width: u64, table: &[u8], a: &[u8], b: &[u8], res: &mut [u8]) -> u64
    ensures { (result ≡ fault_answer (product_bytes_causes width table.now a.now b.now res.old))
        × (res.new ≡ product_into width table.now a.now b.now res.old) }
{
    nb::nb_product(width, table, a, b, res)
}

#[unsafe(no_mangle)]
pub extern "C" fn nb_product_reduced(
    width: u64,
    table: &[u8],
    a: &[u8],
    b: &[u8],
    res: &mut [u8],
) -> u64
    ensures { (result ≡ fault_answer (reduced_bytes_causes width table.now a.now b.now res.old))
        × (res.new ≡ reduced_into width table.now a.now b.now res.old) }
{
    nb::nb_product_reduced(width, table, a, b, res)
}

#[unsafe(no_mangle)]
pub extern "C" fn nb_inverse(width: u64, table: &[u8], a: &[u8], res: &mut [u8]) -> u64
    ensures { (result ≡ inverse_answer width table.now a.now res.old)
        × (res.new ≡ inverse_into width table.now a.now res.old) }
{
    nb::nb_inverse(width, table, a, res)
}
