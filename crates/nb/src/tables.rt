// The calls on a table: the check, its ones, products and inverses under it.
ghost use Rattle.std.specs.Prelude.{◌≡◌};
ghost use Rattle.judging.specs.FaultTable.{check_causes};
ghost use Rattle.product.specs.Causes.{product_bytes_causes, reduced_bytes_causes};
ghost use Rattle.product.specs.Calls.{product_into, reduced_into, inverse_into};
ghost use Rattle.nb.specs.Calls.{fault_answer, ones_answer, inverse_answer};

use crate::packing;
use product::Method;

pub fn nb_check(width: u64, table: &[u8]) -> u64
    ensures { result ≡ fault_answer (check_causes width table.now) }
{
    packing::verdict(table::check(width as usize, table))
}

pub fn nb_ones(width: u64, table: &[u8]) -> u64
    ensures { result ≡ ones_answer width table.now }
{
    packing::value(table::ones(width as usize, table))
}

pub fn nb_product(width: u64, table: &[u8], a: &[u8], b: &[u8], res: &mut [u8]) -> u64
    ensures { (result ≡ fault_answer (product_bytes_causes width table.now a.now b.now res.old))
        × (res.new ≡ product_into width table.now a.now b.now res.old) }
{
    packing::verdict(product::multiply_into(Method::Plain, width as usize, table, a, b, res))
}

pub fn nb_product_reduced(width: u64, table: &[u8], a: &[u8], b: &[u8], res: &mut [u8]) -> u64
    ensures { (result ≡ fault_answer (reduced_bytes_causes width table.now a.now b.now res.old))
        × (res.new ≡ reduced_into width table.now a.now b.now res.old) }
{
    packing::verdict(product::multiply_into(Method::Reduced, width as usize, table, a, b, res))
}

pub fn nb_inverse(width: u64, table: &[u8], a: &[u8], res: &mut [u8]) -> u64
    ensures { (result ≡ inverse_answer width table.now a.now res.old)
        × (res.new ≡ inverse_into width table.now a.now res.old) }
{
    packing::value(product::inverse_into(width as usize, table, a, res))
}
